//! Edits of a line that notify its record and a kill ring, as methods of the line with its record.
#![tactic(auto)]

pub mod inserting;
pub mod killing;
pub mod laws;
pub mod plain;
pub mod recorded_line;
pub mod replace_chars;
pub mod transforms;
pub mod updates;

pub use plain::is_plain;
pub use recorded_line::RecordedLine;
