//! The text of an edited line, with the cursor's place: motions, edits, and the events that notify
//! a listener of each change.
#![tactic(auto)]

mod clusters;
mod columns;
mod deletion;
mod edit;
mod gap_buffer;
mod indentation;
mod insertion;
pub mod laws;
pub mod layout;
mod letter_case;
pub mod line_buffer;
pub mod listener;
mod motion;
mod printable;
mod range;
mod rows;
mod runs;
mod search;
mod tabs;
mod transposition;
pub mod types;
mod words;

pub use clusters::{clusters_up_to, has_one_cluster};
pub use layout::{GraphemeClusterMode, Layout, Position, TabStops, Unit};
pub use line_buffer::{LineBuffer, MAX_LINE, OutOfMemory};
pub use listener::{ChangeListener, DeleteListener, NoListener};
pub use printable::{is_plain, is_printable, is_printable_text, is_simple};
pub use range::TextSpan;
pub use tabs::tab_width;
pub use types::{Anchor, At, CharSearch, Direction, Mode, Movement, RepeatCount, Word, WordAction};
pub use words::{is_alphanumeric, is_alphanumeric_cluster};
