//! What follows the events of a line: the kill ring, which restores killed text, and the undo
//! record, which restores earlier texts.
#![tactic(auto)]

pub mod changeset;
mod edited_line;
mod entry;
mod gap_line;
pub mod joined;
pub mod kill_ring;
pub mod laws;
mod listen;
mod log;
mod report;
mod steps;
mod undo;
mod words;

pub use changeset::Changeset;
pub use joined::Joined;
pub use kill_ring::KillRing;
