//! The files of programs that edit lines: a history that lasts, and files that are read whole.
//!
//! A row is appended to a history by requests to a device of files, and the contract of
//! [`append_row`] says which requests are made, in which order, and with which bytes. What the
//! system makes of them no contract can say: [`Host`], and what loads, cuts and replaces a file, is
//! tested and not proved.
#![tactic(auto)]

mod append;
mod device;
mod history;
mod history_file;
mod host;
pub mod laws;
mod locking;
mod log;
mod whole;

pub use append::{append_row, lock_named};
pub use device::{FileDevice, Request};
pub use history::{
    append_history, can_append, cut_history, load_history, load_history_lossy, save_history,
};
pub use history_file::HistoryFile;
pub use host::Host;
pub use whole::read_file;
