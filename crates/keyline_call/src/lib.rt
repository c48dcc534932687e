//! Lines for programs in C, as `keyline_c` exports them. A call takes all keys typed since a line
//! began. It returns the bytes to send to the terminal and, once it is complete, the line. No state
//! is kept between calls: the history and the kill ring are passed in and returned.
#![tactic(auto)]

mod asking;
mod buffer;
mod export;
pub mod laws;
mod line;
mod ring;
mod status;

pub use crate::export::{KeylineOptions, KeylineStep, KeylineWants, line_of_keys};
