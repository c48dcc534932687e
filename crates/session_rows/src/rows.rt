//! Plays whole sessions written as rows of text. A row is played over memory, by `run` and by
//! `read_line`, and over a reader that gives one byte per read.

pub mod each;
pub mod play;
pub mod refusals;
