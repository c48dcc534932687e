//! Whole sessions written as rows of text: the words of a row, and what plays it.
#![tactic(auto)]

pub mod rows;
pub mod words;
