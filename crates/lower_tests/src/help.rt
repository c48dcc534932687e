//! The promises of `line_help` at work: histories and their texts, completion, brackets and
//! helpers.

mod asks;
mod brackets;
mod completion;
mod history;
mod passing;
mod resuming;
mod style_split;
mod styles;
mod words;
