//! The promises of `line_record` at work: what is undone and redone.

mod undo;
