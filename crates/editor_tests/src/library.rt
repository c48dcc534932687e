//! The calls of `keyline` by themselves. Whole sessions are in the rows of `sessions_program`.

mod by_options;
mod lines;
mod over_memory;
pub(crate) mod told;
