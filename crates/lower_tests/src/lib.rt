//! Tests of the lowest libraries, each in its own module: motions, columns and insertions of lines,
//! the undo record, settings and devices, keys and their commands, histories and helpers.
#![tactic(auto)]

#[cfg(test)]
mod buffer;
#[cfg(test)]
mod config;
#[cfg(test)]
mod help;
#[cfg(test)]
mod keys;
#[cfg(test)]
mod record;
