//! The words in which tests write sessions: rows, settings, bindings, helpers, styles and faults.

pub mod advice;
pub mod aide;
pub mod bound;
pub mod faults;
pub mod notation;
pub mod styles;
