//! Helpers of a line: hints, highlighting, validation and prompts.

pub mod bracket_highlighter;
pub mod bracket_validator;
pub mod brackets;
pub mod context;
pub mod helper;
pub mod helper_parts;
pub mod highlight;
pub mod hint;
pub(crate) mod optional;
pub mod prompt;
pub mod prompt_highlighter;
pub mod standard_highlighter;
pub mod style;
pub mod style_split;
pub mod validate;
