//! What is said of a statement with a mistake.

use sqlite::Error;
use sqlite_resolve::CompileError;
use sqlite_syntax::error::ParseError;
use std::io;

/// Prints what the mistake is and, if that is known, at which word.
pub(crate) fn print(rt: &HostRuntime, sql: &str, error: &Error) -> io::Result<()> {
    let Some(place) = place_of(sql, error) else {
        return println!(rt; "error: {error}");
    };
    let before = sql.get(..place).unwrap_or("");
    let word = first_word(sql.get(place..).unwrap_or(""));
    if word.is_empty() {
        return println!(rt; "error at the end: {error}");
    }
    match before.split('\n').count() {
        1 => println!(rt; "error near \"{word}\": {error}"),
        row => println!(rt; "error in row {row} near \"{word}\": {error}"),
    }
}

/// Where the word begins that no rule of the grammar reads.
fn place_of(sql: &str, error: &Error) -> Option<usize> {
    match error {
        Error::SqlInputError(
            CompileError::Parse(ParseError::Syntax(rest) | ParseError::Unsupported(rest)),
        ) => sql.len().checked_sub(*rest),
        _ => None,
    }
}

/// The word that a text begins with, or what else is before a blank.
fn first_word(text: &str) -> &str {
    let word = text.split_whitespace().next().unwrap_or("");
    match word.find(is_no_letter) {
        None | Some(0) => word,
        Some(end) => word.get(..end).unwrap_or(word),
    }
}

fn is_no_letter(c: char) -> bool {
    !c.is_ascii_alphanumeric() && c != '_' && c.is_ascii()
}
