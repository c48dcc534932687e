//! A helper for sessions.

use crate::words::notation::{Setting, after, text_meant};
use line_help::{
    HelperParts, HistoryHinter, MatchingBracketValidator, StandardHighlighter, WholeWordCompleter,
};
use std::alloc::{AllocError, Global};

/// Completion by words, hints from the history, the standard styles, and validation of brackets.
/// A word that is the only candidate is followed by the text after `ends:`, a space or a quote.
pub type Aide = HelperParts<
    Option<WholeWordCompleter>,
    HistoryHinter,
    StandardHighlighter,
    Option<MatchingBracketValidator>,
>;

// The text with this picture.
fn end_named(shown: &str) -> &'static str {
    match shown {
        "␠" => " ",
        "\"" => "\"",
        _ => "",
    }
}

fn completer_of(
    alloc: Global,
    listed: &str,
    end: &'static str,
) -> Result<Option<WholeWordCompleter>, AllocError> {
    if listed.is_empty() {
        return Ok(None);
    }
    let mut words = Vec::new(alloc);
    for word in listed.split(',') {
        words.push(text_meant(alloc, word)?)?;
    }
    Ok(Some(WholeWordCompleter::new(words, end)))
}

/// The helper of a setting.
pub fn aide_of(alloc: Global, setting: &Setting<'_>) -> Result<Option<Aide>, AllocError> {
    let end = end_named(after(setting.all, "ends:").unwrap_or(""));
    let completer = completer_of(alloc, setting.words, end)?;
    if completer.is_none() && !setting.helped {
        return Ok(None);
    }
    let validator = if setting.helped {
        Some(MatchingBracketValidator::new())
    } else {
        None
    };
    Ok(Some(HelperParts {
        completer,
        hinter: HistoryHinter::new(),
        highlighter: StandardHighlighter::new(),
        validator,
    }))
}
