//! Players of help's tables, whose calls need only their rows.

use crate::help::brackets::{bracket_at_the_cursor, match_told, validated};
use crate::help::completion::{common_prefix, completed_by, made_of_row};
use crate::help::history::{loaded_anew, loaded_under};
use crate::help::resuming::ends_told;
use crate::help::style_split::split_told;
use crate::help::words::words_of_text;
use stand_ins::rows::{Player, raised, trimmed};
use std::alloc::{AllocError, Global};
use std::test::Fail;

/// The calls of a table's rows that fail only if memory runs out.
#[derive(Clone, Copy, Drop)]
pub(crate) enum Ask {
    Match,
    AtTheCursor,
    Verdict,
    CompletedBy,
    CommonPrefixes,
    Settings,
    Ends,
    Split,
    WordsOfTexts,
}

impl Ask {
    fn answer(&self, alloc: Global, call: &str) -> Result<String, AllocError> {
        match self {
            Ask::Match => match_told(alloc, call),
            Ask::AtTheCursor => bracket_at_the_cursor(alloc, call),
            Ask::Verdict => validated(alloc, call),
            Ask::CompletedBy => completed_by(alloc, call),
            Ask::CommonPrefixes => common_prefix(alloc, call),
            Ask::Settings => loaded_under(alloc, call),
            Ask::Ends => ends_told(alloc, call),
            Ask::Split => split_told(alloc, call),
            Ask::WordsOfTexts => words_of_text(alloc, call),
        }
    }
}

impl Player for Ask {
    fn play(&mut self, alloc: Global, call: &str) -> Result<String, Fail> {
        let said = self.answer(alloc, call)?;
        trimmed(alloc, said.as_str())
    }
}

/// The calls of a table's rows that may fail for other reasons too.
#[derive(Clone, Copy, Drop)]
pub(crate) enum Try {
    Words,
    Loaded,
}

impl Player for Try {
    fn play(&mut self, alloc: Global, call: &str) -> Result<String, Fail> {
        let said: Result<String, Fail> = match self {
            Try::Words => raised(made_of_row(alloc, call)),
            Try::Loaded => raised(loaded_anew(alloc, call)),
        };
        trimmed(alloc, said?.as_str())
    }
}
