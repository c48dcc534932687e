//! One entry of a history.

use std::alloc::{AllocError, Global};
use std::marker::Model;

/// The text of an entry.
#[derive(Debug, Drop)]
pub(crate) struct Entry {
    text: String,
}

impl Model for Entry {
    ghost use Rattle.std.specs.Prelude.{ℕ, List, string_bytes};

    ghost Value = { List ℕ };

    ghost view = { λ e. string_bytes e.text };
}

impl Entry {
    ghost use Rattle.std.specs.Prelude.{◌≡◌, IfOk, MatchResult, string_bytes};

    pub(crate) fn new(text: String) -> Self
        ensures { result ≡ string_bytes text }
    {
        Entry { text }
    }

    pub(crate) fn copied(alloc: Global, text: &str) -> Result<Self, AllocError>
        ensures { IfOk result (λ e. e ≡ text.now) }
    {
        Ok(Entry {
            text: String::from_str(alloc, text)?,
        })
    }

    /// An entry with a new text in the memory of this one, if that is large enough and at most four
    /// times as large as the text. If not, this entry is returned unchanged.
    pub(crate) fn replaced(self, text: &str) -> Result<Self, Self>
        ensures { MatchResult result (λ e. e ≡ text.now) (λ e. e ≡ self) }
    {
        let mut kept = self.text;
        let room = kept.capacity();
        if room < text.len() || text.len() < room / 4 {
            return Err(Entry { text: kept });
        }
        kept.clear();
        match kept.push_str(text) {
            Ok(()) => Ok(Entry { text: kept }),
            Err(_) => Err(Entry { text: kept }),
        }
    }

    pub(crate) fn text(&self) -> &String
        ensures { string_bytes result.now ≡ self.now }
    {
        &self.text
    }
}
