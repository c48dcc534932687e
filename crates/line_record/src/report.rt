//! The changes that are reported to a record.

use crate::entry::Kind;
use line_buffer::Direction;

/// A reported change, with its texts borrowed. Places are in bytes.
#[derive(Clone, Copy)]
pub enum Report<'a> {
    Char {
        at: usize,
        c: char,
    },
    Text {
        at: usize,
        text: &'a str,
    },
    Deletion {
        at: usize,
        text: &'a str,
        direction: Direction,
    },
    Replacement {
        at: usize,
        removed: &'a str,
        added: &'a str,
    },
}

impl<'a> Report<'a> {
    ghost use Rattle.std.specs.Prelude.{◌≡◌, Some, true, not, is_some};
    ghost use Rattle.line_record.specs.Held.{change_of};
    ghost use Rattle.line_record.specs.Change.{place_of, old_text_of, new_text_of};
    ghost use Rattle.line_record.specs.Log.{edit_from, change_told, event_of};

    /// Whether nothing is inserted and nothing deleted.
    pub fn is_empty(self) -> bool
        ensures { result ≡ not (is_some (change_of (event_of self.entry))) }
    {
        match self {
            Report::Char { .. } => false,
            Report::Text { text, .. } => text.is_empty(),
            Report::Deletion { text, .. } => text.is_empty(),
            Report::Replacement { removed, added, .. } => removed.is_empty() && added.is_empty(),
        }
    }

    /// The kind of the change.
    pub fn kind(self) -> Kind
        ensures { let told = change_told (event_of self.entry) in
            is_some (change_of (event_of self.entry)) ≡ true → change_of (event_of self.entry)
            ≡ Some (edit_from result (place_of told) (old_text_of told) (new_text_of told)) }
    {
        match self {
            Report::Char { .. } | Report::Text { .. } => Kind::Insertion,
            Report::Deletion { .. } => Kind::Deletion,
            Report::Replacement { .. } => Kind::Replacement,
        }
    }

    pub fn at(self) -> usize
        ensures { result ≡ place_of (change_told (event_of self.entry)) }
    {
        match self {
            Report::Char { at, .. } => at,
            Report::Text { at, .. } => at,
            Report::Deletion { at, .. } => at,
            Report::Replacement { at, .. } => at,
        }
    }

    /// The deleted text.
    pub fn removed(self) -> &'a str
        ensures { result.now ≡ old_text_of (change_told (event_of self.entry)) }
    {
        match self {
            Report::Char { .. } | Report::Text { .. } => "",
            Report::Deletion { text, .. } => text,
            Report::Replacement { removed, .. } => removed,
        }
    }

    /// The inserted text; `room` is a buffer for the text of a character.
    pub fn added(self, room: &'a mut [u8; 4]) -> &'a str
        ensures { result.now ≡ new_text_of (change_told (event_of self.entry)) }
    {
        match self {
            Report::Char { c, .. } => c.encode_utf8(room),
            Report::Text { text, .. } => text,
            Report::Deletion { .. } => "",
            Report::Replacement { added, .. } => added,
        }
    }
}
