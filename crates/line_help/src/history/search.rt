//! Directions and results of a search in a history.

/// The direction of a search in a history.
#[derive(Clone, Copy, Debug, PartialEq, Eq)]
pub enum SearchDirection {
    /// To newer entries.
    Forward,
    /// To older entries.
    Reverse,
}

/// An entry found in a history.
#[derive(Clone, Copy, Debug, PartialEq, Eq)]
pub struct SearchResult<'a> {
    /// The entry's text.
    pub entry: &'a str,
    /// The entry's index in the history; the oldest entry has index 0.
    pub idx: usize,
    /// The place in the entry, in bytes: where the term begins, or after the term if the entry had
    /// to begin with it.
    pub pos: usize,
}
