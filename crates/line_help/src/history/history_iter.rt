//! Iterates over a history.

use crate::history::entry::Entry;
use crate::history::memory_history::MemHistory;
use std::collections::vec_deque;

/// The entries of a history, oldest first.
#[derive(Drop)]
pub struct HistoryIter<'a> {
    entries: vec_deque::Iter<'a, Entry>,
}

impl<'a> HistoryIter<'a> {
    ghost use Rattle.std.specs.Prelude.{◌≡◌};
    ghost use Rattle.line_help.specs.History.{entries_left};
    ghost use Rattle.std.specs.VecDeque.Iter.{deque_iter_rest};

    pub(crate) fn over(entries: vec_deque::Iter<'a, Entry>) -> Self
        ensures { entries_left result ≡ deque_iter_rest entries.entry }
    {
        HistoryIter { entries }
    }
}

impl<'a> Iterator for HistoryIter<'a> {
    type Item = &'a String;

    ghost use Rattle.std.specs.Prelude.{string_bytes};
    ghost use Rattle.std.specs.Iterator.{YieldsFirstBy, item_count};
    ghost use Rattle.line_help.specs.History.{entries_left};

    ghost next_gives = { YieldsFirstBy (λ item. string_bytes item.now) entries_left };

    ghost remaining = { item_count entries_left };

    fn next(&mut self) -> Option<&'a String> {
        let entry = self.entries.next()?;
        Some(entry.text())
    }
}
