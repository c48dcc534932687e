//! A history in memory.

use crate::history::History;
use crate::history::entry::Entry;
use crate::history::found::hit;
use crate::history::history_iter::HistoryIter;
use crate::history::search::{SearchDirection, SearchResult};
use crate::history::space::begins_with_space;
use line_config::{Config, HistoryDuplicates, ReadlineError};
use std::alloc::Global;
use std::collections::VecDeque;
use std::marker::Model;
use std::ops::Index;

/// A history that isn't saved.
#[derive(Debug, Drop)]
pub struct MemHistory {
    entries: VecDeque<Entry>,
    max_len: usize,
    ignore_space: bool,
    ignore_dups: bool,
}

impl Model for MemHistory {
    ghost use Rattle.std.specs.Prelude.{◌≤◌, length};
    ghost use Rattle.line_help.specs.History.{Kept};

    ghost Value = { Kept };

    ghost view = { λ h. record {
      entries = h.entries.items;
      settings = record
          { max_len = h.max_len; ignore_space = h.ignore_space; ignore_dups = h.ignore_dups };
    } };

    ghost invariant = { λ h. length h.entries.items ≤ h.max_len };
}

impl MemHistory {
    ghost use Rattle.std.specs.Prelude.{◌≡◌, ◌<◌, [], ◌∷◌, ◌++◌, drop, IsTrue, IsFalse};
    ghost use Rattle.line_config.specs.Config.{default_config};
    ghost use Rattle.line_help.specs.History.{Grows, settings_of, nothing_kept, entries_with, newest, newest_is, ignores_line, entries_left};

    /// A history with the default settings.
    pub fn new(alloc: Global) -> Self
        ensures { result ≡ nothing_kept (settings_of default_config) }
    {
        Self::with_config(alloc, &Config::default())
    }

    /// A history with a configuration's settings: how many entries are kept, and which lines are
    /// ignored.
    pub fn with_config(alloc: Global, config: &Config) -> Self
        ensures { result ≡ nothing_kept (settings_of config.now) }
    {
        MemHistory {
            entries: VecDeque::new(alloc),
            max_len: config.max_history_size(),
            ignore_space: config.history_ignore_space(),
            ignore_dups: matches!(
                config.history_duplicates(),
                HistoryDuplicates::IgnoreConsecutive
            ),
        }
    }

    /// The entries, oldest first.
    pub fn iter(&self) -> HistoryIter<'_>
        ensures { entries_left result ≡ self.now.entries }
    {
        HistoryIter::over(self.entries.iter())
    }

    // Whether the newest entry is this text.
    fn newest_is(&self, text: &str) -> bool
        ensures { result ≡ newest_is text.now self.now.entries }
    {
        match self.entries.back() {
            Some(entry) => entry.text().as_str() == text,
            None => false,
        }
    }

    /// Whether a line is ignored, as `History::add` says.
    pub(crate) fn ignores(&self, line: &str) -> bool
        ensures { result ≡ ignores_line self.now.settings self.now.entries line.now }
    {
        self.max_len == 0
            || line.is_empty()
            || (self.ignore_space && begins_with_space(line))
            || (self.ignore_dups && self.newest_is(line))
    }

    // Removes the oldest entry and appends a text in its memory. Returns false, and does nothing,
    // if the text doesn't fit there.
    fn replace_oldest(&mut self, text: &str) -> bool
        ensures replaced { IsTrue result
            → self.new.entries ≡ drop 1 (self.old.entries ++ text.now ∷ []) }
        ensures settings { self.new.settings ≡ self.old.settings }
        ensures kept { IsFalse result → self.new ≡ self.old }
    {
        let Some(oldest) = self.entries.pop_front() else {
            return false;
        };
        match oldest.replaced(text) {
            Ok(entry) => {
                self.entries.push_back_reserved(entry);
                true
            }
            Err(oldest) => {
                self.entries.push_front_reserved(oldest);
                false
            }
        }
    }

    // Appends a copy of a text. If there are too many entries, the oldest one is removed.
    fn insert_copy(&mut self, alloc: Global, text: &str) -> Result<(), ReadlineError>
        requires { 0 < self.old.settings.max_len }
        ensures { Grows self.old (entries_with self.old text.now) self.new result }
    {
        if self.entries.len() == self.max_len && self.replace_oldest(text) {
            return Ok(());
        }
        self.insert(Entry::copied(alloc, text)?)
    }

    // Appends an entry. If there are too many entries, the oldest one is removed.
    fn insert(&mut self, entry: Entry) -> Result<(), ReadlineError>
        requires { 0 < self.old.settings.max_len }
        ensures { Grows self.old (entries_with self.old entry) self.new result }
    {
        self.entries.push_back(entry)?;
        if self.entries.len() > self.max_len {
            self.entries.pop_front();
        }
        Ok(())
    }
}

// Searches.
impl MemHistory {
    ghost use Rattle.std.specs.Prelude.{◌≤◌, length, drop, take, reverse};
    ghost use Rattle.line_help.specs.Search.{Finds, hit_by, first_from, first_back, search_hit};

    #[tactic(auto, using(crate::proofs::SearchLemmas::from_steps))]
    fn first_from(&self, anchored: bool, term: &str, start: usize) -> Option<SearchResult<'_>>
        ensures { Finds
            (λ entries. first_from (hit_by anchored term.now) start (drop start entries))
            self.now.entries result }
    {
        for idx in start..self.entries.len() {
            let entry = self.entries[idx].text().as_str();
            if let Some(pos) = hit(anchored, term, entry) {
                return Some(SearchResult { entry, idx, pos });
            }
        }
        None
    }

    #[tactic(auto, using(crate::proofs::SearchLemmas::back_steps))]
    fn first_back(&self, anchored: bool, term: &str, count: usize) -> Option<SearchResult<'_>>
        requires { count ≤ length self.now.entries }
        ensures { Finds
            (λ entries. first_back (hit_by anchored term.now) (reverse (take count entries)))
            self.now.entries result }
    {
        for idx in (0..count).rev() {
            let entry = self.entries[idx].text().as_str();
            if let Some(pos) = hit(anchored, term, entry) {
                return Some(SearchResult { entry, idx, pos });
            }
        }
        None
    }

    fn found(
        &self,
        anchored: bool,
        term: &str,
        start: usize,
        dir: SearchDirection,
    ) -> Option<SearchResult<'_>>
        ensures { Finds (search_hit anchored term.now start dir) self.now.entries result }
    {
        if term.is_empty() || start >= self.entries.len() {
            return None;
        }
        match dir {
            SearchDirection::Forward => self.first_from(anchored, term, start),
            SearchDirection::Reverse => self.first_back(anchored, term, start + 1),
        }
    }
}

impl History for MemHistory {
    ghost entries = { λ h. h.entries };

    ghost settings = { λ h. h.settings };

    fn get(&self, index: usize, _dir: SearchDirection) -> Option<SearchResult<'_>> {
        let entry = self.entries.get(index)?;
        Some(SearchResult {
            entry: entry.text().as_str(),
            idx: index,
            pos: 0,
        })
    }

    fn add(&mut self, alloc: Global, line: &str) -> Result<bool, ReadlineError> {
        if self.ignores(line) {
            return Ok(false);
        }
        self.insert_copy(alloc, line)?;
        Ok(true)
    }

    fn add_owned(&mut self, _alloc: Global, line: String) -> Result<bool, ReadlineError> {
        if self.ignores(line.as_str()) {
            return Ok(false);
        }
        self.insert(Entry::new(line))?;
        Ok(true)
    }

    fn len(&self) -> usize {
        self.entries.len()
    }

    fn is_empty(&self) -> bool {
        self.entries.is_empty()
    }

    fn set_max_len(&mut self, len: usize) {
        self.max_len = len;
        let surplus = self.entries.len().saturating_sub(len);
        for _ in 0..surplus {
            self.entries.pop_front();
        }
    }

    fn ignore_dups(&mut self, yes: bool) {
        self.ignore_dups = yes;
    }

    fn ignore_space(&mut self, yes: bool) {
        self.ignore_space = yes;
    }

    fn clear(&mut self) {
        self.entries.clear();
    }

    fn search(&self, term: &str, start: usize, dir: SearchDirection) -> Option<SearchResult<'_>> {
        self.found(false, term, start, dir)
    }

    fn starts_with(
        &self,
        term: &str,
        start: usize,
        dir: SearchDirection,
    ) -> Option<SearchResult<'_>> {
        self.found(true, term, start, dir)
    }
}

/// The entry at an index, which must be less than the number of entries.
impl Index<usize> for MemHistory {
    type Output = String;

    ghost use Rattle.std.specs.Prelude.{◌≡◌, ◌<◌, length, slice_index_or, string_bytes};

    ghost can_index = { λ h i. i < length h.entries };

    ghost index_gives = { λ h i x. string_bytes x ≡ slice_index_or h.entries i (string_bytes x) };

    fn index(&self, index: usize) -> &String {
        self.entries[index].text()
    }
}

impl<'a> IntoIterator for &'a MemHistory {
    type Item = &'a String;

    type IntoIter = HistoryIter<'a>;

    ghost use Rattle.std.specs.Prelude.{◌≡◌};
    ghost use Rattle.line_help.specs.History.{entries_left};

    ghost into_iter_gives = { λ h it. entries_left it ≡ h.now.entries };

    fn into_iter(self) -> HistoryIter<'a> {
        self.iter()
    }
}
