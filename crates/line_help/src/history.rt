//! The trait of histories.

pub(crate) mod entry;
pub(crate) mod escapes;
pub mod file_history;
pub(crate) mod found;
pub mod history_iter;
pub mod memory_history;
pub(crate) mod rows;
pub mod search;
pub(crate) mod space;

ghost use Rattle.std.specs.Prelude.{◌≡◌, ◌==◌, ℕ, List, [], length, not, IsTrue, IfOk, IfErr, OnOk, OnErr, option_map, string_bytes, true, false};
ghost use Rattle.line_config.specs.declared.errors.ReadlineError.TheVariants.{Memory};
ghost use Rattle.line_help.specs.History.{Settings, ignores_line, entries_after, newest};
ghost use Rattle.line_help.specs.Search.{Finds, hit_of, entry_at, search_hit};

use crate::history::search::{SearchDirection, SearchResult};
use line_config::ReadlineError;
use std::alloc::Global;

/// The accepted lines, oldest first.
pub trait History: Drop {
    // The entries, oldest first.
    ghost entries: { Self → List (List ℕ) };

    ghost settings: { Self → Settings };

    /// The entry at `index`. The direction matters only to a history without random access.
    fn get(&self, index: usize, dir: SearchDirection) -> Option<SearchResult<'_>>
        ensures { option_map hit_of result ≡ entry_at index (entries self.now) };

    /// Adds a line, and returns whether it did. A line is ignored if the history keeps no entries
    /// or the line is empty. By the settings it is also ignored if it begins with whitespace or
    /// equals the newest entry. If the history is full, its oldest entry is removed. Only a line
    /// that isn't ignored takes memory.
    fn add(&mut self, alloc: Global, line: &str) -> Result<bool, ReadlineError>
        ensures answer { IfOk result (λ b. b
            ≡ not (ignores_line (settings self.old) (entries self.old) line.now)) }
        ensures entries { OnOk result (entries self.new
            ≡ entries_after (settings self.old) (entries self.old) line.now) }
        ensures kept { OnErr result (entries self.new ≡ entries self.old) }
        ensures settings { settings self.new ≡ settings self.old }
        ensures fault { IfErr result (λ e. (e ≡ Memory)
            × IsTrue (not (ignores_line (settings self.old) (entries self.old) line.now))) };

    /// The same for an owned line, whose text isn't copied.
    fn add_owned(&mut self, alloc: Global, line: String) -> Result<bool, ReadlineError>
        ensures answer { IfOk result (λ b. b
            ≡ not (ignores_line (settings self.old) (entries self.old) (string_bytes line))) }
        ensures entries { OnOk result (entries self.new
            ≡ entries_after (settings self.old) (entries self.old) (string_bytes line)) }
        ensures kept { OnErr result (entries self.new ≡ entries self.old) }
        ensures settings { settings self.new ≡ settings self.old }
        ensures fault { IfErr result (λ e. (e ≡ Memory)
            × IsTrue (not (ignores_line (settings self.old) (entries self.old)
            (string_bytes line)))) };

    /// The number of entries.
    fn len(&self) -> usize
        ensures { result ≡ length (entries self.now) };

    /// Whether there are no entries.
    fn is_empty(&self) -> bool
        ensures { result ≡ (length (entries self.now) == 0) };

    /// Sets the most entries to keep. The newest ones stay.
    fn set_max_len(&mut self, len: usize)
        ensures entries { entries self.new ≡ newest len (entries self.old) }
        ensures settings { settings self.new ≡ record (settings self.old) { max_len = len } };

    /// Sets whether a line that equals the newest entry is ignored.
    fn ignore_dups(&mut self, yes: bool)
        ensures entries { entries self.new ≡ entries self.old }
        ensures settings { settings self.new ≡ record (settings self.old) { ignore_dups = yes } };

    /// Sets whether a line that begins with whitespace is ignored.
    fn ignore_space(&mut self, yes: bool)
        ensures entries { entries self.new ≡ entries self.old }
        ensures settings { settings self.new ≡ record (settings self.old) { ignore_space = yes } };

    /// Removes all entries.
    fn clear(&mut self)
        ensures entries { entries self.new ≡ [] }
        ensures settings { settings self.new ≡ settings self.old };

    /// The nearest entry that contains the term, from the entry at `start` on in the direction.
    /// `None` for an empty term, and if `start` is past the last entry.
    fn search(&self, term: &str, start: usize, dir: SearchDirection) -> Option<SearchResult<'_>>
        ensures { Finds (search_hit false term.now start dir) (entries self.now) result };

    /// The same for an entry that begins with the term.
    fn starts_with(
        &self,
        term: &str,
        start: usize,
        dir: SearchDirection,
    ) -> Option<SearchResult<'_>>
        ensures { Finds (search_hit true term.now start dir) (entries self.now) result };
}
