//! A history that can be loaded and saved.

use crate::history::History;
use crate::history::escapes::{pass_on, put, unescaped_entry, write_row};
use crate::history::history_iter::HistoryIter;
use crate::history::memory_history::MemHistory;
use crate::history::rows::{RowReader, row_end, row_len};
use crate::history::search::{SearchDirection, SearchResult};
use line_config::{Config, ReadlineError, Sink, Source};
use std::alloc::Global;
use std::marker::Model;
use std::ops::Index;

/// A history that can be loaded from a source and saved to a sink. It counts the entries added
/// since it was last loaded, saved, appended or cleared.
///
/// Its text has a first row `#V2`, and then a row for each entry. In the rows a newline is written
/// as `\n` and a backslash as two. A text without that first row can be loaded too: its rows have
/// no escapes.
#[derive(Debug, Drop)]
pub struct FileHistory {
    memory: MemHistory,
    unsaved: usize,
}

/// The history of a program that doesn't choose another one.
pub type DefaultHistory = FileHistory;

impl Model for FileHistory {
    ghost use Rattle.std.specs.Prelude.{◌≤◌, length};
    ghost use Rattle.line_help.specs.History.{Filed};

    ghost Value = { Filed };

    ghost view = { λ h. record { kept = h.memory; unsaved = h.unsaved } };

    ghost invariant = { λ h. h.unsaved ≤ length h.memory.entries };
}

impl FileHistory {
    ghost use Rattle.std.specs.Prelude.{◌≡◌};
    ghost use Rattle.line_config.specs.Config.{default_config};
    ghost use Rattle.line_help.specs.History.{settings_of, nothing_filed, entries_left, takes};

    /// A history with the default settings.
    pub fn new(alloc: Global) -> Self
        ensures { result ≡ nothing_filed (settings_of default_config) }
    {
        Self::with_config(alloc, &Config::default())
    }

    /// A history with a configuration's settings: how many entries are kept, and which lines are
    /// ignored.
    pub fn with_config(alloc: Global, config: &Config) -> Self
        ensures { result ≡ nothing_filed (settings_of config.now) }
    {
        FileHistory {
            memory: MemHistory::with_config(alloc, config),
            unsaved: 0,
        }
    }

    /// The entries, oldest first.
    pub fn iter(&self) -> HistoryIter<'_>
        ensures { entries_left result ≡ self.now.kept.entries }
    {
        self.memory.iter()
    }

    /// Whether a line would be added, as `History::add` says.
    pub fn takes(&self, line: &str) -> bool
        ensures { result ≡ takes self.now line.now }
    {
        !self.memory.ignores(line)
    }
}

// Saving.
impl FileHistory {
    ghost use Rattle.std.specs.Prelude.{◌≡◌, ◌<◌, [], OnOk, drop};
    ghost use Rattle.line_help.specs.HistoryText.{rows_text, text_to_save, text_to_append, SavesNew, SendsText};
    ghost use Rattle.line_help.specs.History.{newest};

    /// Writes the rows of the entries from the first one on, and passes them on.
    fn write_rows<S: Sink>(&self, sink: &mut S, first: usize) -> Result<(), ReadlineError>
        ensures sends { SendsText S.held S.has_failed
            (rows_text (drop first self.now.kept.entries)) sink.old sink.new result }
        ensures passes { OnOk result (S.waits sink.new ≡ []) }
    {
        for index in first..self.memory.len() {
            write_row(sink, self.memory[index].as_str())?;
        }
        pass_on(sink)
    }

    /// Writes the row of the newest entry, if there is one, and passes it on. It continues a text
    /// that was saved before. Which entries are new stays as it was.
    pub fn write_newest<S: Sink>(&self, sink: &mut S) -> Result<(), ReadlineError>
        ensures sends { SendsText S.held S.has_failed
            (rows_text (newest 1 self.now.kept.entries)) sink.old sink.new result }
        ensures passes { OnOk result (S.waits sink.new ≡ []) }
    {
        self.write_rows(sink, self.memory.len().saturating_sub(1))
    }

    /// Writes the whole text of the history if an entry is new, and passes it on. Then no entry is
    /// new. If the sink fails, the history stays as it is, and the sink has taken a prefix of the
    /// text.
    pub fn save_to<S: Sink>(&mut self, sink: &mut S) -> Result<(), ReadlineError>
        ensures saves { SavesNew S.held S.has_failed (text_to_save self.old) self.old self.new
            sink.old sink.new result }
        ensures passes { 0 < self.old.unsaved → OnOk result (S.waits sink.new ≡ []) }
    {
        if self.unsaved == 0 {
            return Ok(());
        }
        put(sink, b"#V2\n")?;
        self.write_rows(sink, 0)?;
        self.unsaved = 0;
        Ok(())
    }

    /// Writes the rows of the new entries, if there are any, and passes them on. They continue a
    /// text that was saved before. Then no entry is new. If the sink fails, the history stays as it
    /// is, and the sink has taken a prefix of the rows.
    pub fn append_to<S: Sink>(&mut self, sink: &mut S) -> Result<(), ReadlineError>
        ensures saves { SavesNew S.held S.has_failed (text_to_append self.old) self.old self.new
            sink.old sink.new result }
        ensures passes { 0 < self.old.unsaved → OnOk result (S.waits sink.new ≡ []) }
    {
        let count = self.unsaved;
        if count == 0 {
            return Ok(());
        }
        self.write_rows(sink, self.memory.len() - count)?;
        self.unsaved = 0;
        Ok(())
    }
}

impl History for FileHistory {
    ghost use Rattle.std.specs.Prelude.{◌≡◌, string_bytes, IsTrue, IfOk, IfErr, [], true, false};
    ghost use Rattle.line_config.specs.declared.errors.ReadlineError.TheVariants.{Memory};
    ghost use Rattle.line_help.specs.History.{Grows, takes, history_with_line, history_with_max_len, nothing_filed};

    ghost entries = { λ h. h.kept.entries };

    ghost settings = { λ h. h.kept.settings };

    fn get(&self, index: usize, dir: SearchDirection) -> Option<SearchResult<'_>> {
        self.memory.get(index, dir)
    }

    fn add(&mut self, alloc: Global, line: &str) -> Result<bool, ReadlineError>
        ensures answer { IfOk result (λ b. b ≡ takes self.old line.now) }
        ensures grows { Grows self.old (history_with_line self.old line.now) self.new result }
        ensures fault { IfErr result (λ e. (e ≡ Memory) × IsTrue (takes self.old line.now)) }
    {
        let added = self.memory.add(alloc, line)?;
        if added {
            self.unsaved = self.unsaved.saturating_add(1).min(self.memory.len());
        }
        Ok(added)
    }

    fn add_owned(&mut self, alloc: Global, line: String) -> Result<bool, ReadlineError>
        ensures answer { IfOk result (λ b. b ≡ takes self.old (string_bytes line)) }
        ensures grows { Grows self.old
            (history_with_line self.old (string_bytes line)) self.new result }
        ensures fault { IfErr result (λ e. (e ≡ Memory)
            × IsTrue (takes self.old (string_bytes line))) }
    {
        let added = self.memory.add_owned(alloc, line)?;
        if added {
            self.unsaved = self.unsaved.saturating_add(1).min(self.memory.len());
        }
        Ok(added)
    }

    fn len(&self) -> usize {
        self.memory.len()
    }

    fn is_empty(&self) -> bool {
        self.memory.is_empty()
    }

    fn set_max_len(&mut self, len: usize)
        ensures { self.new ≡ history_with_max_len len self.old }
    {
        self.memory.set_max_len(len);
        self.unsaved = self.unsaved.min(len);
    }

    fn ignore_dups(&mut self, yes: bool)
        ensures { self.new ≡ record self.old {
          kept = record self.old.kept
              { settings = record self.old.kept.settings { ignore_dups = yes } };
        } }
    {
        self.memory.ignore_dups(yes);
    }

    fn ignore_space(&mut self, yes: bool)
        ensures { self.new ≡ record self.old {
          kept = record self.old.kept
              { settings = record self.old.kept.settings { ignore_space = yes } };
        } }
    {
        self.memory.ignore_space(yes);
    }

    fn clear(&mut self)
        ensures { self.new ≡ nothing_filed self.old.kept.settings }
    {
        self.memory.clear();
        self.unsaved = 0;
    }

    fn search(&self, term: &str, start: usize, dir: SearchDirection) -> Option<SearchResult<'_>> {
        self.memory.search(term, start, dir)
    }

    fn starts_with(
        &self,
        term: &str,
        start: usize,
        dir: SearchDirection,
    ) -> Option<SearchResult<'_>> {
        self.memory.starts_with(term, start, dir)
    }
}

/// The entry at an index, which must be less than the number of entries.
impl Index<usize> for FileHistory {
    type Output = String;

    ghost use Rattle.std.specs.Prelude.{◌≡◌, ◌<◌, length, slice_index_or, string_bytes};

    ghost can_index = { λ h i. i < length h.kept.entries };

    ghost index_gives = { λ h i x. string_bytes x
        ≡ slice_index_or h.kept.entries i (string_bytes x) };

    fn index(&self, index: usize) -> &String {
        &self.memory[index]
    }
}

impl<'a> IntoIterator for &'a FileHistory {
    type Item = &'a String;

    type IntoIter = HistoryIter<'a>;

    ghost use Rattle.std.specs.Prelude.{◌≡◌};
    ghost use Rattle.line_help.specs.History.{entries_left};

    ghost into_iter_gives = { λ h it. entries_left it ≡ h.now.kept.entries };

    fn into_iter(self) -> HistoryIter<'a> {
        self.iter()
    }
}

// Loading.
impl FileHistory {
    ghost use Rattle.std.specs.Prelude.{◌≡◌, ◌∷◌, [], false, bytes_eq};
    ghost use Rattle.line_help.specs.History.{history_with_lines, takes_all};
    ghost use Rattle.line_help.specs.HistoryText.{entries_of, header, texts_of, AddsRow, EndIsMet, Loads, LoadsRows};

    /// Adds the entry of a row, and returns whether it isn't ignored. An empty row has no entry.
    fn add_row(&mut self, alloc: Global, row: &[u8], escapes: bool) -> Result<bool, ReadlineError>
        ensures { let entries = entries_of escapes (row.now ∷ []) in
            AddsRow row.now (takes_all self.old entries) (history_with_lines self.old entries)
            self.old self.new result }
    {
        if row.is_empty() {
            return Ok(true);
        }
        let Ok(text) = str::from_utf8(row) else {
            return Err(ReadlineError::HistoryText);
        };
        match unescaped_entry(alloc, text, escapes)? {
            Some(entry) => self.add_owned(alloc, entry),
            None => self.add(alloc, text),
        }
    }

    /// Adds the first row: the header, or a row without escapes. Returns whether it is the header.
    fn add_first(&mut self, alloc: Global, row: &[u8]) -> Result<bool, ReadlineError>
        ensures { AddsRow row.now (bytes_eq row.now header)
            (history_with_lines self.old (texts_of (row.now ∷ []))) self.old self.new result }
    {
        if row == b"#V2".as_slice() {
            return Ok(true);
        }
        self.add_row(alloc, row, false)?;
        Ok(false)
    }

    /// Adds the entries of all remaining rows. A row that is whole in the source's buffer is
    /// borrowed from it.
    fn load_rows<S: Source>(
        &mut self,
        alloc: Global,
        source: &mut S,
        rows: &mut RowReader,
        escapes: bool,
    ) -> Result<bool, ReadlineError>
        requires ended { EndIsMet rows.old.ended (S.feed source.old) }
        requires works { (S.feed source.old).failed ≡ false }
        ensures { LoadsRows escapes (S.feed source.old) (S.feed source.new)
            self.old self.new result }
    {
        let mut whole = true;
        loop {
            let ready = source.buffer();
            let count = row_len(ready);
            if count < ready.len() {
                let row = &ready[..count];
                let lent = self.add_row(alloc, &row[..row_end(row)], escapes);
                source.consume(count + 1);
                let taken = lent?;
                whole &= taken;
                continue;
            }
            if !rows.read(source)? {
                return Ok(whole);
            }
            let added = self.add_row(alloc, &rows.row, escapes)?;
            whole &= added;
        }
    }

    /// Adds the entries of a text, in order. Returns whether the text began with the first row of a
    /// saved one and none of its rows was ignored. Then no entry is new. Nothing is read past the
    /// text's end.
    ///
    /// It goes row by row. It stops if the source fails (`Reader`), a row isn't UTF-8
    /// (`HistoryText`) or an allocation fails (`Memory`). The rows before stay, and their entries
    /// are new. The row at which it stopped is consumed; the rows after it remain in the source.
    #[tactic(auto, using(crate::proofs::LoadLemmas::load_steps))]
    pub fn load_from<S: Source>(
        &mut self,
        alloc: Global,
        source: &mut S,
    ) -> Result<bool, ReadlineError>
        ensures { Loads (S.feed source.old) (S.feed source.new) self.old self.new result }
    {
        let mut rows = RowReader::new(alloc);
        if !rows.read(source)? {
            self.unsaved = 0;
            return Ok(false);
        }
        let escapes = self.add_first(alloc, &rows.row)?;
        let whole = self.load_rows(alloc, source, &mut rows, escapes)?;
        self.unsaved = 0;
        Ok(escapes && whole)
    }
}
