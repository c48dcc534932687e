//! The texts of recorded changes, one after the other.

use crate::edited_line::EditedLine;
use crate::entry::{Kind, LoggedChange, make_anew, take_back};
use crate::report::Report;
use line_buffer::OutOfMemory;
use std::alloc::Global;
use std::marker::Model;

/// The changes of a record, the oldest first, with all their texts in one string.
#[derive(Debug, Drop)]
pub struct TextLog {
    text: String,
    entries: Vec<LoggedChange>,
}

impl Model for TextLog {
    ghost use Rattle.std.specs.Prelude.{List, string_bytes};
    ghost use Rattle.line_record.specs.Change.{Change};

    ghost Value = { List Change };

    ghost use Rattle.line_record.specs.Log.{edits_in, IsLog};

    ghost view = { λ l. edits_in (string_bytes l.text) l.entries.items };

    ghost invariant = { λ l. IsLog (string_bytes l.text) l.entries.items };
}

impl TextLog {
    ghost use Rattle.std.specs.Prelude.{◌≡◌, ◌<◌, ◌≤◌, ◌++◌, [], ◌∷◌, length, take, slice_range, slice_index_or, IfOk, OnOk, OnErr, is_some, unwrap_or, option_copied};
    ghost use Rattle.line_record.specs.Change.{Change, AllStandIn, AllFitIn};
    ghost use Rattle.line_record.specs.Held.{text_inserted_by};
    ghost use Rattle.line_record.specs.Log.{edit_from, change_with_text, join_at, event_of};
    ghost use Rattle.line_record.specs.Items.{TakesBack, MakesAnew};

    pub fn new(alloc: Global) -> Self
        ensures { result ≡ [] }
    {
        TextLog {
            text: String::new(alloc),
            entries: Vec::new(alloc),
        }
    }

    /// A copy of the log, in memory of its own.
    pub fn try_clone(&self, alloc: Global) -> Result<Self, OutOfMemory>
        ensures { IfOk result (λ l. l ≡ self.now) }
    {
        let text = String::from_str(alloc, &self.text)?;
        let mut entries = Vec::with_capacity(alloc, self.entries.len())?;
        entries.extend_from_slice(&self.entries)?;
        Ok(TextLog { text, entries })
    }

    /// The number of changes.
    pub fn len(&self) -> usize
        ensures { result ≡ length self.now }
    {
        self.entries.len()
    }

    /// Keeps the first `n` changes.
    pub fn truncate(&mut self, n: usize)
        ensures { self.new ≡ take n self.old }
    {
        let end = place(&self.entries, n, self.text.len());
        self.text.truncate(end);
        self.entries.truncate(n);
    }

    /// Keeps the first `n` changes, and adds one more.
    pub fn record(
        &mut self,
        n: usize,
        kind: Kind,
        at: usize,
        removed: &str,
        added: &str,
    ) -> Result<(), OutOfMemory>
        ensures ok { OnOk result (self.new ≡ take n self.old
            ++ edit_from kind at removed.now added.now ∷ []) }
        ensures kept { OnErr result (self.new ≡ self.old) }
    {
        let Some(more) = removed.len().checked_add(added.len()) else {
            return Err(OutOfMemory);
        };
        self.text.reserve(more)?;
        self.entries.reserve(1)?;
        let start = place(&self.entries, n, self.text.len());
        self.text.truncate(start);
        self.entries.truncate(n);
        self.text.push_str(removed)?;
        let middle = self.text.len();
        self.text.push_str(added)?;
        let end = self.text.len();
        self.entries.push(LoggedChange {
            kind,
            at,
            start,
            middle,
            end,
        })?;
        Ok(())
    }

    /// Keeps the changes up to that of an index, and joins a reported change to that one. Returns
    /// false if it can't be joined.
    pub fn join(&mut self, index: usize, report: Report<'_>) -> Result<bool, OutOfMemory>
        requires { index < length self.old }
        ensures answer { IfOk result (λ joined. joined
            ≡ is_some (join_at (event_of report.entry) index self.old)) }
        ensures value { OnOk result (self.new
            ≡ unwrap_or (join_at (event_of report.entry) index self.old) self.old) }
        ensures kept { OnErr result (self.new ≡ self.old) }
    {
        let Some((at, before)) = self.entries[index].joined(report) else {
            return Ok(false);
        };
        let mut room = [0; 4];
        self.grow(index, at, before, report.removed(), report.added(&mut room))?;
        Ok(true)
    }

    /// Keeps the changes up to that of an index, and adds more text to that one: the old text
    /// before or after its own, the new text after its own.
    fn grow(
        &mut self,
        index: usize,
        at: usize,
        before: bool,
        removed: &str,
        added: &str,
    ) -> Result<(), OutOfMemory>
        requires { index < length self.old }
        ensures ok { OnOk result ((d : Change) → self.new ≡ take index self.old
            ++ change_with_text at before removed.now added.now (slice_index_or self.old index d)
            ∷ []) }
        ensures kept { OnErr result (self.new ≡ self.old) }
    {
        let last = self.entries[index];
        let Some(more) = removed.len().checked_add(added.len()) else {
            return Err(OutOfMemory);
        };
        self.text.reserve(more)?;
        self.text.truncate(last.end);
        self.entries.truncate(index);
        put_in(&mut self.text, last.seam(before), removed)?;
        self.text.push_str(added)?;
        let end = self.text.len();
        self.entries.push(LoggedChange {
            at,
            middle: last.middle + removed.len(),
            end,
            ..last
        })?;
        Ok(())
    }

    /// The text that a change inserted, or `None` if it is a deletion.
    pub fn inserted(&self, index: usize) -> Option<&str>
        requires { index < length self.now }
        ensures { (d : Change) → option_copied result
            ≡ text_inserted_by (slice_index_or self.now index d) }
    {
        self.entries[index].inserted(&self.text)
    }

    /// Undoes changes, the newest first. After an error some of them are undone, the newest ones.
    pub fn take_back<L: EditedLine>(
        &self,
        alloc: Global,
        first: usize,
        last: usize,
        line: &mut L,
    ) -> Result<(), OutOfMemory>
        requires order { first ≤ last }
        requires inside { last ≤ length self.now }
        requires stand { AllStandIn (slice_range self.now first last) (L.value line.old).text }
        ensures { TakesBack (slice_range self.now first last) (L.value line.old) (L.value line.new)
            result }
    {
        take_back(alloc, &self.text, &self.entries[first..last], line)
    }

    /// Redoes changes, the oldest first. After an error some of them are redone, the oldest ones.
    pub fn make_anew<L: EditedLine>(
        &self,
        alloc: Global,
        first: usize,
        last: usize,
        line: &mut L,
    ) -> Result<(), OutOfMemory>
        requires order { first ≤ last }
        requires inside { last ≤ length self.now }
        requires fit { AllFitIn (slice_range self.now first last) (L.value line.old).text }
        ensures { MakesAnew (slice_range self.now first last) (L.value line.old) (L.value line.new)
            result }
    {
        make_anew(alloc, &self.text, &self.entries[first..last], line)
    }
}

ghost use Rattle.std.specs.Prelude.{◌≡◌, ◌+◌, ◌<◌, ◌≤◌, length, slice_get, unwrap_or, option_map, string_bytes, OnOk, OnErr, IsCharBoundary};
ghost use Rattle.std.specs.String.{string_len, string_capacity};
ghost use Rattle.std.specs.List.{insert_slice};

/// Inserts a text at a place. An empty text moves no bytes.
fn put_in(text: &mut String, at: usize, added: &str) -> Result<(), OutOfMemory>
    requires { IsCharBoundary (string_bytes text.old) at }
    ensures bytes { OnOk result (string_bytes text.new
        ≡ insert_slice (string_bytes text.old) at added.now) }
    ensures len { OnOk result (string_len text.new ≡ string_len text.old + length added.now) }
    ensures capacity { string_capacity text.old ≤ string_capacity text.new }
    ensures full { OnErr result (string_capacity text.old
        < string_len text.old + length added.now) }
{
    if added.is_empty() {
        return Ok(());
    }
    text.insert_str(at, added)?;
    Ok(())
}

/// Where the entry of an index begins; the end of all entries if there is none.
fn place(entries: &[LoggedChange], n: usize, end: usize) -> usize
    ensures { result ≡ unwrap_or (option_map (λ x. x.start) (slice_get entries.now n)) end }
{
    match entries.get(n) {
        Some(entry) => entry.start,
        None => end,
    }
}
