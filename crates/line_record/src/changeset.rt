//! The undo record of a line.

use crate::report::Report;
use crate::steps::Steps;
use line_buffer::{Direction, OutOfMemory};
use std::alloc::Global;
use std::marker::Model;

/// The changes of a line, for undo and redo. Changes may be grouped: a group is undone as one. The
/// steps after the first `done` are undone, and `mark` is the index of the oldest open mark before
/// them.
#[derive(Debug, Drop)]
pub struct Changeset {
    pub(crate) steps: Steps,
    pub(crate) done: usize,
    pub(crate) mark: Option<usize>,
}

impl Model for Changeset {
    ghost use Rattle.line_record.specs.Items.{Items};

    ghost Value = { Items };

    ghost use Rattle.line_record.specs.Log.{record_of, IsRecord};

    ghost view = { λ c. record_of c.steps c.done };

    ghost invariant = { λ c. IsRecord c.steps c.done c.mark };
}

impl Changeset {
    ghost use Rattle.std.specs.Prelude.{◌≡◌, ◌-◌, ℕ, true, [], ◌∷◌, List, length, drop, is_some, IfOk, IsOkAnd, OnOk, OnErr, option_map, option_copied, string_bytes};
    ghost use Rattle.line_buffer.specs.Event.ChangeEvent.{InsertChar, InsertStr, Delete, Replace};
    ghost use Rattle.line_buffer.specs.declared.types.Direction.TheVariants.{Forward};
    ghost use Rattle.line_record.specs.Held.{record_after_close, closes, last_inserted, text_back};
    ghost use Rattle.line_record.specs.Items.{no_items, Open, items_after_event, ItemsStand, RecordsEventIn, record_refuses, record_on};
    ghost use Rattle.line_record.specs.Log.{event_of};

    /// An empty record. It allocates nothing yet and never fails. It returns a `Result` like
    /// rustyline's other constructors of the editor's parts, which may all run out of memory.
    pub fn new(alloc: Global) -> Result<Self, OutOfMemory>
        ensures { IsOkAnd result (λ c. c ≡ no_items) }
    {
        Ok(Changeset {
            steps: Steps::new(alloc),
            done: 0,
            mark: None,
        })
    }

    /// A copy of the record, in memory of its own.
    pub fn try_clone(&self, alloc: Global) -> Result<Self, OutOfMemory>
        ensures { IfOk result (λ c. c ≡ self.now) }
    {
        Ok(Changeset {
            steps: self.steps.try_clone(alloc)?,
            done: self.done,
            mark: self.mark,
        })
    }

    /// Sets the mark that begins a group. Returns the number of items before it: steps and open
    /// marks.
    pub fn begin(&mut self, alloc: Global) -> Result<usize, OutOfMemory>
        ensures answer { IfOk result (λ n. (text : List ℕ) → n ≡ length (record_on self.old text)) }
        ensures value { OnOk result
            (self.new ≡ record { done = Open ∷ self.old.done; undone = [] }) }
        ensures kept { OnErr result (self.new ≡ self.old) }
    {
        let before = self.done;
        self.steps.open(before)?;
        self.done = self.steps.len();
        self.mark = mark_with(self.mark, true, before);
        Ok(before)
    }

    /// Closes all open marks: the changes recorded since the oldest of them become one step.
    /// Returns whether there is such a step, and never fails.
    pub fn end(&mut self, alloc: Global) -> Result<bool, OutOfMemory>
        ensures answer { IsOkAnd result (λ closed. (text : List ℕ) → ItemsStand self.old text
            → closed ≡ closes (record_on self.old text)) }
        ensures held { (text : List ℕ) → ItemsStand self.old text → ItemsStand self.new text
            × (record_on self.new text ≡ record_after_close (record_on self.old text)) }
        ensures cleared { self.new.undone ≡ [] }
    {
        let closed = close(&mut self.steps, self.done, self.mark);
        self.done = self.steps.len();
        self.mark = None;
        Ok(closed)
    }

    /// Keeps the first `n` items: steps and open marks.
    pub fn truncate(&mut self, n: usize)
        ensures value { self.new
            ≡ record { done = drop (length self.old.done - n) self.old.done; undone = [] } }
        ensures held { (text : List ℕ) → let held = record_on self.old text in
            record_on self.new (text_back (length held - n) held text)
            ≡ drop (length held - n) held }
        ensures stand { (text : List ℕ) → ItemsStand self.old text →
            let held = record_on self.old text in
            ItemsStand self.new (text_back (length held - n) held text) }
    {
        let kept = n.min(self.done);
        self.steps.truncate(kept);
        self.done = kept;
        self.mark = mark_within(self.mark, kept);
    }

    /// A copy of the text that was inserted last; `None` if the last item is a mark or a deletion.
    pub fn last_insert(&self, alloc: Global) -> Result<Option<String>, OutOfMemory>
        ensures text { IfOk result (λ o. (text : List ℕ) → option_map string_bytes o
            ≡ last_inserted (record_on self.now text)) }
        ensures some { OnErr result ((text : List ℕ)
            → is_some (last_inserted (record_on self.now text)) ≡ true) }
    {
        let Some(text) = self.last_insert_text() else {
            return Ok(None);
        };
        Ok(Some(String::from_str(alloc, text)?))
    }

    /// `last_insert`, borrowed.
    pub fn last_insert_text(&self) -> Option<&str>
        ensures { (text : List ℕ) → option_copied result ≡ last_inserted (record_on self.now text) }
    {
        match self.done.checked_sub(1) {
            Some(last) => self.steps.inserted(last),
            None => None,
        }
    }

    /// Records the insertion of a character at `idx`.
    pub fn insert(&mut self, alloc: Global, idx: usize, c: char) -> Result<(), OutOfMemory>
        ensures ok { OnOk result (self.new ≡ items_after_event (InsertChar idx c) self.old) }
        ensures recorded { OnOk result (RecordsEventIn self.old (InsertChar idx c) self.new) }
        ensures refused { OnErr result (record_refuses self.old (InsertChar idx c) self.new) }
    {
        self.note(alloc, Report::Char { at: idx, c })
    }

    /// Records the insertion of a text at `idx`.
    pub fn insert_str(&mut self, alloc: Global, idx: usize, text: &str) -> Result<(), OutOfMemory>
        ensures ok { OnOk result (self.new ≡ items_after_event (InsertStr idx text.now) self.old) }
        ensures recorded { OnOk result (RecordsEventIn self.old (InsertStr idx text.now) self.new) }
        ensures refused { OnErr result (record_refuses self.old (InsertStr idx text.now) self.new) }
    {
        self.note(alloc, Report::Text { at: idx, text })
    }

    /// Records the deletion of a text at `idx`.
    pub fn delete(&mut self, alloc: Global, idx: usize, text: &str) -> Result<(), OutOfMemory>
        ensures ok { OnOk result
            (self.new ≡ items_after_event (Delete idx text.now Forward) self.old) }
        ensures recorded { OnOk result (RecordsEventIn self.old (Delete idx text.now Forward)
            self.new) }
        ensures refused { OnErr result (record_refuses self.old
            (Delete idx text.now Forward) self.new) }
    {
        let direction = Direction::Forward;
        self.note(
            alloc,
            Report::Deletion {
                at: idx,
                text,
                direction,
            },
        )
    }

    /// Records that `removed` was replaced by `added` at `idx`.
    pub fn replace(
        &mut self,
        alloc: Global,
        idx: usize,
        removed: &str,
        added: &str,
    ) -> Result<(), OutOfMemory>
        ensures ok { OnOk result
            (self.new ≡ items_after_event (Replace idx removed.now added.now) self.old) }
        ensures recorded { OnOk result (RecordsEventIn self.old (Replace idx removed.now added.now)
            self.new) }
        ensures refused { OnErr result (record_refuses self.old
            (Replace idx removed.now added.now) self.new) }
    {
        self.note(
            alloc,
            Report::Replacement {
                at: idx,
                removed,
                added,
            },
        )
    }

    /// Records a change, joined to the change before it if the two can be joined.
    pub(crate) fn note(&mut self, alloc: Global, report: Report<'_>) -> Result<(), OutOfMemory>
        ensures ok { OnOk result (self.new ≡ items_after_event (event_of report.entry) self.old) }
        ensures recorded { OnOk result (RecordsEventIn self.old (event_of report.entry) self.new) }
        ensures refused { OnErr result (record_refuses self.old (event_of report.entry) self.new) }
    {
        self.steps.note(self.done, report)?;
        self.done = self.steps.len();
        Ok(())
    }
}

ghost use Rattle.std.specs.Prelude.{◌≡◌, ℕ, List, take, reverse, None, Some, unwrap_or, if◌then◌else◌};
ghost use Rattle.line_record.specs.Items.{EndedBy};
ghost use Rattle.line_record.specs.Log as marked;

/// Closes the open marks of the first `done` steps; `mark` is the oldest of them. Returns false if
/// nothing was recorded since.
fn close(steps: &mut Steps, done: usize, mark: Option<usize>) -> bool
    requires { marked.IsRecord steps.old done mark }
    ensures ended { (text : List ℕ) → EndedBy result (reverse (take done steps.old))
        (reverse steps.new) text }
    ensures unmarked { marked.oldest_mark (reverse steps.new) ≡ None }
{
    match mark {
        Some(mark) => steps.close(done, mark),
        None => {
            steps.truncate(done);
            false
        }
    }
}

/// The oldest mark after one more item, which has `before` items before it.
pub(crate) fn mark_with(mark: Option<usize>, is_mark: bool, before: usize) -> Option<usize>
    ensures { result ≡ (if is_mark then Some (unwrap_or mark before) else mark) }
{
    if is_mark { mark.or(Some(before)) } else { mark }
}

/// The oldest mark, if it is among the first `n` items.
pub(crate) fn mark_within(mark: Option<usize>, n: usize) -> Option<usize>
    ensures { result ≡ marked.mark_within mark n }
{
    match mark {
        Some(mark) if mark < n => Some(mark),
        _ => None,
    }
}
