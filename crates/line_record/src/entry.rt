//! The changes of a record, with their texts in one log.

use crate::edited_line::EditedLine;
use crate::report::Report;
use crate::words::is_one_alphanumeric;
use line_buffer::{OutOfMemory, is_alphanumeric};
use std::alloc::Global;

/// What a change does.
#[derive(Clone, Copy, Debug)]
pub enum Kind {
    Insertion,
    Deletion,
    Replacement,
}

/// A change: its place in the line and its ranges of the log, all in bytes. The old text is from
/// `start` to `middle`, the new one from there to `end`.
#[derive(Clone, Copy, Debug)]
pub struct LoggedChange {
    pub kind: Kind,
    pub at: usize,
    pub start: usize,
    pub middle: usize,
    pub end: usize,
}

impl LoggedChange {
    ghost use Rattle.std.specs.Prelude.{◌≡◌, ◌≤◌, ◌-◌, ℕ, List, length, OnOk, OnErr, option_copied, option_map, if◌then◌else◌};
    ghost use Rattle.line_record.specs.Change.{old_text_of, new_text_of, StandsIn, FitsIn};
    ghost use Rattle.line_record.specs.Held.{join_of, text_inserted_by};
    ghost use Rattle.line_record.specs.Items.{line_after_undo, line_after_redo};
    ghost use Rattle.line_record.specs.Log.{edit_from, edit_in, Spelt, change_told, change_with_text, event_of};

    /// Where more of the old text is added: before it, or after it.
    pub fn seam(&self, before: bool) -> usize
        ensures { result ≡ (if before then self.now.start else self.now.middle) }
    {
        if before { self.start } else { self.middle }
    }

    fn removed<'a>(&self, log: &'a str) -> &'a str
        requires { Spelt log.now self.now }
        ensures { result.now ≡ old_text_of (edit_in log.now self.now) }
    {
        match self.kind {
            Kind::Insertion => "",
            Kind::Deletion | Kind::Replacement => &log[self.start..self.middle],
        }
    }

    fn added<'a>(&self, log: &'a str) -> &'a str
        requires { Spelt log.now self.now }
        ensures { result.now ≡ new_text_of (edit_in log.now self.now) }
    {
        match self.kind {
            Kind::Deletion => "",
            Kind::Insertion | Kind::Replacement => &log[self.middle..self.end],
        }
    }

    /// The text that this change inserted, or `None` if it is a deletion.
    pub fn inserted<'a>(&self, log: &'a str) -> Option<&'a str>
        requires { Spelt log.now self.now }
        ensures { option_copied result ≡ text_inserted_by (edit_in log.now self.now) }
    {
        match self.kind {
            Kind::Deletion => None,
            Kind::Insertion | Kind::Replacement => Some(self.added(log)),
        }
    }

    /// Undoes the change, with the cursor after the old text.
    fn take_back<L: EditedLine>(
        &self,
        alloc: Global,
        log: &str,
        line: &mut L,
    ) -> Result<(), OutOfMemory>
        requires spelt { Spelt log.now self.now }
        requires stands { StandsIn (edit_in log.now self.now) (L.value line.old).text }
        ensures line { OnOk result (L.value line.new ≡ line_after_undo (edit_in log.now self.now)
            (L.value line.old)) }
        ensures kept { OnErr result (L.value line.new ≡ L.value line.old) }
    {
        line.exchange(alloc, self.at, self.added(log), self.removed(log))
    }

    /// Redoes the change, with the cursor after the new text.
    fn make_anew<L: EditedLine>(
        &self,
        alloc: Global,
        log: &str,
        line: &mut L,
    ) -> Result<(), OutOfMemory>
        requires spelt { Spelt log.now self.now }
        requires fits { FitsIn (edit_in log.now self.now) (L.value line.old).text }
        ensures line { OnOk result (L.value line.new ≡ line_after_redo (edit_in log.now self.now)
            (L.value line.old)) }
        ensures kept { OnErr result (L.value line.new ≡ L.value line.old) }
    {
        line.exchange(alloc, self.at, self.removed(log), self.added(log))
    }

    /// Joins a reported change to this one, if it was the last before it. Returns the place of the
    /// two together, and whether the reported old text comes before this one's.
    pub fn joined(&self, report: Report<'_>) -> Option<(usize, bool)>
        requires { self.now.middle ≤ self.now.end }
        ensures { (removed added : List ℕ) → length added ≡ self.now.end - self.now.middle →
            join_of (event_of report.entry) (edit_from self.now.kind self.now.at removed added)
            ≡ option_map (λ j. change_with_text j.0 j.1
            (old_text_of (change_told (event_of report.entry)))
            (new_text_of (change_told (event_of report.entry)))
            (edit_from self.now.kind self.now.at removed added)) result }
    {
        let added = self.end - self.middle;
        match (self.kind, report) {
            (Kind::Insertion, Report::Char { at, c }) => {
                (is_alphanumeric(c) && follows(at, self.at, added)).then_some((self.at, false))
            }
            (Kind::Deletion, Report::Deletion { at, text, .. }) => {
                if !is_one_alphanumeric(text) {
                    None
                } else if at == self.at {
                    Some((at, false))
                } else if follows(self.at, at, text.len()) {
                    Some((at, true))
                } else {
                    None
                }
            }
            (Kind::Replacement, Report::Replacement { at, .. }) => {
                follows(at, self.at, added).then_some((self.at, false))
            }
            _ => None,
        }
    }
}

ghost use Rattle.std.specs.Prelude.{◌≡◌, ◌+◌, ◌==◌, All};
ghost use Rattle.line_record.specs.Change.{AllStandIn, AllFitIn};
ghost use Rattle.line_record.specs.Log.{edits_in, Spelt};
ghost use Rattle.line_record.specs.Items.{TakesBack, MakesAnew};

/// Whether a place is `length` bytes after another.
fn follows(place: usize, before: usize, length: usize) -> bool
    ensures { result ≡ (place == before + length) }
{
    before <= place && place - before == length
}

/// Undoes changes, the newest first. After an error some of them are undone, the newest ones.
pub(crate) fn take_back<L: EditedLine>(
    alloc: Global,
    log: &str,
    entries: &[LoggedChange],
    line: &mut L,
) -> Result<(), OutOfMemory>
    requires spelt { All (Spelt log.now) entries.now }
    requires stand { AllStandIn (edits_in log.now entries.now) (L.value line.old).text }
    ensures { TakesBack (edits_in log.now entries.now)
        (L.value line.old) (L.value line.new) result }
{
    let mut left = entries;
    while let Some((newest, earlier)) = left.split_last() {
        newest.take_back(alloc, log, line)?;
        left = earlier;
    }
    Ok(())
}

/// Redoes changes, the oldest first. After an error some of them are redone, the oldest ones.
pub(crate) fn make_anew<L: EditedLine>(
    alloc: Global,
    log: &str,
    entries: &[LoggedChange],
    line: &mut L,
) -> Result<(), OutOfMemory>
    requires spelt { All (Spelt log.now) entries.now }
    requires fit { AllFitIn (edits_in log.now entries.now) (L.value line.old).text }
    ensures { MakesAnew (edits_in log.now entries.now)
        (L.value line.old) (L.value line.new) result }
{
    for change in entries {
        change.make_anew(alloc, log, line)?;
    }
    Ok(())
}
