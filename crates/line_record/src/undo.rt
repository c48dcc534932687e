//! Undo and redo.

use crate::changeset::{Changeset, mark_with, mark_within};
use crate::edited_line::EditedLine;
use crate::gap_line::GapLine;
use line_buffer::{LineBuffer, OutOfMemory, RepeatCount};
use std::alloc::Global;

/// At most this many changes are made in the line itself. Each of them moves the text after it.
const FEW: usize = 8;

impl Changeset {
    ghost use Rattle.std.specs.Prelude.{◌≡◌, ◌<◌, false, max, length, take, drop, slice_get, option_map, IfOk, OnOk, OnErr};
    ghost use Rattle.std.specs.List.{list_any};
    ghost use Rattle.std.specs.Option.{option_map_or};
    ghost use Rattle.line_record.specs.Held.{line_back, is_step, has_step, ahead_back, line_ahead, record_ahead};
    ghost use Rattle.line_record.specs.Items.{no_items, undo_some, nearest_changes, is_step_item, CutUndo, AnewInPart, ItemsStand, DoneStand, UndoneFit, record_on, ahead_on, TakesBack, UndoesItems, RedoesItem, last_changes};

    /// Undoes the last `n` items: steps and open marks. 0 acts as 1. Returns whether a step was
    /// among them. The cursor goes to the place of their oldest change, after the text that was
    /// restored there. After an error some of the changes are undone, and the record is empty.
    pub fn undo(
        &mut self,
        alloc: Global,
        line: &mut LineBuffer,
        n: RepeatCount,
    ) -> Result<bool, OutOfMemory>
        requires { ItemsStand self.old line.old.text }
        ensures answer { IfOk result (λ b. b ≡ has_step (max n 1)
            (record_on self.old line.old.text)) }
        ensures line { OnOk result
            (line.new ≡ line_back (max n 1) (record_on self.old line.old.text)
            line.old) }
        ensures held { OnOk result (record_on self.new line.new.text ≡ drop (max n 1)
            (record_on self.old line.old.text)) }
        ensures ahead { OnOk result (ahead_on self.new line.new.text ≡ ahead_back (max n 1)
            (record_on self.old line.old.text) line.old.text (ahead_on self.old line.old.text)) }
        ensures stand { ItemsStand self.new line.new.text }
        ensures refused { OnErr result (self.new ≡ no_items) }
        ensures part { OnErr result (CutUndo (last_changes (max n 1) self.old.done) line.old
            line.new) }
    {
        // Its contract says that the text is UTF-8.
        let _text = line.as_str();
        match self.undo_last(alloc, line, n.max(1)) {
            Ok(undone) => Ok(undone),
            Err(refusal) => {
                self.forget();
                Err(refusal)
            }
        }
    }

    /// `undo_items` in the line itself, or in a line with a gap if there are many changes.
    fn undo_last(
        &mut self,
        alloc: Global,
        line: &mut LineBuffer,
        n: RepeatCount,
    ) -> Result<bool, OutOfMemory>
        requires { DoneStand self.old.done line.old.text }
        ensures { UndoesItems n self.old self.new line.old line.new result }
    {
        let first = self.done.saturating_sub(usize::from(n));
        let is_long = self.steps.change_count(first, self.done) > FEW;
        if is_long {
            self.undo_apart(alloc, line, n)
        } else {
            self.undo_items(alloc, line, n)
        }
    }

    /// `undo_items` in a line with a gap, so that many changes cost no more than the distances
    /// between them.
    fn undo_apart(
        &mut self,
        alloc: Global,
        line: &mut LineBuffer,
        n: RepeatCount,
    ) -> Result<bool, OutOfMemory>
        requires stand { DoneStand self.old.done line.old.text }
        requires some { 0 < length (last_changes n self.old.done) }
        ensures { UndoesItems n self.old self.new line.old line.new result }
    {
        let mut apart = GapLine::new(alloc, line)?;
        let undone = self.undo_items(alloc, &mut apart, n)?;
        apart.write(alloc, line)?;
        Ok(undone)
    }

    /// Undoes the last `n` items, and returns whether a step was among them.
    fn undo_items<L: EditedLine>(
        &mut self,
        alloc: Global,
        line: &mut L,
        n: RepeatCount,
    ) -> Result<bool, OutOfMemory>
        requires { DoneStand self.old.done (L.value line.old).text }
        ensures { UndoesItems n self.old self.new (L.value line.old) (L.value line.new) result }
    {
        let mut undone = false;
        for _ in 0..n {
            match self.undo_item(alloc, line)? {
                Some(is_step) => undone |= is_step,
                None => return Ok(undone),
            }
        }
        Ok(undone)
    }

    /// Undoes the last item, if there is one. Returns true if it is a step.
    fn undo_item<L: EditedLine>(
        &mut self,
        alloc: Global,
        line: &mut L,
    ) -> Result<Option<bool>, OutOfMemory>
        requires { DoneStand self.old.done (L.value line.old).text }
        ensures answer { IfOk result (λ o. o ≡ option_map is_step_item
            (slice_get self.old.done 0)) }
        ensures items { OnOk result (self.new ≡ undo_some 1 self.old.done self.old.undone) }
        ensures back { TakesBack (nearest_changes self.old.done) (L.value line.old)
            (L.value line.new) result }
    {
        let Some(last) = self.done.checked_sub(1) else {
            return Ok(None);
        };
        let is_mark = self.steps.is_mark(last);
        self.steps.take_back(alloc, last, line)?;
        self.done = last;
        self.mark = mark_within(self.mark, last);
        Ok(Some(!is_mark))
    }

    /// Redoes the item that was undone last, if there is one. Returns true if it is a step. The
    /// cursor goes after the text that its newest change inserts. After an error some of the
    /// changes are redone, and the record is empty.
    pub fn redo(&mut self, alloc: Global, line: &mut LineBuffer) -> Result<bool, OutOfMemory>
        requires { ItemsStand self.old line.old.text }
        ensures answer { IfOk result (λ b. b ≡ option_map_or (λ u. is_step u.held)
            (slice_get (ahead_on self.old line.old.text) 0) false) }
        ensures line { OnOk result (line.new ≡ line_ahead (ahead_on self.old line.old.text)
            line.old) }
        ensures held { OnOk result (record_on self.new line.new.text ≡ record_ahead
            (ahead_on self.old line.old.text) (record_on self.old line.old.text)) }
        ensures ahead { OnOk result (ahead_on self.new line.new.text ≡ drop 1
            (ahead_on self.old line.old.text)) }
        ensures stand { ItemsStand self.new line.new.text }
        ensures refused { OnErr result (self.new ≡ no_items) }
        ensures part { OnErr result (AnewInPart (nearest_changes self.old.undone) line.old
            line.new) }
    {
        // Its contract says that the text is UTF-8.
        let _text = line.as_str();
        match self.redo_next(alloc, line) {
            Ok(redone) => Ok(redone.unwrap_or(false)),
            Err(refusal) => {
                self.forget();
                Err(refusal)
            }
        }
    }

    /// `redo_item` in the line itself, or in a line with a gap if there are many changes.
    fn redo_next(
        &mut self,
        alloc: Global,
        line: &mut LineBuffer,
    ) -> Result<Option<bool>, OutOfMemory>
        requires { UndoneFit self.old.undone line.old.text }
        ensures { RedoesItem self.old self.new line.old line.new result }
    {
        let is_long = self
            .steps
            .change_count(self.done, self.done.saturating_add(1))
            > FEW;
        if is_long {
            self.redo_apart(alloc, line)
        } else {
            self.redo_item(alloc, line)
        }
    }

    /// `redo_item` in a line with a gap.
    fn redo_apart(
        &mut self,
        alloc: Global,
        line: &mut LineBuffer,
    ) -> Result<Option<bool>, OutOfMemory>
        requires fit { UndoneFit self.old.undone line.old.text }
        requires some { 0 < length (nearest_changes self.old.undone) }
        ensures { RedoesItem self.old self.new line.old line.new result }
    {
        let mut apart = GapLine::new(alloc, line)?;
        let redone = self.redo_item(alloc, &mut apart)?;
        apart.write(alloc, line)?;
        Ok(redone)
    }

    /// Redoes the nearest undone item, if there is one. Returns true if it is a step.
    fn redo_item<L: EditedLine>(
        &mut self,
        alloc: Global,
        line: &mut L,
    ) -> Result<Option<bool>, OutOfMemory>
        requires { UndoneFit self.old.undone (L.value line.old).text }
        ensures { RedoesItem self.old self.new (L.value line.old) (L.value line.new) result }
    {
        let next = self.done;
        if next == self.steps.len() {
            return Ok(None);
        }
        let is_mark = self.steps.is_mark(next);
        self.steps.make_anew(alloc, next, line)?;
        self.done = next + 1;
        self.mark = mark_with(self.mark, is_mark, next);
        Ok(Some(!is_mark))
    }

    /// Empties the record.
    fn forget(&mut self)
        ensures { self.new ≡ no_items }
    {
        self.steps.truncate(0);
        self.done = 0;
        self.mark = None;
    }
}
