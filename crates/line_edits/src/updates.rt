//! Replaces the whole text, and undoes recorded changes.
ghost use Rattle.std.specs.Prelude.{IsCharBoundary};
ghost use Rattle.line_record.specs.Items.{ItemsStand};
ghost use Rattle.line_edits.specs.Edits.{update_steps, update_group, Undoes};
ghost use Rattle.line_edits.specs.WriteSteps.{Edits, Rewrites};

use crate::plain::is_plain;
use crate::recorded_line::RecordedLine;
use line_buffer::{LineBuffer, OutOfMemory, RepeatCount};
use line_record::Changeset;
use std::alloc::Global;

fn put(
    alloc: Global,
    line: &mut LineBuffer,
    changes: &mut Changeset,
    text: &str,
    pos: usize,
) -> Result<(), OutOfMemory>
    requires boundary { IsCharBoundary text.now pos }
    requires stand { ItemsStand changes.old line.old.text }
    ensures { Rewrites (update_steps text.now pos line.old)
        line.old line.new changes.old changes.new result }
{
    let _text = line.as_str();
    line.update(alloc, text, pos, changes)?;
    Ok(())
}

fn put_in_group(
    alloc: Global,
    line: &mut LineBuffer,
    changes: &mut Changeset,
    text: &str,
    pos: usize,
) -> Result<(), OutOfMemory>
    requires boundary { IsCharBoundary text.now pos }
    requires stand { ItemsStand changes.old line.old.text }
    ensures { Rewrites (update_group text.now pos line.old)
        line.old line.new changes.old changes.new result }
{
    changes.begin(alloc)?;
    put(alloc, line, changes, text, pos)?;
    changes.end(alloc)?;
    Ok(())
}

impl RecordedLine {
    /// Replaces the whole text, with the cursor at a place of the new one.
    pub fn update(&mut self, alloc: Global, text: &str, pos: usize) -> Result<(), OutOfMemory>
        requires boundary { IsCharBoundary text.now pos }
        ensures { Edits (update_steps text.now pos self.old.line) self.old self.new result }
    {
        let done = put(alloc, &mut self.line, &mut self.changes, text, pos);
        self.plain = is_plain(self.line.as_str());
        done
    }

    /// The same in one group.
    pub fn update_grouped(
        &mut self,
        alloc: Global,
        text: &str,
        pos: usize,
    ) -> Result<(), OutOfMemory>
        requires boundary { IsCharBoundary text.now pos }
        ensures { Edits (update_group text.now pos self.old.line) self.old self.new result }
    {
        let done = put_in_group(alloc, &mut self.line, &mut self.changes, text, pos);
        self.plain = is_plain(self.line.as_str());
        done
    }

    /// Undoes the last `n` recorded items, 0 acting as 1. Returns whether a change was among them.
    pub fn undo(&mut self, alloc: Global, n: RepeatCount) -> Result<bool, OutOfMemory>
        ensures { Undoes n self.old self.new result }
    {
        let undone = self.changes.undo(alloc, &mut self.line, n);
        self.plain = is_plain(self.line.as_str());
        undone
    }
}
