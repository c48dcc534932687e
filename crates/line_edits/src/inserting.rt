//! Insertions.
#![tactic(auto, using(crate::proofs::PlainLemmas::typed_is, crate::proofs::PlainLemmas::inserted_is, crate::proofs::PlainLemmas::yanked_is))]

ghost use Rattle.std.specs.Prelude.{◌≡◌, ◌≤◌, ◌-◌, true, is_some, OnErr, IsCharBoundary};
ghost use Rattle.line_buffer.specs.Insertions.{insert as insertion, yank as yanked_in, yank_pop};
ghost use Rattle.line_record.specs.Items.{ItemsStand};
ghost use Rattle.line_edits.specs.Edits.{char_steps, yank_steps, text_steps, pop_group};
ghost use Rattle.line_edits.specs.WriteSteps.{Edits, Rewrites, steps_of_edit, with_answer};

use crate::plain::{is_plain, is_plain_char};
use crate::recorded_line::RecordedLine;
use line_buffer::{LineBuffer, OutOfMemory, RepeatCount};
use line_record::Changeset;
use std::alloc::Global;

pub(crate) fn insert_told(
    alloc: Global,
    line: &mut LineBuffer,
    changes: &mut Changeset,
    ch: char,
    n: RepeatCount,
) -> Result<Option<bool>, OutOfMemory>
    requires { ItemsStand changes.old line.old.text }
    ensures rewrites { Rewrites (char_steps ch n line.old)
        line.old line.new changes.old changes.new result }
    ensures kept { OnErr result (line.new ≡ line.old) }
    ensures refused { OnErr result (is_some (insertion ch n line.old).answer ≡ true) }
{
    let _text = line.as_str();
    Ok(line.insert(alloc, ch, n, changes)?)
}

fn text_told(
    alloc: Global,
    line: &mut LineBuffer,
    changes: &mut Changeset,
    text: &str,
) -> Result<(), OutOfMemory>
    requires { ItemsStand changes.old line.old.text }
    ensures rewrites { Rewrites (text_steps text.now line.old)
        line.old line.new changes.old changes.new result }
    ensures kept { OnErr result (line.new ≡ line.old) }
{
    let _text = line.as_str();
    let at = line.pos();
    line.insert_str(alloc, at, text, changes)?;
    Ok(())
}

fn yank_told(
    alloc: Global,
    line: &mut LineBuffer,
    changes: &mut Changeset,
    text: &str,
    n: RepeatCount,
) -> Result<Option<bool>, OutOfMemory>
    requires { ItemsStand changes.old line.old.text }
    ensures rewrites { Rewrites (yank_steps text.now n line.old)
        line.old line.new changes.old changes.new result }
    ensures kept { OnErr result (line.new ≡ line.old) }
    ensures refused { OnErr result (is_some (yanked_in text.now n line.old).answer ≡ true) }
{
    let _text = line.as_str();
    Ok(line.yank(alloc, text, n, changes)?)
}

fn pop_told(
    alloc: Global,
    line: &mut LineBuffer,
    changes: &mut Changeset,
    yank_size: usize,
    text: &str,
) -> Result<(), OutOfMemory>
    requires size { yank_size ≤ line.old.place }
    requires start { IsCharBoundary line.old.text (line.old.place - yank_size) }
    requires stand { ItemsStand changes.old line.old.text }
    ensures { Rewrites (with_answer tt (steps_of_edit (yank_pop yank_size text.now line.old)))
        line.old line.new changes.old changes.new result }
{
    let _text = line.as_str();
    line.yank_pop(alloc, yank_size, text, changes)?;
    Ok(())
}

fn pop_told_in_group(
    alloc: Global,
    line: &mut LineBuffer,
    changes: &mut Changeset,
    yank_size: usize,
    text: &str,
) -> Result<(), OutOfMemory>
    requires size { yank_size ≤ line.old.place }
    requires start { IsCharBoundary line.old.text (line.old.place - yank_size) }
    requires stand { ItemsStand changes.old line.old.text }
    ensures { Rewrites (pop_group yank_size text.now line.old)
        line.old line.new changes.old changes.new result }
{
    changes.begin(alloc)?;
    pop_told(alloc, line, changes, yank_size, text)?;
    changes.end(alloc)?;
    Ok(())
}

impl RecordedLine {
    /// Inserts a character `n` times. Returns whether that is at the text's end, or `None` if it
    /// doesn't fit.
    pub fn insert_char(
        &mut self,
        alloc: Global,
        ch: char,
        n: RepeatCount,
    ) -> Result<Option<bool>, OutOfMemory>
        ensures writes { Edits (char_steps ch n self.old.line) self.old self.new result }
        ensures refused { OnErr result (is_some (insertion ch n self.old.line).answer ≡ true) }
    {
        let at_end = insert_told(alloc, &mut self.line, &mut self.changes, ch, n)?;
        if self.plain && !is_plain_char(ch) {
            self.plain = at_end.is_none() || n == 0;
        }
        Ok(at_end)
    }

    /// Inserts a text at the cursor, which stays before it.
    pub fn insert_text(&mut self, alloc: Global, text: &str) -> Result<(), OutOfMemory>
        ensures { Edits (text_steps text.now self.old.line) self.old self.new result }
    {
        text_told(alloc, &mut self.line, &mut self.changes, text)?;
        self.plain = self.plain && is_plain(text);
        Ok(())
    }

    /// Inserts a text `n` times. Returns whether that is at the text's end, or `None` if the text
    /// is empty or doesn't fit.
    pub fn yank(
        &mut self,
        alloc: Global,
        text: &str,
        n: RepeatCount,
    ) -> Result<Option<bool>, OutOfMemory>
        ensures writes { Edits (yank_steps text.now n self.old.line) self.old self.new result }
        ensures refused { OnErr result
            (is_some (yanked_in text.now n self.old.line).answer ≡ true) }
    {
        let put = yank_told(alloc, &mut self.line, &mut self.changes, text, n)?;
        if self.plain && !is_plain(text) {
            self.plain = put.is_none() || n == 0;
        }
        Ok(put)
    }

    /// Replaces the `yank_size` bytes before the cursor by a text, in one group. They must begin at
    /// a character boundary.
    pub fn yank_pop(
        &mut self,
        alloc: Global,
        yank_size: usize,
        text: &str,
    ) -> Result<(), OutOfMemory>
        requires size { yank_size ≤ self.old.line.place }
        requires start { IsCharBoundary self.old.line.text (self.old.line.place - yank_size) }
        ensures { Edits (pop_group yank_size text.now self.old.line)
            self.old self.new result }
    {
        let done = pop_told_in_group(alloc, &mut self.line, &mut self.changes, yank_size, text);
        self.plain = is_plain(self.line.as_str());
        done
    }
}
