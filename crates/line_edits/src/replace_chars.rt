//! Replaces clusters by characters.
ghost use Rattle.std.specs.Prelude.{◌≡◌, ◌≤◌, IsCharBoundary, OnErr};
ghost use Rattle.line_record.specs.Items.{ItemsStand};
ghost use Rattle.line_edits.specs.Edits.{delete_steps, clusters_after, exchange_steps, replace_group, replace_group_if_any, cover_steps, overwrite_steps};
ghost use Rattle.line_edits.specs.WriteSteps.{Edits, Rewrites};

use crate::inserting::insert_told;
use crate::plain::{is_plain, is_plain_char};
use crate::recorded_line::RecordedLine;
use line_buffer::{LineBuffer, OutOfMemory, RepeatCount, clusters_up_to};
use line_record::Changeset;
use std::alloc::Global;

/// How many of `n` clusters are after the cursor.
fn clusters_after(line: &LineBuffer, n: RepeatCount) -> RepeatCount
    ensures value { result ≡ clusters_after n line.now }
{
    clusters_up_to(&line.as_str()[line.pos()..], usize::from(n)) as RepeatCount
}

fn delete_told(
    alloc: Global,
    line: &mut LineBuffer,
    changes: &mut Changeset,
    n: RepeatCount,
) -> Result<(), OutOfMemory>
    requires { ItemsStand changes.old line.old.text }
    ensures { Rewrites (delete_steps n line.old) line.old line.new changes.old changes.new result }
{
    let _text = line.as_str();
    line.delete(alloc, n, changes)?;
    Ok(())
}

fn exchange(
    alloc: Global,
    line: &mut LineBuffer,
    changes: &mut Changeset,
    ch: char,
    n: RepeatCount,
) -> Result<(), OutOfMemory>
    requires { ItemsStand changes.old line.old.text }
    ensures { Rewrites (exchange_steps ch n (clusters_after n line.old) line.old)
        line.old line.new changes.old changes.new result }
{
    let count = clusters_after(line, n);
    delete_told(alloc, line, changes, n)?;
    insert_told(alloc, line, changes, ch, count)?;
    line.move_backward(1);
    Ok(())
}

fn exchange_in_group(
    alloc: Global,
    line: &mut LineBuffer,
    changes: &mut Changeset,
    ch: char,
    n: RepeatCount,
) -> Result<(), OutOfMemory>
    requires { ItemsStand changes.old line.old.text }
    ensures { Rewrites (replace_group ch n line.old) line.old line.new changes.old changes.new
        result }
{
    changes.begin(alloc)?;
    exchange(alloc, line, changes, ch, n)?;
    changes.end(alloc)?;
    Ok(())
}

fn put_over(
    alloc: Global,
    line: &mut LineBuffer,
    changes: &mut Changeset,
    ch: char,
    end: usize,
) -> Result<(), OutOfMemory>
    requires order { line.old.place ≤ end }
    requires boundary { IsCharBoundary line.old.text end }
    requires stand { ItemsStand changes.old line.old.text }
    ensures rewrites { Rewrites (cover_steps ch end line.old)
        line.old line.new changes.old changes.new result }
    ensures kept { OnErr result (line.new ≡ line.old) }
{
    let _text = line.as_str();
    let at = line.pos();
    let mut bytes = [0; 4];
    line.replace(alloc, at..end, ch.encode_utf8(&mut bytes), changes)?;
    Ok(())
}

impl RecordedLine {
    /// Replaces up to `n` clusters after the cursor by a character each, in one group, with the
    /// cursor on the last one. Returns false, and does nothing, if there is none.
    pub fn replace_chars(
        &mut self,
        alloc: Global,
        ch: char,
        n: RepeatCount,
    ) -> Result<bool, OutOfMemory>
        ensures { Edits (replace_group_if_any ch n self.old.line) self.old self.new result }
    {
        if self.line.next_pos(n).is_none() {
            return Ok(false);
        }
        let done = exchange_in_group(alloc, &mut self.line, &mut self.changes, ch, n);
        self.plain = is_plain(self.line.as_str());
        done?;
        Ok(true)
    }

    /// Overwrites the cluster at the cursor with a character. Returns false, and does nothing, if
    /// there is none.
    pub fn overwrite(&mut self, alloc: Global, ch: char) -> Result<bool, OutOfMemory>
        ensures { Edits (overwrite_steps ch self.old.line) self.old self.new result }
    {
        let Some(end) = self.line.next_pos(1) else {
            return Ok(false);
        };
        let plain = is_plain_char(ch) && self.is_plain_without(self.line.pos(), end);
        put_over(alloc, &mut self.line, &mut self.changes, ch, end)?;
        self.plain = plain;
        Ok(true)
    }
}
