//! Transposes clusters and words, changes the case of words, indents rows.

ghost use Rattle.line_buffer.specs.LetterCase.{edit_word};
ghost use Rattle.line_buffer.specs.Transpositions.{transpose_chars};
ghost use Rattle.line_record.specs.Items.{ItemsStand};
ghost use Rattle.line_edits.specs.Edits.{transpose_chars_group, transpose_words_steps, transpose_words_group, word_group, indent_steps};
ghost use Rattle.line_edits.specs.WriteSteps.{Edits, Rewrites, steps_of_edit};

use crate::plain::is_plain;
use crate::recorded_line::RecordedLine;
use line_buffer::{LineBuffer, Movement, OutOfMemory, RepeatCount, WordAction};
use line_record::Changeset;
use std::alloc::Global;

fn chars_told(
    alloc: Global,
    line: &mut LineBuffer,
    changes: &mut Changeset,
) -> Result<bool, OutOfMemory>
    requires { ItemsStand changes.old line.old.text }
    ensures { Rewrites (steps_of_edit (transpose_chars line.old))
        line.old line.new changes.old changes.new result }
{
    let _text = line.as_str();
    Ok(line.transpose_chars(alloc, changes)?)
}

fn chars_in_group(
    alloc: Global,
    line: &mut LineBuffer,
    changes: &mut Changeset,
) -> Result<bool, OutOfMemory>
    requires { ItemsStand changes.old line.old.text }
    ensures { Rewrites (transpose_chars_group line.old)
        line.old line.new changes.old changes.new result }
{
    changes.begin(alloc)?;
    let done = chars_told(alloc, line, changes)?;
    changes.end(alloc)?;
    Ok(done)
}

fn words_told(
    alloc: Global,
    line: &mut LineBuffer,
    changes: &mut Changeset,
    n: RepeatCount,
) -> Result<bool, OutOfMemory>
    requires { ItemsStand changes.old line.old.text }
    ensures { Rewrites (transpose_words_steps n line.old)
        line.old line.new changes.old changes.new result }
{
    let _text = line.as_str();
    Ok(line.transpose_words(alloc, n, changes)?)
}

fn words_in_group(
    alloc: Global,
    line: &mut LineBuffer,
    changes: &mut Changeset,
    n: RepeatCount,
) -> Result<bool, OutOfMemory>
    requires { ItemsStand changes.old line.old.text }
    ensures { Rewrites (transpose_words_group n line.old)
        line.old line.new changes.old changes.new result }
{
    changes.begin(alloc)?;
    let done = words_told(alloc, line, changes, n)?;
    changes.end(alloc)?;
    Ok(done)
}

fn word_told(
    alloc: Global,
    line: &mut LineBuffer,
    changes: &mut Changeset,
    action: WordAction,
) -> Result<bool, OutOfMemory>
    requires { ItemsStand changes.old line.old.text }
    ensures { Rewrites (steps_of_edit (edit_word action line.old))
        line.old line.new changes.old changes.new result }
{
    let _text = line.as_str();
    Ok(line.edit_word(alloc, action, changes)?)
}

fn word_in_group(
    alloc: Global,
    line: &mut LineBuffer,
    changes: &mut Changeset,
    action: WordAction,
) -> Result<bool, OutOfMemory>
    requires { ItemsStand changes.old line.old.text }
    ensures { Rewrites (word_group action line.old)
        line.old line.new changes.old changes.new result }
{
    changes.begin(alloc)?;
    let done = word_told(alloc, line, changes, action)?;
    changes.end(alloc)?;
    Ok(done)
}

fn rows_told(
    alloc: Global,
    line: &mut LineBuffer,
    changes: &mut Changeset,
    movement: &Movement,
    amount: u8,
    dedent: bool,
) -> Result<(), OutOfMemory>
    requires { ItemsStand changes.old line.old.text }
    ensures { Rewrites (indent_steps movement.now amount dedent line.old)
        line.old line.new changes.old changes.new result }
{
    let _text = line.as_str();
    line.indent(alloc, movement, amount, dedent, changes)?;
    Ok(())
}

impl RecordedLine {
    /// Transposes the clusters around the cursor, in one group. Returns whether there are two.
    pub fn transpose_chars(&mut self, alloc: Global) -> Result<bool, OutOfMemory>
        ensures { Edits (transpose_chars_group self.old.line) self.old self.new result }
    {
        let done = chars_in_group(alloc, &mut self.line, &mut self.changes);
        self.plain = is_plain(self.line.as_str());
        done
    }

    /// Swaps the word at the cursor or after it with the one `n` words before it, in one group.
    /// Returns whether there are two; if not, the cursor may have moved.
    pub fn transpose_words(&mut self, alloc: Global, n: RepeatCount) -> Result<bool, OutOfMemory>
        ensures { Edits (transpose_words_group n self.old.line) self.old self.new result }
    {
        let done = words_in_group(alloc, &mut self.line, &mut self.changes, n);
        self.plain = is_plain(self.line.as_str());
        done
    }

    /// Changes the case of the word at the cursor or after it, in one group. Returns whether there
    /// is one.
    pub fn edit_word(&mut self, alloc: Global, action: WordAction) -> Result<bool, OutOfMemory>
        ensures { Edits (word_group action self.old.line) self.old self.new result }
    {
        let done = word_in_group(alloc, &mut self.line, &mut self.changes, action);
        self.plain = is_plain(self.line.as_str());
        done
    }

    /// Adds `amount` spaces to each row that a movement covers, or removes at most as many
    /// whitespace characters.
    pub fn indent(
        &mut self,
        alloc: Global,
        movement: &Movement,
        amount: u8,
        dedent: bool,
    ) -> Result<(), OutOfMemory>
        ensures { Edits (indent_steps movement.now amount dedent self.old.line)
            self.old self.new result }
    {
        let line = &mut self.line;
        let done = rows_told(alloc, line, &mut self.changes, movement, amount, dedent);
        if self.plain && done.is_ok() {
            return done;
        }
        self.plain = is_plain(self.line.as_str());
        done
    }
}
