//! Changes of one range. Each reserves its memory, then notifies the listener, then changes the
//! text.

ghost use Rattle.std.specs.Prelude.{◌≡◌, ◌≤◌, [], string_bytes, IsCharBoundary};
ghost use Rattle.std.specs.List.{replace_range};

use crate::line_buffer::{LineBuffer, OutOfMemory};
use crate::listener::{ChangeListener, DeleteListener};
use crate::types::Direction;
use std::alloc::Global;
use std::ops::Range;

/// Removes a range from a text. A range at the end is truncated, which moves no bytes.
fn take_out(text: &mut String, from: usize, upto: usize)
    requires order { from ≤ upto }
    requires start { IsCharBoundary (string_bytes text.old) from }
    requires end { IsCharBoundary (string_bytes text.old) upto }
    ensures { string_bytes text.new ≡ replace_range (string_bytes text.old) from upto [] }
{
    if upto == text.len() {
        text.truncate(from);
        return;
    }
    text.replace_range(from..upto, "").unwrap();
}

impl LineBuffer {
    ghost use Rattle.std.specs.Prelude.{◌≡◌, ◌==◌, ◌≤◌, length, IfOk, IsCharBoundary};
    ghost use Rattle.std.specs.List.{insert_slice};
    ghost use Rattle.line_buffer.specs.Edit.{ChangesLine};
    ghost use Rattle.line_buffer.specs.Line.{with_replacement, without_range, with_text_at};
    ghost use Rattle.line_buffer.specs.Event.{deletion, replacement, wants_or, InsertStr};
    ghost use Rattle.line_buffer.specs.declared.types.Direction.TheVariants.{Forward};

    /// Puts `text` in place of a range, with the cursor after it. The range is in bytes and must
    /// lie on character boundaries, which `as_str().is_char_boundary` checks.
    pub fn replace<C: ChangeListener>(
        &mut self,
        alloc: Global,
        range: Range<usize>,
        text: &str,
        cl: &mut C,
    ) -> Result<(), OutOfMemory>
        requires order { range.start ≤ range.end }
        requires start { IsCharBoundary self.old.text range.start }
        requires end { IsCharBoundary self.old.text range.end }
        ensures { ChangesLine C.takes (wants_or C.refuses)
            (replacement range.start range.end text.now self.old.text)
            (with_replacement range.start range.end text.now self.old)
            cl.old cl.new self.old self.new result }
    {
        self.buf.reserve(text.len())?;
        cl.replace(alloc, range.start, &self.buf[range.start..range.end], text)?;
        self.buf.replace_range(range.start..range.end, text)?;
        self.pos = range.start + text.len();
        Ok(())
    }

    /// Inserts `text` at a place and keeps the cursor's place. Returns true if it was inserted at
    /// the end. The cursor's place must be a character boundary of the new text.
    pub fn insert_str<C: ChangeListener>(
        &mut self,
        alloc: Global,
        idx: usize,
        text: &str,
        cl: &mut C,
    ) -> Result<bool, OutOfMemory>
        requires at { IsCharBoundary self.old.text idx }
        requires cursor { IsCharBoundary (insert_slice self.old.text idx text.now) self.old.place }
        ensures answer { IfOk result (λ at_end. at_end ≡ (idx == length self.old.text)) }
        ensures edits { ChangesLine C.takes (wants_or C.refuses) (InsertStr idx text.now)
            (with_text_at idx text.now self.old) cl.old cl.new self.old self.new result }
    {
        let at_end = idx == self.buf.len();
        self.buf.reserve(text.len())?;
        cl.insert_str(alloc, idx, text)?;
        self.buf.insert_str(idx, text)?;
        Ok(at_end)
    }

    /// Deletes a range, with the cursor at its start; the listener gets the direction `Forward`.
    /// The range must lie on character boundaries.
    pub fn delete_range<D: DeleteListener>(
        &mut self,
        alloc: Global,
        range: Range<usize>,
        dl: &mut D,
    ) -> Result<(), OutOfMemory>
        requires order { range.start ≤ range.end }
        requires start { IsCharBoundary self.old.text range.start }
        requires end { IsCharBoundary self.old.text range.end }
        ensures { ChangesLine D.takes D.refuses
            (deletion range.start range.end Forward self.old.text)
            (without_range range.start range.end self.old) dl.old dl.new self.old self.new result }
    {
        self.delete_directed(alloc, range, Direction::Forward, dl)
    }

    /// `delete_range` with the direction that the listener gets.
    pub(crate) fn delete_directed<D: DeleteListener>(
        &mut self,
        alloc: Global,
        range: Range<usize>,
        direction: Direction,
        dl: &mut D,
    ) -> Result<(), OutOfMemory>
        requires order { range.start ≤ range.end }
        requires start { IsCharBoundary self.old.text range.start }
        requires end { IsCharBoundary self.old.text range.end }
        ensures { ChangesLine D.takes D.refuses
            (deletion range.start range.end direction self.old.text)
            (without_range range.start range.end self.old) dl.old dl.new self.old self.new result }
    {
        dl.delete(
            alloc,
            range.start,
            &self.buf[range.start..range.end],
            direction,
        )?;
        take_out(&mut self.buf, range.start, range.end);
        self.pos = range.start;
        Ok(())
    }
}
