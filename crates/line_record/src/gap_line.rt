//! A line whose text is changed at several places, each near the last one.

use crate::edited_line::EditedLine;
use line_buffer::{LineBuffer, NoListener, OutOfMemory};
use std::alloc::{AllocError, Global};
use std::marker::Model;
use std::str;

/// The text of a line, with a gap where it was changed last, and the cursor. The text after the gap
/// is stored in reverse. So a change costs its own texts and the distance from the change before
/// it.
#[derive(Drop)]
pub struct GapLine {
    before: Vec<u8>,
    after: Vec<u8>,
    pos: usize,
}

impl Model for GapLine {
    ghost use Rattle.std.specs.Prelude.{◌++◌, false, reverse, IsUtf8, IsCharBoundary};
    ghost use Rattle.line_buffer.specs.Line.{Line};

    ghost Value = { Line };

    ghost view = { λ g. record {
      text = g.before.items ++ reverse g.after.items;
      place = g.pos;
      growth = false;
      limit = 0;
    } };

    ghost invariant = { λ g. IsUtf8 (g.before.items ++ reverse g.after.items)
        × IsCharBoundary (g.before.items ++ reverse g.after.items) g.pos };
}

impl GapLine {
    ghost use Rattle.std.specs.Prelude.{◌≡◌, false, IfOk, OnOk, OnErr};

    /// The text and cursor of a line, with the gap after the text.
    pub fn new(alloc: Global, line: &LineBuffer) -> Result<Self, OutOfMemory>
        ensures { IfOk result (λ g. g ≡ record line.now { growth = false; limit = 0 }) }
    {
        let text = line.as_str();
        let mut before = Vec::with_capacity(alloc, text.len())?;
        before.extend_from_slice(text.as_bytes())?;
        Ok(GapLine {
            before,
            after: Vec::new(alloc),
            pos: line.pos(),
        })
    }

    /// Replaces a line's text and cursor by these.
    pub fn write(self, alloc: Global, line: &mut LineBuffer) -> Result<(), OutOfMemory>
        ensures line { OnOk result
            (line.new ≡ record line.old { text = self.text; place = self.place }) }
        ensures kept { OnErr result (line.new ≡ line.old) }
    {
        let mut before = self.before;
        let mut after = self.after;
        let left = after.len();
        pass(&mut after, &mut before, left)?;
        let text = str::from_utf8(&before).unwrap();
        let end = line.as_str().len();
        line.replace(alloc, 0..end, text, &mut NoListener)?;
        line.set_pos(self.pos);
        Ok(())
    }
}

impl EditedLine for GapLine {
    ghost value = { λ g. g };

    fn exchange(
        &mut self,
        _alloc: Global,
        at: usize,
        from: &str,
        to: &str,
    ) -> Result<(), OutOfMemory> {
        let Some(upto) = at.checked_add(from.len()) else {
            return Err(OutOfMemory);
        };
        move_gap(&mut self.before, &mut self.after, upto)?;
        self.before.reserve(to.len())?;
        self.before.truncate(at);
        self.before.extend_from_slice(to.as_bytes()).unwrap();
        self.pos = self.before.len();
        Ok(())
    }
}

ghost use Rattle.std.specs.Prelude.{◌≡◌, ◌-◌, ◌≤◌, ◌++◌, length, take, drop, reverse, OnOk, OnErr};

/// Moves the gap between two lists to a place. The second list is stored in reverse.
fn move_gap(before: &mut Vec<u8>, after: &mut Vec<u8>, to: usize) -> Result<(), AllocError>
    requires { to ≤ length (before.old.items ++ reverse after.old.items) }
    ensures before { OnOk result (before.new.items ≡ take to (before.old.items
        ++ reverse after.old.items)) }
    ensures after { OnOk result (reverse after.new.items ≡ drop to (before.old.items
        ++ reverse after.old.items)) }
    ensures before_kept { OnErr result (before.new.items ≡ before.old.items) }
    ensures after_kept { OnErr result (after.new.items ≡ after.old.items) }
{
    if to < before.len() {
        let count = before.len() - to;
        pass(before, after, count)
    } else {
        let count = to - before.len();
        pass(after, before, count)
    }
}

/// Moves `count` bytes from the end of one list to the end of another, the last one first.
fn pass(from: &mut Vec<u8>, to: &mut Vec<u8>, count: usize) -> Result<(), AllocError>
    requires { count ≤ length from.old.items }
    ensures from { OnOk result (from.new.items ≡ take (length from.old.items - count)
        from.old.items) }
    ensures to { OnOk result (to.new.items ≡ to.old.items ++ reverse
        (drop (length from.old.items - count) from.old.items)) }
    ensures from_kept { OnErr result (from.new.items ≡ from.old.items) }
    ensures to_kept { OnErr result (to.new.items ≡ to.old.items) }
{
    let kept = from.len() - count;
    let start = to.len();
    to.extend_from_slice(&from[kept..])?;
    to[start..].reverse();
    from.truncate(kept);
    Ok(())
}
