//! A line whose text is changed from front to end, in one pass.

use crate::line_buffer::{LineBuffer, OutOfMemory};
use crate::listener::ChangeListener;
use crate::types::Direction;
use std::alloc::Global;
use std::marker::Model;

/// A line with a gap in its text. The text before the gap is finished. The text after the gap is
/// borrowed from the line to change. The buffer has capacity for both.
#[derive(Drop)]
pub(crate) struct GapBuffer<'a> {
    before: String,
    after: &'a str,
    pos: usize,
    can_growth: bool,
    limit: usize,
}

impl<'a> Model for GapBuffer<'a> {
    ghost use Rattle.std.specs.Prelude.{ℕ, ◌+◌, ◌≤◌, ◌++◌, length, string_bytes, IsCharBoundary};
    ghost use Rattle.std.specs.String.{string_capacity};
    ghost use Rattle.line_buffer.specs.Line.{Line};

    ghost Value = { Line × ℕ };

    ghost view = { λ g. (
      record {
        text = string_bytes g.before ++ g.after.now;
        place = g.pos;
        growth = g.can_growth;
        limit = g.limit;
      },
      length (string_bytes g.before),
    ) };

    ghost invariant = { λ g. IsCharBoundary (string_bytes g.before ++ g.after.now) g.pos
        × (length (string_bytes g.before) + length g.after.now ≤ string_capacity g.before) };
}

impl<'a> GapBuffer<'a> {
    ghost use Rattle.std.specs.Prelude.{◌≡◌, ◌+◌, ◌≤◌, length, drop, IfOk, OnOk, OnErr, IsUtf8, IsCharBoundary};
    ghost use Rattle.line_buffer.specs.declared.types.Direction.TheVariants.{Forward};
    ghost use Rattle.line_buffer.specs.Event.{Replays, deletion, wants_or, line_after_event, InsertStr};

    /// The gap before a whole line.
    pub(crate) fn new(alloc: Global, line: &'a LineBuffer) -> Result<Self, OutOfMemory>
        ensures { IfOk result (λ g. g ≡ (line.now, 0)) }
    {
        let before = String::with_capacity(alloc, line.len())?;
        Ok(GapBuffer {
            before,
            after: line.as_str(),
            pos: line.pos(),
            can_growth: line.can_growth,
            limit: line.limit,
        })
    }

    /// The line without its gap.
    pub(crate) fn into_line(self) -> LineBuffer
        ensures { result ≡ self.entry.0 }
    {
        let mut buf = self.before;
        buf.push_str(self.after).unwrap();
        LineBuffer {
            buf,
            pos: self.pos,
            can_growth: self.can_growth,
            limit: self.limit,
        }
    }

    /// The place of the gap.
    pub(crate) fn gap(&self) -> usize
        ensures value { result ≡ self.now.1 }
        ensures boundary { IsCharBoundary self.now.0.text self.now.1 }
    {
        // Its contract says that they are UTF-8.
        let _after = self.after.as_bytes();
        self.before.len()
    }

    /// The text after the gap.
    pub(crate) fn after(&self) -> &str
        ensures value { result.now ≡ drop self.now.1 self.now.0.text }
        ensures utf8 { IsUtf8 self.now.0.text }
    {
        // Its contract says that they are UTF-8.
        let _after = self.after.as_bytes();
        self.after
    }

    /// The number of bytes of the text.
    pub(crate) fn len(&self) -> usize
        ensures { result ≡ length self.now.0.text }
    {
        // Its contract says that its length can be counted.
        let _room = self.before.capacity();
        self.before.len() + self.after.len()
    }

    /// Moves the gap forward to a place.
    pub(crate) fn advance(&mut self, to: usize)
        requires order { self.old.1 ≤ to }
        requires boundary { IsCharBoundary self.old.0.text to }
        ensures { self.new ≡ (self.old.0, to) }
    {
        let passed = to - self.before.len();
        self.before.push_str(&self.after[..passed]).unwrap();
        self.after = &self.after[passed..];
    }

    /// Inserts a text before the gap. The cursor stays before the text that follows it.
    pub(crate) fn insert<C: ChangeListener>(
        &mut self,
        alloc: Global,
        text: &str,
        cl: &mut C,
    ) -> Result<(), OutOfMemory>
        ensures told { OnOk result (C.takes cl.old (InsertStr self.old.1 text.now) cl.new) }
        ensures replays { OnOk result (Replays (InsertStr self.old.1 text.now) self.old.0.text
            self.new.0.text) }
        ensures value { OnOk result (self.new ≡ (
          line_after_event (InsertStr self.old.1 text.now)
              self.old.0,
          self.old.1 + length text.now,
        )) }
        ensures refused { OnErr result (wants_or C.refuses cl.old
            (InsertStr self.old.1 text.now) cl.new) }
        ensures kept { OnErr result (self.new ≡ self.old) }
    {
        let at = self.gap();
        let Some(more) = text.len().checked_add(self.after.len()) else {
            return Err(OutOfMemory);
        };
        self.before.reserve(more)?;
        cl.insert_str(alloc, at, text)?;
        self.before.push_str(text).unwrap();
        if at <= self.pos {
            self.pos += text.len();
        }
        Ok(())
    }

    /// Deletes the text between the gap and a place. The cursor stays before the text that follows
    /// it.
    pub(crate) fn remove<C: ChangeListener>(
        &mut self,
        alloc: Global,
        upto: usize,
        cl: &mut C,
    ) -> Result<(), OutOfMemory>
        requires order { self.old.1 ≤ upto }
        requires end { IsCharBoundary self.old.0.text upto }
        ensures told { OnOk result (C.takes cl.old (deletion self.old.1 upto Forward
            self.old.0.text) cl.new) }
        ensures replays { OnOk result (Replays (deletion self.old.1 upto Forward self.old.0.text)
            self.old.0.text self.new.0.text) }
        ensures value { OnOk result (self.new ≡ (
          line_after_event (deletion self.old.1 upto Forward
              self.old.0.text) self.old.0,
          self.old.1,
        )) }
        ensures refused { OnErr result (C.refuses cl.old (deletion self.old.1 upto Forward
            self.old.0.text) cl.new) }
        ensures kept { OnErr result (self.new ≡ self.old) }
    {
        let at = self.gap();
        let removed = upto - at;
        cl.delete(alloc, at, &self.after[..removed], Direction::Forward)?;
        self.after = &self.after[removed..];
        self.pos -= removed.min(self.pos.saturating_sub(at));
        Ok(())
    }
}
