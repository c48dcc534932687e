//! The text and the cursor's place in it.

use std::alloc::{AllocError, AllocFailed, Global};
use std::convert::AsStr;
use std::marker::Model;
use std::{error, fmt};

/// The number of bytes that a line has capacity for at first.
pub const MAX_LINE: usize = 4096;

/// An allocation failed: for the change, or for the listener to record it.
#[derive(Clone, Copy, Debug, PartialEq, Eq)]
pub struct OutOfMemory;

impl From<AllocError> for OutOfMemory {
    fn from(_: AllocError) -> Self {
        OutOfMemory
    }
}

/// The value that couldn't be stored is dropped.
impl<T: Drop> From<AllocFailed<T>> for OutOfMemory {
    fn from(_: AllocFailed<T>) -> Self {
        OutOfMemory
    }
}

impl fmt::Display for OutOfMemory {
    ghost use Rattle.std.specs.Prelude.{Some, codes};

    ghost output = { λ _. Some (codes "out of memory") };

    fn fmt<W: fmt::Write>(&self, f: &mut fmt::Formatter<W>) -> fmt::Result {
        f.write_str("out of memory")
    }
}

impl error::Error for OutOfMemory {}

/// A line to edit. Places are in bytes, and the cursor is always at a character boundary.
#[derive(Debug, Drop)]
pub struct LineBuffer {
    pub(crate) buf: String,
    pub(crate) pos: usize,
    pub(crate) can_growth: bool,
    pub(crate) limit: usize,
}

impl Model for LineBuffer {
    ghost use Rattle.std.specs.Prelude.{string_bytes, IsCharBoundary};
    ghost use Rattle.line_buffer.specs.Line.{Line};

    ghost Value = { Line };

    ghost view = { λ b. record {
      text = string_bytes b.buf;
      place = b.pos;
      growth = b.can_growth;
      limit = b.limit;
    } };

    ghost invariant = { λ b. IsCharBoundary (string_bytes b.buf) b.pos };
}

impl AsStr for LineBuffer {
    ghost text = { λ l. l.text };

    fn as_str(&self) -> &str {
        self.buf.as_str()
    }
}

impl LineBuffer {
    ghost use Rattle.std.specs.Prelude.{◌≡◌, ◌==◌, ◌<◌, ◌^◌, not, [], length, true, false, IfOk, IsUtf8, IsCharBoundary, string_bytes};
    ghost use Rattle.line_buffer.specs.Line.{Line};

    /// An empty line with capacity for `capacity` bytes. It doesn't grow past that until
    /// `can_growth` allows it.
    pub fn with_capacity(alloc: Global, capacity: usize) -> Result<Self, OutOfMemory>
        ensures { IfOk result (λ l. l ≡ record {
          text = [];
          place = 0;
          growth = false;
          limit
              = capacity;
        }) }
    {
        let buf = String::with_capacity(alloc, capacity)?;
        Ok(LineBuffer {
            buf,
            pos: 0,
            can_growth: false,
            limit: capacity,
        })
    }

    /// The line, with permission to grow past its limit or without.
    pub fn can_growth(self, can_growth: bool) -> Self
        ensures { result ≡ record self { growth = can_growth } }
    {
        LineBuffer {
            buf: self.buf,
            pos: self.pos,
            can_growth,
            limit: self.limit,
        }
    }

    /// A copy of the line, in memory of its own.
    pub fn try_clone(&self, alloc: Global) -> Result<Self, OutOfMemory>
        ensures { IfOk result (λ l. l ≡ self.now) }
    {
        let buf = String::from_str(alloc, self.buf.as_str())?;
        Ok(LineBuffer {
            buf,
            pos: self.pos,
            can_growth: self.can_growth,
            limit: self.limit,
        })
    }

    /// The text.
    pub fn as_str(&self) -> &str
        ensures value { result.now ≡ self.now.text }
        ensures utf8 { IsUtf8 self.now.text }
    {
        self.buf.as_str()
    }

    /// The text; the line is consumed.
    pub fn into_string(self) -> String
        ensures { string_bytes result ≡ self.text }
    {
        self.buf
    }

    /// The cursor's place.
    pub fn pos(&self) -> usize
        ensures value { result ≡ self.now.place }
        ensures boundary { IsCharBoundary self.now.text self.now.place }
    {
        self.pos
    }

    /// Whether the cursor is after the whole text.
    pub fn is_cursor_at_end(&self) -> bool
        ensures { result ≡ (self.now.place == length self.now.text) }
    {
        self.pos == self.buf.len()
    }

    /// Sets the cursor to a character boundary, which `as_str().is_char_boundary(pos)` checks.
    pub fn set_pos(&mut self, pos: usize)
        requires { IsCharBoundary self.old.text pos }
        ensures { self.new ≡ record self.old { place = pos } }
    {
        self.pos = pos;
    }

    /// The number of bytes of the text.
    pub fn len(&self) -> usize
        ensures { result ≡ length self.now.text }
    {
        self.buf.len()
    }

    /// Whether the text is empty.
    pub fn is_empty(&self) -> bool
        ensures { result ≡ (length self.now.text == 0) }
    {
        self.buf.is_empty()
    }

    /// Moves the cursor before the whole text. Returns false if it was there.
    pub fn move_buffer_start(&mut self) -> bool
        ensures answer { result ≡ not (self.old.place == 0) }
        ensures line { self.new ≡ record self.old { place = 0 } }
    {
        if self.pos == 0 {
            return false;
        }
        self.set_pos(0);
        true
    }

    /// Moves the cursor after the whole text. Returns false if it was there.
    pub fn move_buffer_end(&mut self) -> bool
        ensures answer { result ≡ not (self.old.place == length self.old.text) }
        ensures line { self.new ≡ record self.old { place = length self.old.text } }
    {
        if self.is_cursor_at_end() {
            return false;
        }
        let end = self.len();
        self.set_pos(end);
        true
    }
}
