//! A listener that makes each event on its own text.

use line_buffer::{ChangeListener, DeleteListener, Direction, LineBuffer, NoListener, OutOfMemory};
use std::alloc::Global;

/// Capacity for the texts of the tests, so that the listener itself needs no allocation later.
const ROOM: usize = 4096;

/// The text of the events, whether each of them fitted it, and whether each kill was ended.
#[derive(Drop)]
pub struct Shadow {
    line: LineBuffer,
    fitted: bool,
    killing: bool,
}

impl Shadow {
    pub(crate) fn new(alloc: Global, text: &str) -> Result<Shadow, OutOfMemory> {
        let mut line = LineBuffer::with_capacity(alloc, ROOM)?;
        line.replace(alloc, 0..0, text, &mut NoListener)?;
        Ok(Shadow {
            line,
            fitted: true,
            killing: false,
        })
    }

    /// Whether the events lead to this text, and no kill is left open.
    pub(crate) fn agrees(&self, text: &str) -> bool {
        self.fitted && !self.killing && self.line.as_str() == text
    }

    fn swap(&mut self, alloc: Global, idx: usize, old: &str, new: &str) {
        let text = self.line.as_str();
        let Some(end) = idx.checked_add(old.len()) else {
            self.fitted = false;
            return;
        };
        if !text.is_char_boundary(idx) || !text.is_char_boundary(end) || &text[idx..end] != old {
            self.fitted = false;
            return;
        }
        if self
            .line
            .replace(alloc, idx..end, new, &mut NoListener)
            .is_err()
        {
            self.fitted = false;
        }
    }
}

impl DeleteListener for Shadow {
    ghost use Rattle.std.specs.Prelude.{⊤};

    ghost takes = { λ _ _ _. ⊤ };

    ghost refuses = { λ _ _ _. ⊤ };

    fn start_killing(&mut self) {
        self.killing = true;
    }

    fn delete(
        &mut self,
        alloc: Global,
        idx: usize,
        text: &str,
        _direction: Direction,
    ) -> Result<(), OutOfMemory> {
        self.swap(alloc, idx, text, "");
        Ok(())
    }

    fn stop_killing(&mut self) {
        self.killing = false;
    }
}

impl ChangeListener for Shadow {
    fn insert_char(&mut self, alloc: Global, idx: usize, c: char) -> Result<(), OutOfMemory> {
        let mut bytes = [0; 4];
        self.swap(alloc, idx, "", c.encode_utf8(&mut bytes));
        Ok(())
    }

    fn insert_str(&mut self, alloc: Global, idx: usize, text: &str) -> Result<(), OutOfMemory> {
        self.swap(alloc, idx, "", text);
        Ok(())
    }

    fn replace(
        &mut self,
        alloc: Global,
        idx: usize,
        old: &str,
        new: &str,
    ) -> Result<(), OutOfMemory> {
        self.swap(alloc, idx, old, new);
        Ok(())
    }
}
