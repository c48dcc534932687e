//! The lines in which changes are undone and redone.

use line_buffer::{LineBuffer, NoListener, OutOfMemory};
use std::alloc::Global;

/// A line in which one text can be replaced by another. `value` is that line.
pub trait EditedLine {
    ghost use Rattle.std.specs.Prelude.{◌≡◌, ◌+◌, length, OnOk, OnErr};
    ghost use Rattle.line_buffer.specs.Event.{StandsAt};
    ghost use Rattle.line_buffer.specs.Line.{Line};
    ghost use Rattle.line_record.specs.Change.{text_with_exchange};

    ghost value: { Self → Line };

    /// Replaces a text at a place by another, with the cursor after it.
    fn exchange(
        &mut self,
        alloc: Global,
        at: usize,
        from: &str,
        to: &str,
    ) -> Result<(), OutOfMemory>
        requires { StandsAt at from.now to.now (value self.old).text }
        ensures line { OnOk result (value self.new ≡ record (value self.old) {
          text = text_with_exchange at from.now to.now (value self.old).text;
          place = at + length to.now;
        }) }
        ensures kept { OnErr result (value self.new ≡ value self.old) };
}

impl EditedLine for LineBuffer {
    ghost value = { λ l. l };

    fn exchange(
        &mut self,
        alloc: Global,
        at: usize,
        from: &str,
        to: &str,
    ) -> Result<(), OutOfMemory> {
        // Its contract says that the length fits.
        let _longest = self.len();
        self.replace(alloc, at..at + from.len(), to, &mut NoListener)
    }
}
