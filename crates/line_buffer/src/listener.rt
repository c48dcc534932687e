//! Listeners to the changes of a text, such as an undo record or a kill ring.

use crate::line_buffer::OutOfMemory;
use crate::types::Direction;
use std::alloc::Global;

/// Is notified of each deletion, and of the begin and end of a kill.
///
/// `takes` says what an event makes of the listener. `refuses` says what is left of the listener if
/// its allocation for an event fails.
pub trait DeleteListener {
    ghost use Rattle.std.specs.Prelude.{OnOk, OnErr};
    ghost use Rattle.line_buffer.specs.Event.{ChangeEvent};
    ghost use Rattle.line_buffer.specs.Event.ChangeEvent.{StartKilling, StopKilling, Delete};

    ghost takes: { Self → ChangeEvent → Self → Type 0 };

    ghost refuses: { Self → ChangeEvent → Self → Type 0 };

    /// Text deleted from now on is killed.
    fn start_killing(&mut self)
        ensures { takes self.old StartKilling self.new };

    /// `text` is about to be deleted at the byte place `idx`.
    fn delete(
        &mut self,
        alloc: Global,
        idx: usize,
        text: &str,
        direction: Direction,
    ) -> Result<(), OutOfMemory>
        ensures ok { OnOk result (takes self.old (Delete idx text.now direction) self.new) }
        ensures err { OnErr result (refuses self.old (Delete idx text.now direction) self.new) };

    /// Text deleted from now on is not killed.
    fn stop_killing(&mut self)
        ensures { takes self.old StopKilling self.new };
}

/// Is notified of every change of a text, before it is made. Places are in bytes.
pub trait ChangeListener: DeleteListener {
    ghost use Rattle.std.specs.Prelude.{OnOk, OnErr};
    ghost use Rattle.line_buffer.specs.Event.ChangeEvent.{InsertChar, InsertStr, Replace};

    /// The character `c` is about to be inserted at `idx`.
    fn insert_char(&mut self, alloc: Global, idx: usize, c: char) -> Result<(), OutOfMemory>
        ensures ok { OnOk result (Self.takes self.old (InsertChar idx c) self.new) }
        ensures err { OnErr result (Self.refuses self.old (InsertChar idx c) self.new) };

    /// The text `text` is about to be inserted at `idx`.
    fn insert_str(&mut self, alloc: Global, idx: usize, text: &str) -> Result<(), OutOfMemory>
        ensures ok { OnOk result (Self.takes self.old (InsertStr idx text.now) self.new) }
        ensures err { OnErr result (Self.refuses self.old (InsertStr idx text.now) self.new) };

    /// At `idx`, `removed` is about to be replaced by `added`.
    fn replace(
        &mut self,
        alloc: Global,
        idx: usize,
        removed: &str,
        added: &str,
    ) -> Result<(), OutOfMemory>
        ensures ok { OnOk result (Self.takes self.old (Replace idx removed.now added.now)
            self.new) }
        ensures err { OnErr result (Self.refuses self.old (Replace idx removed.now added.now)
            self.new) };
}

/// A listener that ignores every event, and never fails.
#[derive(Clone, Copy, Debug, PartialEq, Eq)]
pub struct NoListener;

impl DeleteListener for NoListener {
    ghost use Rattle.std.specs.Prelude.{⊤};

    ghost takes = { λ _ _ _. ⊤ };

    ghost refuses = { λ _ _ _. ⊥ };

    fn start_killing(&mut self) {}

    fn delete(
        &mut self,
        _alloc: Global,
        _idx: usize,
        _text: &str,
        _direction: Direction,
    ) -> Result<(), OutOfMemory> {
        Ok(())
    }

    fn stop_killing(&mut self) {}
}

impl ChangeListener for NoListener {
    fn insert_char(&mut self, _alloc: Global, _idx: usize, _c: char) -> Result<(), OutOfMemory> {
        Ok(())
    }

    fn insert_str(&mut self, _alloc: Global, _idx: usize, _text: &str) -> Result<(), OutOfMemory> {
        Ok(())
    }

    fn replace(
        &mut self,
        _alloc: Global,
        _idx: usize,
        _removed: &str,
        _added: &str,
    ) -> Result<(), OutOfMemory> {
        Ok(())
    }
}
