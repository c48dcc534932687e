//! Two listeners to one line.

use line_buffer::{ChangeListener, DeleteListener, Direction, OutOfMemory};
use std::alloc::Global;

/// Notifies two listeners of each event, in order. If the first one fails, the second isn't
/// notified. So a record that comes last never holds a change that the line didn't make.
#[derive(Drop)]
pub struct Joined<'a, A: DeleteListener, B: DeleteListener> {
    pub first: &'a mut A,
    pub second: &'a mut B,
}

impl<'a, A: DeleteListener, B: DeleteListener> DeleteListener for Joined<'a, A, B> {
    ghost use Rattle.line_record.specs.Together.{joined_takes, joined_refuses};

    ghost takes = { joined_takes A.takes B.takes };

    ghost refuses = { joined_refuses A.takes A.refuses B.refuses };

    fn start_killing(&mut self) {
        self.first.start_killing();
        self.second.start_killing();
    }

    fn delete(
        &mut self,
        alloc: Global,
        idx: usize,
        text: &str,
        direction: Direction,
    ) -> Result<(), OutOfMemory> {
        self.first.delete(alloc, idx, text, direction)?;
        self.second.delete(alloc, idx, text, direction)
    }

    fn stop_killing(&mut self) {
        self.first.stop_killing();
        self.second.stop_killing();
    }
}

impl<'a, A: ChangeListener, B: ChangeListener> ChangeListener for Joined<'a, A, B> {
    fn insert_char(&mut self, alloc: Global, idx: usize, c: char) -> Result<(), OutOfMemory> {
        self.first.insert_char(alloc, idx, c)?;
        self.second.insert_char(alloc, idx, c)
    }

    fn insert_str(&mut self, alloc: Global, idx: usize, text: &str) -> Result<(), OutOfMemory> {
        self.first.insert_str(alloc, idx, text)?;
        self.second.insert_str(alloc, idx, text)
    }

    fn replace(
        &mut self,
        alloc: Global,
        idx: usize,
        removed: &str,
        added: &str,
    ) -> Result<(), OutOfMemory> {
        self.first.replace(alloc, idx, removed, added)?;
        self.second.replace(alloc, idx, removed, added)
    }
}
