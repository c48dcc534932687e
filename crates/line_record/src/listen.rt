//! The record as a listener to a line.

use crate::changeset::Changeset;
use crate::report::Report;
use line_buffer::{ChangeListener, DeleteListener, Direction, OutOfMemory};
use std::alloc::Global;

impl DeleteListener for Changeset {
    ghost use Rattle.line_record.specs.Items.{RecordsEventIn, record_refuses};

    ghost takes = { RecordsEventIn };

    ghost refuses = { record_refuses };

    fn start_killing(&mut self) {}

    fn delete(
        &mut self,
        alloc: Global,
        idx: usize,
        text: &str,
        direction: Direction,
    ) -> Result<(), OutOfMemory> {
        self.note(
            alloc,
            Report::Deletion {
                at: idx,
                text,
                direction,
            },
        )
    }

    fn stop_killing(&mut self) {}
}

impl ChangeListener for Changeset {
    fn insert_char(&mut self, alloc: Global, idx: usize, c: char) -> Result<(), OutOfMemory> {
        self.insert(alloc, idx, c)
    }

    fn insert_str(&mut self, alloc: Global, idx: usize, text: &str) -> Result<(), OutOfMemory> {
        self.insert_str(alloc, idx, text)
    }

    fn replace(
        &mut self,
        alloc: Global,
        idx: usize,
        removed: &str,
        added: &str,
    ) -> Result<(), OutOfMemory> {
        self.replace(alloc, idx, removed, added)
    }
}
