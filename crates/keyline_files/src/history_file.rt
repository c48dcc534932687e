//! A history file that rows are appended to as they come.

use crate::history::append_history;
use std::io;

/// A history file that rows are appended to as they come. If that fails, they are kept, and
/// appended with the next ones.
#[derive(Drop)]
pub struct HistoryFile<'a> {
    rt: &'a HostRuntime,
    path: &'a str,
    left: Vec<u8>,
    /// How many bytes of `left` are whole rows, which an append has failed for.
    whole: usize,
    /// Whether memory ran out for the row that is being added.
    cut: bool,
    /// Whether memory ran out for any row.
    lost: bool,
}

impl<'a> HistoryFile<'a> {
    /// The file of this path. It is not opened yet.
    pub fn new(rt: &'a HostRuntime, path: &'a str) -> HistoryFile<'a> {
        HistoryFile {
            rt,
            path,
            left: Vec::new(rt.alloc()),
            whole: 0,
            cut: false,
            lost: false,
        }
    }

    /// Adds bytes of a row to what is left. An error means that memory ran out: the row is lost,
    /// and what follows of it, up to the next `append`, is passed over.
    pub fn add(&mut self, bytes: &[u8]) -> io::Result<()> {
        if self.cut {
            return Ok(());
        }
        if let Err(error) = self.left.extend_from_slice(bytes) {
            self.left.truncate(self.whole);
            self.cut = true;
            self.lost = true;
            return Err(error.into());
        }
        Ok(())
    }

    /// Appends the rows that are left to the file, as `append_history` does.
    pub fn append(&mut self) -> io::Result<()> {
        self.cut = false;
        self.whole = self.left.len();
        append_history(self.rt, self.path, self.left.as_slice())?;
        self.left.clear();
        self.whole = 0;
        Ok(())
    }

    /// Whether all rows that were added are in the file.
    pub fn is_whole(&self) -> bool {
        self.left.is_empty() && !self.lost
    }
}
