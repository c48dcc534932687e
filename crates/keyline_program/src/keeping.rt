//! The rows of a history's new entries, appended to its file as they come.

use keyline_files::HistoryFile;
use std::io::{self, Error, Write};

/// What is written to it is appended to a history file at each flush. If that fails, the failure is
/// told once, and the rows are appended with the next ones. If memory runs out for a row, that is
/// told, and the rows after it are appended.
#[derive(Drop)]
pub struct Rows<'a> {
    rt: &'a HostRuntime,
    path: &'a str,
    file: HistoryFile<'a>,
    told: bool,
}

impl<'a> Rows<'a> {
    /// No rows, for the file of this path. `told`: that it can't be written was told already.
    pub fn new(rt: &'a HostRuntime, path: &'a str, told: bool) -> Rows<'a> {
        Rows {
            rt,
            path,
            file: HistoryFile::new(rt, path),
            told,
        }
    }

    /// Appends what is left, and answers whether all rows are in the file then.
    pub fn finish(&mut self) -> bool {
        self.append();
        self.file.is_whole()
    }

    fn append(&mut self) {
        match self.file.append() {
            Ok(()) => self.told = false,
            Err(error) => self.tell(&error),
        }
    }

    fn tell(&mut self, error: &Error) {
        if !self.told {
            let _ = eprintln!(self.rt;
                "keyline: history file {}: {}; the next line tries again",
                self.path,
                error.kind()
            );
            self.told = true;
        }
    }
}

impl Write for Rows<'_> {
    fn write(&mut self, buf: &[u8]) -> io::Result<usize> {
        if let Err(error) = self.file.add(buf) {
            let _ = eprintln!(self.rt;
                "keyline: history file {}: {}; a line is not saved",
                self.path,
                error.kind()
            );
        }
        Ok(buf.len())
    }

    fn flush(&mut self) -> io::Result<()> {
        self.append();
        Ok(())
    }
}
