//! A sink that compares.

use line_config::{DeviceFailed, Log, Sink};

/// Rows, each ending in a newline, how far they were compared, and whether all bytes matched.
#[derive(Drop)]
struct Comparison<'a> {
    rows: &'a [&'a str],
    row: usize,
    at: usize,
    same: bool,
}

impl Comparison<'_> {
    fn take(&mut self, byte: u8) {
        let Some(row) = self.rows.get(self.row) else {
            self.same = false;
            return;
        };
        match row.as_bytes().get(self.at) {
            Some(wanted) => {
                self.same = self.same && *wanted == byte;
                self.at = self.at.saturating_add(1);
            }
            None => {
                self.same = self.same && byte == b'\n';
                self.row = self.row.saturating_add(1);
                self.at = 0;
            }
        }
    }

    fn take_all(&mut self, bytes: &[u8]) {
        for byte in bytes {
            self.take(*byte);
        }
    }
}

/// A sink that compares what it takes with rows, and takes no memory.
#[derive(Drop)]
pub(crate) struct RowSink<'a> {
    comparison: Comparison<'a>,
    taken: Log,
}

impl<'a> RowSink<'a> {
    pub(crate) fn new(rows: &'a [&'a str]) -> Self {
        RowSink {
            comparison: Comparison {
                rows,
                row: 0,
                at: 0,
                same: true,
            },
            taken: Log::new(),
        }
    }

    /// Whether it took exactly these rows.
    pub(crate) fn are_taken(&self) -> bool {
        let met = &self.comparison;
        met.same && met.row == met.rows.len() && met.at == 0
    }
}

impl<'a> Sink for RowSink<'a> {
    ghost use Rattle.std.specs.Prelude.{[], false};

    ghost held = { λ s. s.taken.bytes };

    ghost waits = { λ _. [] };

    ghost has_failed = { λ _. false };

    fn write(&mut self, bytes: &[u8]) -> Result<(), DeviceFailed> {
        self.comparison.take_all(bytes);
        self.taken.note(&Ok(bytes.len()), bytes);
        Ok(())
    }

    fn flush(&mut self) -> Result<(), DeviceFailed> {
        Ok(())
    }

    fn failed(&self) -> bool {
        false
    }
}
