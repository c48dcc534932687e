//! Reads a text from a source, row by row.
#![tactic(auto, using(crate::proofs::RowLemmas::row_steps))]

ghost use Rattle.std.specs.Prelude.{◌≡◌, ◌≤◌, ◌==◌, length, take};
ghost use Rattle.std.specs.List.{position_or_len};
ghost use Rattle.line_help.specs.HistoryText.{ReadsTextByte, TakesPiece, without_return};

use line_config::{ReadlineError, Source};
use memchr::memchr;
use std::alloc::{AllocError, Global};

/// Where a row ends: before the carriage return at its end, if there is one.
pub(crate) fn row_end(row: &[u8]) -> usize
    ensures value { take result row.now ≡ without_return row.now }
    ensures within { result ≤ length row.now }
{
    let len = row.len();
    if len > 0 && row[len - 1] == b'\r' {
        return len - 1;
    }
    len
}

/// Removes the carriage return at the end, if there is one.
fn drop_return(row: &mut Vec<u8>)
    ensures { row.new.items ≡ without_return row.old.items }
{
    let end = row_end(row);
    row.truncate(end);
}

/// The next byte of a source, or `None` at the end of its text.
fn next_byte<S: Source>(source: &mut S) -> Result<Option<u8>, ReadlineError>
    ensures { ReadsTextByte (S.feed source.old) (S.feed source.new) result }
{
    source.next_byte().map_err(|_| ReadlineError::Reader)
}

/// The number of bytes before the first newline.
pub(crate) fn row_len(bytes: &[u8]) -> usize
    ensures { result ≡ position_or_len (λ b. b == 10) bytes.now }
{
    memchr(b'\n', bytes).unwrap_or(bytes.len())
}

/// Takes the part of a row that the source has buffered. If an allocation fails, it takes nothing.
fn take_piece<S: Source>(source: &mut S, row: &mut Vec<u8>) -> Result<(), AllocError>
    ensures { TakesPiece (S.feed source.old) (S.feed source.new) row.old.items row.new.items }
{
    let bytes = source.buffer();
    let count = row_len(bytes);
    row.extend_from_slice(&bytes[..count])?;
    source.consume(count);
    Ok(())
}

/// Reads the rows of a text, and nothing past its end.
#[derive(Drop)]
pub(crate) struct RowReader {
    /// The last row that was read.
    pub(crate) row: Vec<u8>,
    /// Whether the text's end was met.
    pub(crate) ended: bool,
}

impl RowReader {
    ghost use Rattle.std.specs.Prelude.{◌≡◌, false};
    ghost use Rattle.line_help.specs.HistoryText.{EndIsMet, ReadsRow};

    pub(crate) fn new(alloc: Global) -> Self
        ensures { result.ended ≡ false }
    {
        RowReader {
            row: Vec::new(alloc),
            ended: false,
        }
    }

    /// Reads the next row, which ends at a newline or at the text's end. Returns whether there is
    /// one. A carriage return right before the newline isn't part of it.
    pub(crate) fn read<S: Source>(&mut self, source: &mut S) -> Result<bool, ReadlineError>
        requires { EndIsMet self.old.ended (S.feed source.old) }
        ensures { ReadsRow (S.feed source.old) (S.feed source.new)
            self.new.row.items self.new.ended result }
    {
        self.row.clear();
        if self.ended {
            return Ok(false);
        }
        while let Some(byte) = next_byte(source)? {
            if byte == b'\n' {
                drop_return(&mut self.row);
                return Ok(true);
            }
            self.row.push(byte)?;
            take_piece(source, &mut self.row)?;
        }
        self.ended = true;
        Ok(!self.row.is_empty())
    }
}
