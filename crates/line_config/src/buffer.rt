//! The fixed array of an adapter: its content is between two places of the array.
ghost use Rattle.std.specs.Prelude.{◌≡◌, IsTrue, ◌+◌, ◌-◌, ◌≤◌, ◌<◌, [], ◌++◌, length, take, drop, min, option_to_list, OnOk, OnErr, IsNone, ◌↔◌};
ghost use Rattle.std.specs.Io.KnownBytes.{Consumes, IsAtEnd};
ghost use Rattle.line_config.specs.DeviceCalls.{Answers, EndsWithCall, IsReadFailure, IsWriteFailure, Moves, Tries, move_interrupted};

use crate::device::DeviceFailed;
use crate::recorded::Recorded;
use crate::retry::{read_retrying, write_retrying};
use std::io::{Read, Write};

/// Bytes in a fixed array: read and not given yet, or taken and not sent yet.
#[derive(Drop)]
pub struct Buffer<const N: usize> {
    bytes: [u8; N],
    start: usize,
    end: usize,
    pub ghost ordered: { start ≤ end },
    pub ghost within: { end ≤ N },
}

impl<const N: usize> Buffer<N> {
    ghost use Rattle.line_config.specs.Parts.{Notes, bytes_in, calls_of, inner_of, piece_in, room_in, took};

    pub(crate) fn new() -> Self
        ensures empty { bytes_in result ≡ [] }
        ensures room { room_in result ≡ N }
    {
        Buffer {
            bytes: [0; N],
            start: 0,
            end: 0,
        }
    }

    /// The buffered bytes.
    pub fn as_slice(&self) -> &[u8]
        ensures { result.now ≡ bytes_in self.now }
    {
        let all = &self.bytes[..];
        &all[self.start..self.end]
    }

    /// Whether it is empty.
    pub fn is_empty(&self) -> bool
        ensures { IsTrue result ↔ (bytes_in self.now ≡ []) }
    {
        self.start == self.end
    }

    pub(crate) fn is_full(&self) -> bool
        ensures { IsTrue result ↔ (room_in self.now ≡ 0) }
    {
        self.end == N
    }

    /// How many more bytes fit.
    pub(crate) fn room(&self) -> usize
        ensures { result ≡ room_in self.now }
    {
        N - self.end
    }

    /// Removes and returns the first byte.
    pub(crate) fn next_byte(&mut self) -> Option<u8>
        ensures byte { bytes_in self.old ≡ option_to_list result ++ bytes_in self.new }
        ensures none { IsNone result ↔ (bytes_in self.old ≡ []) }
        ensures piece { piece_in self.new ≡ piece_in self.old }
    {
        let first = *self.as_slice().first()?;
        self.start += 1;
        Some(first)
    }

    /// Removes the first `amount` bytes.
    pub(crate) fn consume(&mut self, amount: usize)
        requires { amount ≤ length (bytes_in self.old) }
        ensures { bytes_in self.new ≡ drop amount (bytes_in self.old) }
    {
        self.start += amount;
    }

    /// Fills the buffer by one read.
    #[tactic(auto, using(crate::proofs::KnownLemmas::on_known))]
    pub(crate) fn fill_from<R: Read>(
        &mut self,
        reader: &mut Recorded<R>,
    ) -> Result<(), DeviceFailed>
        ensures bytes { Consumes (R.remaining (inner_of reader.old))
            (R.remaining (inner_of reader.new)) (bytes_in self.new) }
        ensures took { took reader.new ≡ took reader.old ++ bytes_in self.new }
        ensures end { OnOk result
            (bytes_in self.new ≡ [] → 0 < N → IsAtEnd (R.remaining (inner_of reader.new))) }
        ensures err { OnErr result (bytes_in self.new ≡ []) }
        ensures tries { Tries move_interrupted (calls_of reader.old) (calls_of reader.new)
            (Answers (Moves (Ok (bytes_in self.new))) IsReadFailure result) }
        ensures piece { piece_in self.new ≡ bytes_in self.new }
    {
        self.start = 0;
        self.end = 0;
        self.end = read_retrying(reader, &mut self.bytes)?;
        Ok(())
    }

    /// Appends as many of the bytes as fit, and returns their number.
    pub(crate) fn append(&mut self, bytes: &[u8]) -> usize
        ensures bytes { bytes_in self.new ≡ bytes_in self.old ++ take result bytes.now }
        ensures count { result ≡ min (length bytes.now) (room_in self.old) }
        ensures room { room_in self.new ≡ room_in self.old - result }
    {
        let end = self.end;
        let count = bytes.len().min(N - end);
        let all = &mut self.bytes[..];
        all[end..end + count].copy_from_slice(&bytes[..count]);
        self.end = end + count;
        count
    }

    /// Sends all bytes. After a failure the unsent ones remain.
    #[tactic(auto, using(crate::proofs::NotesLemmas::on_notes))]
    pub(crate) fn send_to<W: Write>(&mut self, writer: &mut Recorded<W>) -> Result<(), DeviceFailed>
        ensures bytes { took writer.new ++ bytes_in self.new
            ≡ took writer.old ++ bytes_in self.old }
        ensures writer { Notes W.contents writer.old writer.new }
        ensures sent { OnOk result (bytes_in self.new ≡ []) }
        ensures room { OnOk result (room_in self.new ≡ N) }
        ensures cause { OnErr result
            (EndsWithCall IsWriteFailure (calls_of writer.old) (calls_of writer.new)) }
    {
        while self.start < self.end {
            let count = write_retrying(writer, self.as_slice())?;
            self.start += count;
        }
        self.start = 0;
        self.end = 0;
        Ok(())
    }
}
