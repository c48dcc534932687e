//! Devices over std's readers and writers, each with a fixed array.
ghost use Rattle.std.specs.Prelude.{◌≡◌, ◌++◌, ◌+◌, ◌^◌, ◌≤◌, ◌<◌, [], false, length, take, drop, is_err, is_some, IsErr, IsTrue, Ok, Some, None, IfOk, OnOk, OnErr};
ghost use Rattle.std.specs.Io.KnownBytes.{Appends};
ghost use Rattle.line_config.specs.Sending.{AppendsSome, TakesBytes};
ghost use Rattle.line_config.specs.Parts.{Notes, bytes_in, room_in, took};
ghost use Rattle.line_config.specs.DeviceCalls.{EndsWithCall, IsFlush, IsWriteFailure};
ghost use Rattle.line_config.specs.Feed.{Fills, GivesByte, GivesBytes};
ghost use Rattle.line_config.specs.declared.device.Last.TheVariants.{End, Failed};

use crate::buffer::Buffer;
use crate::device::{DeviceFailed, Last, Sink, Source};
use crate::foretold::Foretold;
use crate::recorded::Recorded;
use crate::retry::flush_retrying;
use std::io::{Read, Write};
use std::marker::{Brand, PhantomData};

/// The most bytes that a `ReadSource` takes from one read.
pub const READ_SIZE: usize = 4096;

/// The number of bytes that a `WriteSink` buffers before it sends them.
pub const WRITE_SIZE: usize = 4096;

const MOST_BYTES: u64 = 0x7FFF_FFFF_FFFF_F000;

/// A source over std's `Read`, whose bytes are assumed to be those of `K`.
///
/// It reads only when its buffer is empty, and then once, so buffered bytes are given before more
/// are read. An interrupted read is repeated; any other error of the reader is a failure. After the
/// end or a failure it doesn't read again. After more than 2^63 - 4,096 bytes it fails.
#[derive(Drop)]
pub struct ReadSource<R, K = Brand> {
    reader: Recorded<R>,
    unread: Buffer<READ_SIZE>,
    met: Option<Last>,
    count: u64,
    said: PhantomData<K>,
    pub ghost emptied: { met ≡ Some Failed → bytes_in unread ≡ [] },
    pub ghost counted: { count ≡ length (took reader) },
}

impl<R: Read> ReadSource<R, Brand> {
    ghost use Rattle.line_config.specs.Adapters.{IsUnread};

    /// A source that gives the bytes of the reader.
    pub fn new(reader: R) -> Self
        ensures reader { IsUnread reader result }
        ensures bound { (⟦<ReadSource<R, Brand> as Source>⟧.feed result).bound ≡ 2 ^ 63 }
        ensures fresh { (⟦<ReadSource<R, Brand> as Source>⟧.feed result).failed ≡ false }
    {
        ReadSource::foretold(reader)
    }
}

impl<R: Read, K: Foretold<R>> ReadSource<R, K> {
    ghost use Rattle.line_config.specs.Adapters.{AsksReader, ReadsOnce, IsUnread, reader_of, bytes_not_given, source_feed};

    /// A source that gives the bytes of the reader, of which `K` says what is assumed.
    pub fn foretold(reader: R) -> Self
        ensures reader { IsUnread reader result }
        ensures bound { (⟦<ReadSource<R, K> as Source>⟧.feed result).bound ≡ 2 ^ 63 }
        ensures fresh { (⟦<ReadSource<R, K> as Source>⟧.feed result).failed ≡ false }
    {
        ReadSource {
            reader: Recorded::new(reader),
            unread: Buffer::new(),
            met: None,
            count: 0,
            said: PhantomData,
        }
    }

    /// The reader, and the bytes that were read from it but not given yet.
    pub fn into_parts(self) -> (R, Buffer<READ_SIZE>)
        ensures reader { result.0 ≡ reader_of self }
        ensures unread { bytes_in result.1 ≡ bytes_not_given self }
    {
        (self.reader.into_inner(), self.unread)
    }

    // Reads once, unless the end or a failure was met.
    fn fill(&mut self)
        requires { bytes_not_given self.old ≡ [] }
        ensures reader { AsksReader R.remaining [] self.old self.new }
        ensures told { Fills (source_feed K.told K.left K.last self.old)
            (source_feed K.told K.left K.last self.new) (bytes_not_given self.new) self.new.met }
        ensures once { ReadsOnce self.old self.new }
        ensures met { bytes_not_given self.new ≡ [] → IsTrue (is_some self.new.met) }
    {
        if self.met.is_some() {
            return;
        }
        if self.count > MOST_BYTES {
            self.met = Some(Last::Failed);
            return;
        }
        match self.unread.fill_from(&mut self.reader) {
            Ok(()) => {
                self.count += self.unread.as_slice().len() as u64;
                if self.unread.is_empty() {
                    self.met = Some(Last::End);
                }
            }
            Err(DeviceFailed) => self.met = Some(Last::Failed),
        }
    }

    fn get_ready(&mut self)
        ensures reader { AsksReader R.remaining [] self.old self.new }
        ensures told { Fills (source_feed K.told K.left K.last self.old)
            (source_feed K.told K.left K.last self.new) (bytes_not_given self.new) self.new.met }
        ensures once { ReadsOnce self.old self.new }
        ensures met { bytes_not_given self.new ≡ [] → IsTrue (is_some self.new.met) }
    {
        if self.unread.is_empty() {
            self.fill();
        }
    }
}

impl<R: Read, K: Foretold<R>> Source for ReadSource<R, K> {
    ghost use Rattle.line_config.specs.Adapters.{AsksReader, ReadsOnce, gave, byte_given_by, source_feed, bytes_not_given};

    ghost feed = { λ s. source_feed K.told K.left K.last s };

    ghost buffered = { bytes_not_given };

    fn next_byte(&mut self) -> Result<Option<u8>, DeviceFailed>
        ensures byte { GivesByte (source_feed K.told K.left K.last self.old)
            (source_feed K.told K.left K.last self.new) result }

        // The byte is the next one that was read. The end or a failure that a read met is returned
        // once no byte is left.
        ensures reader { AsksReader R.remaining (byte_given_by result) self.old self.new }
        ensures end { result ≡ Ok None → (bytes_not_given self.new ≡ []) ×
            (self.new.met ≡ Some End) }
        ensures fault { OnErr result
            ((bytes_not_given self.new ≡ []) × (self.new.met ≡ Some Failed)) }
        ensures once { ReadsOnce self.old self.new }
    {
        self.get_ready();
        match (self.unread.next_byte(), self.met) {
            (Some(byte), _) => Ok(Some(byte)),
            (None, Some(Last::Failed)) => Err(DeviceFailed),
            (None, _) => Ok(None),
        }
    }

    fn buffer(&self) -> &[u8] {
        self.unread.as_slice()
    }

    fn consume(&mut self, amount: usize)
        requires { amount ≤ length (bytes_not_given self.old) }
        ensures bytes { GivesBytes (source_feed K.told K.left K.last self.old)
            (source_feed K.told K.left K.last self.new) (take amount (bytes_not_given self.old)) }

        // No read is made.
        ensures unread { bytes_not_given self.new ≡ drop amount (bytes_not_given self.old) }
        ensures gave { gave self.new ≡ gave self.old }
        ensures met { self.new.met ≡ self.old.met }
        ensures reader { self.new.reader ≡ self.old.reader }
    {
        self.unread.consume(amount);
    }

    fn failed(&self) -> bool {
        matches!(self.met, Some(Last::Failed))
    }
}

/// A sink over std's `Write`.
///
/// Written bytes are buffered in a fixed array. They are sent when the array is full and at a
/// flush, so a drawing between two flushes is mostly one system write. An interrupted call is
/// repeated; any other error of the writer is a failure, and so is a write that takes nothing.
#[derive(Drop)]
pub struct WriteSink<W> {
    writer: Recorded<W>,
    unsent: Buffer<WRITE_SIZE>,
    failed: bool,
}

impl<W: Write> WriteSink<W> {
    ghost use Rattle.line_config.specs.Adapters.{IsUnused, writer_of, bytes_not_sent, bytes_taken};
    ghost use Rattle.line_config.specs.Parts.{calls_of};

    /// A sink that sends to the writer.
    pub fn new(writer: W) -> Self
        ensures writer { IsUnused W.contents writer result }
        ensures fresh { ⟦<WriteSink<W> as Sink>⟧.has_failed result ≡ false }
    {
        WriteSink {
            writer: Recorded::over_writer(writer),
            unsent: Buffer::new(),
            failed: false,
        }
    }

    /// The writer, and the bytes that were taken but not sent to it yet.
    pub fn into_parts(self) -> (W, Buffer<WRITE_SIZE>)
        ensures writer { result.0 ≡ writer_of self }
        ensures unsent { bytes_in result.1 ≡ bytes_not_sent self }
    {
        (self.writer.into_inner(), self.unsent)
    }

    // Buffers as many of the bytes as fit, and returns their number. If the buffer is full, it is
    // sent first.
    fn gather(&mut self, bytes: &[u8]) -> Result<usize, DeviceFailed>
        ensures ok { IfOk result
            (λ n. TakesBytes bytes_taken self.old self.new (take n bytes.now)) }
        ensures err { OnErr result (bytes_taken self.new ≡ bytes_taken self.old) }
        ensures writer { Notes W.contents self.old.writer self.new.writer }
        ensures bound { IfOk result (λ n. n ≤ length bytes.now) }
        ensures some { IfOk result (λ n. 0 < length bytes.now → 0 < n) }
        ensures room { IfOk result (λ n. room_in self.old.unsent ≤ room_in self.new.unsent + n) }
        ensures refused { OnErr result (room_in self.old.unsent ≡ 0) }
        ensures cause { OnErr result (EndsWithCall IsWriteFailure
            (calls_of self.old.writer) (calls_of self.new.writer)) }
        ensures waiting { 0 < room_in self.old.unsent → self.new.writer ≡ self.old.writer }
    {
        if self.unsent.is_full() {
            self.unsent.send_to(&mut self.writer)?;
        }
        Ok(self.unsent.append(bytes))
    }

    #[inline(never)]
    fn gather_pieces(&mut self, bytes: &[u8]) -> Result<(), DeviceFailed>
        ensures ok { OnOk result (TakesBytes bytes_taken self.old self.new bytes.now) }
        ensures begins { AppendsSome (bytes_taken self.old) bytes.now (bytes_taken self.new) }
        ensures writer { Notes W.contents self.old.writer self.new.writer }
        ensures refused { OnErr result (room_in self.old.unsent < length bytes.now) }
        ensures cause { OnErr result (EndsWithCall IsWriteFailure
            (calls_of self.old.writer) (calls_of self.new.writer)) }
        ensures waiting { length bytes.now ≤ room_in self.old.unsent
            → self.new.writer ≡ self.old.writer }
    {
        let mut rest = bytes;
        while !rest.is_empty() {
            let count = self.gather(rest)?;
            rest = &rest[count..];
        }
        Ok(())
    }

    // Buffers all bytes. Those that fit, as most do, are one copy.
    fn gather_all(&mut self, bytes: &[u8]) -> Result<(), DeviceFailed>
        ensures ok { OnOk result (TakesBytes bytes_taken self.old self.new bytes.now) }
        ensures begins { AppendsSome (bytes_taken self.old) bytes.now (bytes_taken self.new) }
        ensures writer { Notes W.contents self.old.writer self.new.writer }
        ensures refused { OnErr result (room_in self.old.unsent < length bytes.now) }
        ensures cause { OnErr result (EndsWithCall IsWriteFailure
            (calls_of self.old.writer) (calls_of self.new.writer)) }
        ensures waiting { length bytes.now ≤ room_in self.old.unsent
            → self.new.writer ≡ self.old.writer }
    {
        if bytes.len() <= self.unsent.room() {
            self.unsent.append(bytes);
            return Ok(());
        }
        self.gather_pieces(bytes)
    }

    // Sends the buffered bytes, and flushes the writer.
    #[tactic(auto, using(crate::proofs::NotesLemmas::on_notes))]
    fn send(&mut self) -> Result<(), DeviceFailed>
        ensures takes { bytes_taken self.new ≡ bytes_taken self.old }
        ensures sent { OnOk result (bytes_not_sent self.new ≡ []) }
        ensures writer { Notes W.contents self.old.writer self.new.writer }
        ensures flushed { OnOk result (EndsWithCall IsFlush (calls_of self.old.writer)
            (calls_of self.new.writer)) }
        ensures cause { OnErr result (EndsWithCall IsWriteFailure
            (calls_of self.old.writer) (calls_of self.new.writer)) }
    {
        self.unsent.send_to(&mut self.writer)?;
        flush_retrying(&mut self.writer)
    }
}

impl<W: Write> Sink for WriteSink<W> {
    ghost use Rattle.line_config.specs.Adapters.{writer_of, bytes_sent, bytes_not_sent, bytes_taken};
    ghost use Rattle.line_config.specs.Parts.{calls_of};

    ghost held = { bytes_taken };

    ghost waits = { bytes_not_sent };

    ghost has_failed = { λ s. s.failed };

    fn write(&mut self, bytes: &[u8]) -> Result<(), DeviceFailed>
        ensures ok { OnOk result (bytes_taken self.new ≡ bytes_taken self.old ++ bytes.now) }
        ensures begins { AppendsSome (bytes_taken self.old) bytes.now (bytes_taken self.new) }
        ensures failure { self.new.failed ≡ is_err result }
        ensures for_good { IsTrue self.old.failed → IsErr result }

        // If the writer reports its bytes, it has taken what its writes are noted to have taken.
        ensures writer { Notes W.contents self.old.writer self.new.writer }

        // Bytes that fit into the array are buffered: the writer isn't called, so nothing can fail.
        ensures refused { OnErr result (self.old.failed ≡ false
            → room_in self.old.unsent < length bytes.now) }
        ensures waiting { length bytes.now ≤ room_in self.old.unsent
            → self.new.writer ≡ self.old.writer }

        // It fails if the writer's last call failed, and then for good: it makes no more calls.
        ensures cause { OnErr result (self.old.failed ≡ false
            → EndsWithCall IsWriteFailure (calls_of self.old.writer) (calls_of self.new.writer)) }
        ensures rests { IsTrue self.old.failed → self.new ≡ self.old }
    {
        if self.failed {
            // It takes nothing more.
            return Err(DeviceFailed);
        }
        let gathered = self.gather_all(bytes);
        self.failed = gathered.is_err();
        gathered
    }

    #[tactic(auto, using(crate::proofs::NotesLemmas::on_notes))]
    fn flush(&mut self) -> Result<(), DeviceFailed>
        ensures held { bytes_taken self.new ≡ bytes_taken self.old }
        ensures failure { self.new.failed ≡ is_err result }
        ensures for_good { IsTrue self.old.failed → IsErr result }
        ensures writer { Notes W.contents self.old.writer self.new.writer }

        // Then the writer itself has all bytes, and the array none.
        ensures waits { OnOk result (bytes_not_sent self.new ≡ []) }
        ensures passed_on { OnOk result (bytes_sent self.new ≡ bytes_taken self.old) }
        ensures told { OnOk result (Appends (W.contents (writer_of self.old))
            (W.contents (writer_of self.new)) (bytes_not_sent self.old)) }
        ensures flushed { OnOk result (EndsWithCall IsFlush (calls_of self.old.writer)
            (calls_of self.new.writer)) }

        // It fails if the writer's last call failed, and then for good: it makes no more calls.
        ensures cause { OnErr result (self.old.failed ≡ false
            → EndsWithCall IsWriteFailure (calls_of self.old.writer) (calls_of self.new.writer)) }
        ensures rests { IsTrue self.old.failed → self.new ≡ self.old }
    {
        if self.failed {
            // Its writer isn't called again.
            return Err(DeviceFailed);
        }
        let sent = self.send();
        self.failed = sent.is_err();
        sent
    }

    fn failed(&self) -> bool {
        self.failed
    }
}
