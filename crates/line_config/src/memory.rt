//! Devices in memory.
ghost use Rattle.std.specs.Prelude.{◌≡◌, ◌++◌, ◌+◌, ◌<◌, [], true, false, is_err, length, vec_capacity, vec_len, IsErr, IsTrue, OnErr, OnOk};
ghost use Rattle.line_config.specs.declared.device.Last.{Last};
ghost use Rattle.line_config.specs.declared.device.Last.TheVariants.{End, Failed};
ghost use Rattle.line_config.specs.Feed.{fresh_feed};

use crate::device::{DeviceFailed, Last, Sink, Source};
use std::alloc::Global;

/// A source over a slice.
#[derive(Drop)]
pub struct SliceSource<'a> {
    bytes: &'a [u8],
    last: Last,
    failed: bool,
    pub ghost spent: { IsTrue failed → bytes.now ≡ [] },
    pub ghost fails: { IsTrue failed → last ≡ Failed },
}

impl<'a> SliceSource<'a> {
    /// The bytes, then the end. It never fails.
    pub fn new(bytes: &'a [u8]) -> Self
        ensures { ⟦<SliceSource<'a> as Source>⟧.feed result ≡ fresh_feed bytes.entry.now End }
    {
        SliceSource {
            bytes,
            last: Last::End,
            failed: false,
        }
    }

    /// The bytes, then a failure.
    pub fn failing_after(bytes: &'a [u8]) -> Self
        ensures { ⟦<SliceSource<'a> as Source>⟧.feed result ≡ fresh_feed bytes.entry.now Failed }
    {
        SliceSource {
            bytes,
            last: Last::Failed,
            failed: false,
        }
    }
}

impl<'a> Source for SliceSource<'a> {
    ghost feed = { λ s. record {
      told = true;
      coming = s.bytes.now;
      last = s.last;
      bound = length s.bytes.now;
      failed = s.failed;
    } };

    ghost buffered = { λ s. s.bytes.now };

    fn next_byte(&mut self) -> Result<Option<u8>, DeviceFailed> {
        if let Some((first, rest)) = self.bytes.split_first() {
            self.bytes = rest;
            return Ok(Some(*first));
        }
        match self.last {
            Last::End => Ok(None),
            Last::Failed => {
                self.failed = true;
                Err(DeviceFailed)
            }
        }
    }

    fn buffer(&self) -> &[u8] {
        self.bytes
    }

    fn consume(&mut self, amount: usize) {
        self.bytes = &self.bytes[amount..];
    }

    fn failed(&self) -> bool {
        self.failed
    }
}

/// A sink that stores its bytes in memory. A failed allocation is its failure, for good; the bytes
/// before it stay.
#[derive(Drop)]
pub struct VecSink {
    bytes: Vec<u8>,
    failed: bool,
}

impl VecSink {
    /// An empty sink.
    pub fn new(alloc: Global) -> Self
        ensures empty { ⟦<VecSink as Sink>⟧.held result ≡ [] }
        ensures fresh { ⟦<VecSink as Sink>⟧.has_failed result ≡ false }
    {
        VecSink {
            bytes: Vec::new(alloc),
            failed: false,
        }
    }

    /// The bytes written so far.
    pub fn bytes(&self) -> &[u8]
        ensures { result.now ≡ ⟦<VecSink as Sink>⟧.held self.now }
    {
        &self.bytes
    }

    /// The bytes written so far; the sink is consumed.
    pub fn into_bytes(self) -> Vec<u8>
        ensures { result.items ≡ ⟦<VecSink as Sink>⟧.held self }
    {
        self.bytes
    }
}

impl Sink for VecSink {
    ghost held = { λ s. s.bytes.items };

    ghost waits = { λ _. [] };

    ghost has_failed = { λ s. s.failed };

    fn write(&mut self, bytes: &[u8]) -> Result<(), DeviceFailed>
        ensures ok { OnOk result (self.new.bytes.items ≡ self.old.bytes.items ++ bytes.now) }
        ensures err { OnErr result (self.new.bytes.items ≡ self.old.bytes.items) }
        ensures failure { self.new.failed ≡ is_err result }
        ensures for_good { IsTrue self.old.failed → IsErr result }
        ensures rests { IsTrue self.old.failed → self.new.bytes.items ≡ self.old.bytes.items }

        // It fails for the first time only if it must grow and the allocation fails.
        ensures refused { OnErr result (self.old.failed ≡ false
            → vec_capacity self.old.bytes < vec_len self.old.bytes + length bytes.now) }
    {
        if self.failed || self.bytes.extend_from_slice(bytes).is_err() {
            self.failed = true;
            return Err(DeviceFailed);
        }
        Ok(())
    }

    fn flush(&mut self) -> Result<(), DeviceFailed>
        ensures failed { is_err result ≡ self.old.failed }
        ensures same { self.new ≡ self.old }
    {
        if self.failed {
            Err(DeviceFailed)
        } else {
            Ok(())
        }
    }

    fn failed(&self) -> bool {
        self.failed
    }
}

/// A sink that takes nothing: it has failed from the start.
#[derive(Clone, Copy, Debug, Default)]
pub struct ClosedSink;

impl Sink for ClosedSink {
    ghost held = { λ _. [] };

    ghost waits = { λ _. [] };

    ghost has_failed = { λ _. true };

    fn write(&mut self, _bytes: &[u8]) -> Result<(), DeviceFailed> {
        Err(DeviceFailed)
    }

    fn flush(&mut self) -> Result<(), DeviceFailed> {
        Err(DeviceFailed)
    }

    fn failed(&self) -> bool {
        true
    }
}
