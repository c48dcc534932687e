//! A source for tests that fails when they say so.

ghost use Rattle.std.specs.Prelude.{◌≡◌, nat_lt, if◌then◌else◌, false, length, take, true, IsTrue, []};
ghost use Rattle.line_config.specs.declared.device.Last.TheVariants.{End, Failed};

use line_config::{DeviceFailed, Source};

/// A source over a slice that fails after so many bytes, unless it ends before.
#[derive(Drop)]
pub struct Faltering<'a> {
    bytes: &'a [u8],
    calls_left: usize,
    failed: bool,
    asked_again: bool,
    pub ghost spent: { IsTrue failed → calls_left ≡ 0 },
}

impl<'a> Faltering<'a> {
    /// A source that fails at the call with this number, counted from 0, unless it ends before.
    pub fn failing_at(bytes: &'a [u8], call: usize) -> Self
        ensures { (⟦<Faltering<'a> as Source>⟧.feed result).failed ≡ false }
    {
        Faltering {
            bytes,
            calls_left: call,
            failed: false,
            asked_again: false,
        }
    }

    /// The bytes that it has not given.
    pub fn left(&self) -> &'a [u8] {
        self.bytes
    }

    /// Whether it was called after it had failed.
    pub fn asked_again(&self) -> bool {
        self.asked_again
    }
}

impl Source for Faltering<'_> {
    ghost feed = { λ s. record {
      told = true;
      coming = take s.calls_left s.bytes.now;
      last = if nat_lt (length s.bytes.now) s.calls_left then End else Failed;
      bound = length s.bytes.now;
      failed = s.failed;
    } };

    ghost buffered = { λ s. [] };

    fn next_byte(&mut self) -> Result<Option<u8>, DeviceFailed> {
        if self.failed || self.calls_left == 0 {
            self.asked_again = self.failed;
            self.failed = true;
            return Err(DeviceFailed);
        }
        let Some((first, rest)) = self.bytes.split_first() else {
            return Ok(None);
        };
        self.calls_left -= 1;
        self.bytes = rest;
        Ok(Some(*first))
    }

    fn buffer(&self) -> &[u8] {
        &[]
    }

    fn consume(&mut self, _amount: usize) {}

    fn failed(&self) -> bool {
        self.failed
    }
}
