//! The devices for input and output: the traits `Source` and `Sink`.
ghost use Rattle.std.specs.Prelude.{◌≡◌, ◌≤◌, ◌++◌, [], ℕ, Bool, List, IsTrue, OnOk, IsErr, is_err, length, take};
ghost use Rattle.line_config.specs.Feed.{Feed, GivesByte, GivesBytes};
ghost use Rattle.line_config.specs.Sending.{AppendsSome};

use thiserror::Error;

/// What follows the bytes of a source: the end, or a failure.
#[derive(Clone, Copy, Debug, PartialEq, Eq)]
pub enum Last {
    /// The end of the input.
    End,
    /// The source fails, for good.
    Failed,
}

/// The only error of a device. A device that has failed once fails at every later call.
#[derive(Clone, Copy, Debug, PartialEq, Eq, Error)]
#[error("device failed")]
pub struct DeviceFailed;

/// An input device that gives one byte at a time.
///
/// `feed` says which bytes it gives and what follows them. A source over memory gives exactly
/// these. For any other source they are assumed beforehand. `feed` then also says whether the bytes
/// given so far agree with the assumption, and promises hold only if they do.
pub trait Source {
    ghost feed: { Self → Feed };

    // The bytes that it can give without another read.
    ghost buffered: { Self → List ℕ };

    /// The next byte, or `None` at the end of the input. A source that has failed fails at every
    /// later call.
    fn next_byte(&mut self) -> Result<Option<u8>, DeviceFailed>
        ensures { GivesByte (feed self.old) (feed self.new) result };

    /// The next bytes that are available without another read; empty if the source doesn't buffer.
    fn buffer(&self) -> &[u8]
        ensures { result.now ≡ buffered self.now };

    /// Removes `amount` of the available bytes.
    fn consume(&mut self, amount: usize)
        requires { amount ≤ length (buffered self.old) }
        ensures { GivesBytes (feed self.old) (feed self.new) (take amount (buffered self.old)) };

    /// Whether the source has failed.
    fn failed(&self) -> bool
        ensures { result ≡ (feed self.now).failed };
}

/// An output device.
pub trait Sink {
    // The bytes taken so far.
    ghost held: { Self → List ℕ };

    // The buffered bytes: taken, and not passed on yet. Empty if the sink doesn't buffer.
    ghost waits: { Self → List ℕ };

    ghost has_failed: { Self → Bool };

    /// Takes all the bytes, or fails. A failed write may have taken some of them, from the front.
    fn write(&mut self, bytes: &[u8]) -> Result<(), DeviceFailed>
        ensures ok { OnOk result (held self.new ≡ held self.old ++ bytes.now) }
        ensures begins { AppendsSome (held self.old) bytes.now (held self.new) }

        // It fails if and only if it is marked as failed, and then for good.
        ensures failure { has_failed self.new ≡ is_err result }
        ensures for_good { IsTrue (has_failed self.old) → IsErr result }
        ensures rests { IsTrue (has_failed self.old) → held self.new ≡ held self.old };

    /// Passes on the buffered bytes.
    fn flush(&mut self) -> Result<(), DeviceFailed>
        ensures held { held self.new ≡ held self.old }
        ensures waits { OnOk result (waits self.new ≡ []) }
        ensures failure { has_failed self.new ≡ is_err result }
        ensures for_good { IsTrue (has_failed self.old) → IsErr result };

    /// Whether the sink has failed.
    fn failed(&self) -> bool
        ensures { result ≡ has_failed self.now };
}
