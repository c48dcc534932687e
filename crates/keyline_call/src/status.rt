//! How a call ends.

ghost use Rattle.std.specs.Prelude.{◌≡◌};
ghost use Rattle.keyline_call.specs.Statuses.{code_of, status_of_ending, is_open};
ghost use Rattle.keyline_call.specs.declared.status.CallStatus.TheVariants.{Memory};

use keyline::ReadlineError;
use line_buffer::OutOfMemory;
use std::alloc::{AllocError, AllocFailed};

/// The status of a call. `keyline.h` has the numbers.
#[derive(Clone, Copy, PartialEq, Eq)]
pub(crate) enum CallStatus {
    /// The line is complete.
    Line,
    /// More keys are wanted.
    More,
    /// The keys ended, or Ctrl-D was typed on an empty line.
    End,
    /// Ctrl-C.
    Interrupted,
    /// The keys aren't UTF-8 where a character is expected.
    NotUtf8,
    /// Text was pasted where no command expects it.
    PasteOutOfPlace,
    /// An argument is invalid.
    Argument,
    /// A buffer is too small; all lengths are returned.
    Room,
    /// An allocation failed.
    Memory,
    /// A key of the caller's own was typed.
    Asked,
}

impl CallStatus {
    pub(crate) fn code(self) -> u8
        ensures { result ≡ code_of self }
    {
        match self {
            CallStatus::Line => 0,
            CallStatus::More => 1,
            CallStatus::End => 2,
            CallStatus::Interrupted => 3,
            CallStatus::NotUtf8 => 4,
            CallStatus::PasteOutOfPlace => 5,
            CallStatus::Argument => 6,
            CallStatus::Room => 7,
            CallStatus::Memory => 8,
            CallStatus::Asked => 9,
        }
    }

    /// Whether the line continues.
    pub(crate) fn is_open(self) -> bool
        ensures { result ≡ is_open self }
    {
        matches!(self, CallStatus::More | CallStatus::Asked)
    }
}

/// How a line ends. The devices are in memory and no key is bound except those of the caller's own,
/// so any other failure is a failed allocation.
pub(crate) fn status_of<T>(outcome: &Result<T, ReadlineError>) -> CallStatus
    ensures { result ≡ status_of_ending outcome.now }
{
    match outcome {
        Ok(_) => CallStatus::Line,
        Err(ReadlineError::Reader) => CallStatus::More,
        Err(ReadlineError::Handler) => CallStatus::Asked,
        Err(ReadlineError::Eof) => CallStatus::End,
        Err(ReadlineError::Interrupted) => CallStatus::Interrupted,
        Err(ReadlineError::NotUtf8) => CallStatus::NotUtf8,
        Err(ReadlineError::PasteOutOfPlace) => CallStatus::PasteOutOfPlace,
        Err(_) => CallStatus::Memory,
    }
}

/// The texts are UTF-8 and all devices are in memory, so only an allocation fails.
impl From<ReadlineError> for CallStatus {
    ghost from_gives = { λ _ status. status ≡ Memory };

    fn from(_: ReadlineError) -> CallStatus {
        CallStatus::Memory
    }
}

impl From<AllocError> for CallStatus {
    ghost from_gives = { λ _ status. status ≡ Memory };

    fn from(_: AllocError) -> CallStatus {
        CallStatus::Memory
    }
}

impl<T: Drop> From<AllocFailed<T>> for CallStatus {
    ghost from_gives = { λ _ status. status ≡ Memory };

    fn from(_: AllocFailed<T>) -> CallStatus {
        CallStatus::Memory
    }
}

impl From<OutOfMemory> for CallStatus {
    ghost from_gives = { λ _ status. status ≡ Memory };

    fn from(_: OutOfMemory) -> CallStatus {
        CallStatus::Memory
    }
}
