//! Errors: why a call of the editor gives no result.
ghost use Rattle.std.specs.Prelude.{◌≡◌, Some};
ghost use Rattle.line_config.specs.Refusals.{refusal_text};
ghost use Rattle.line_config.specs.declared.errors.HookFault.TheVariants.{Memory as HookMemory};
ghost use Rattle.line_config.specs.declared.errors.ReadlineError.TheVariants.{Memory};

use line_buffer::OutOfMemory;
use std::alloc::{AllocError, AllocFailed};
use std::{error, fmt};
use thiserror::Error;

/// Why no line is returned.
///
/// The first four come from the input; the others are faults of a device, a helper, a handler or
/// memory. After `NotUtf8`, `PasteOutOfPlace` or a device's fault, each later call of the reader or
/// of the device returns the same error.
#[derive(Clone, Copy, Debug, PartialEq, Eq)]
pub enum ReadlineError {
    /// The input ended, or the end-of-file command came on an empty line.
    Eof,
    /// The interrupt command came.
    Interrupted,
    /// The input isn't UTF-8 (RFC 3629) where a character is expected, or a row of a word list
    /// isn't.
    NotUtf8,
    /// Text was pasted where no command expects it.
    PasteOutOfPlace,
    /// A source failed: the input, or the text of a history.
    Reader,
    /// The display failed.
    Display,
    /// The sink of the accepted lines failed.
    Lines,
    /// The sink of the history's text failed, or the history to load isn't UTF-8.
    HistoryText,
    /// A helper returned a failure.
    Helper,
    /// A handler of a key sequence returned a failure.
    Handler,
    /// An allocation failed, or a helper or a handler ran out of memory.
    Memory,
}

impl ReadlineError {
    /// The message of the error.
    pub fn text(self) -> &'static str
        ensures { result.now ≡ refusal_text self }
    {
        match self {
            ReadlineError::Eof => "EOF",
            ReadlineError::Interrupted => "Interrupted",
            ReadlineError::NotUtf8 => "input is not UTF-8",
            ReadlineError::PasteOutOfPlace => "paste out of place",
            ReadlineError::Reader => "input failed",
            ReadlineError::Display => "display failed",
            ReadlineError::Lines => "line output failed",
            ReadlineError::HistoryText => "history text failed",
            ReadlineError::Helper => "helper failed",
            ReadlineError::Handler => "handler failed",
            ReadlineError::Memory => "out of memory",
        }
    }
}

impl fmt::Display for ReadlineError {
    ghost output = { λ refusal. Some (refusal_text refusal) };

    fn fmt<W: fmt::Write>(&self, f: &mut fmt::Formatter<W>) -> fmt::Result {
        f.write_str(self.text())
    }
}

impl error::Error for ReadlineError {}

impl From<AllocError> for ReadlineError {
    ghost from_gives = { λ _ e. e ≡ Memory };

    fn from(_: AllocError) -> Self {
        ReadlineError::Memory
    }
}

impl<T: Drop> From<AllocFailed<T>> for ReadlineError {
    ghost from_gives = { λ _ e. e ≡ Memory };

    fn from(_: AllocFailed<T>) -> Self {
        ReadlineError::Memory
    }
}

impl From<OutOfMemory> for ReadlineError {
    ghost from_gives = { λ _ e. e ≡ Memory };

    fn from(_: OutOfMemory) -> Self {
        ReadlineError::Memory
    }
}

/// Why a helper or a handler of a key sequence has no answer.
#[derive(Clone, Copy, Debug, PartialEq, Eq, Error)]
pub enum HookFault {
    /// It failed.
    #[error("hook failed")]
    Failed,
    /// An allocation failed.
    #[error("out of memory")]
    Memory,
}

impl From<AllocError> for HookFault {
    ghost from_gives = { λ _ e. e ≡ HookMemory };

    fn from(_: AllocError) -> Self {
        HookFault::Memory
    }
}

impl<T: Drop> From<AllocFailed<T>> for HookFault {
    ghost from_gives = { λ _ e. e ≡ HookMemory };

    fn from(_: AllocFailed<T>) -> Self {
        HookFault::Memory
    }
}

impl From<OutOfMemory> for HookFault {
    ghost from_gives = { λ _ e. e ≡ HookMemory };

    fn from(_: OutOfMemory) -> Self {
        HookFault::Memory
    }
}
