//! How a session ends.

ghost use Rattle.std.specs.Prelude.{◌≡◌};
ghost use Rattle.line_config.specs.Refusals.{refusal_text};
ghost use Rattle.keyline.specs.SessionEffects.{status_of, error_of};

use line_config::ReadlineError;

/// Why a session ended.
#[derive(Clone, Copy, Debug, PartialEq, Eq)]
pub enum Ending {
    /// The input ended, or a key ended it on an empty line.
    Eof,
    /// A command interrupted the session.
    Interrupted,
    /// The input isn't UTF-8 (RFC 3629) where a character is expected.
    NotUtf8,
    /// Text was pasted where no command expects it.
    PasteOutOfPlace,
    /// The source of key bytes failed.
    Reader,
    /// The display failed.
    Display,
    /// The sink of accepted lines failed.
    Lines,
    /// The sink of the history's text failed, or a loaded text isn't UTF-8.
    HistoryText,
    /// A helper failed.
    Helper,
    /// A handler of a binding failed.
    Handler,
    /// An allocation failed.
    Memory,
}

impl Ending {
    /// The exit status of a program that ends with its session. It is 0 for the end of input, 130
    /// for an interruption (as in a shell), 3 and 4 for invalid input, and 1 for a fault.
    pub fn status(self) -> u8
        ensures { result ≡ status_of self }
    {
        match self {
            Ending::Eof => 0,
            Ending::Interrupted => 130,
            Ending::NotUtf8 => 3,
            Ending::PasteOutOfPlace => 4,
            _ => 1,
        }
    }

    /// The message of the ending: that of its error.
    pub fn text(self) -> &'static str
        ensures { result.now ≡ refusal_text (error_of self) }
    {
        self.error().text()
    }

    /// The error that has this ending.
    fn error(self) -> ReadlineError
        ensures { result ≡ error_of self }
    {
        match self {
            Ending::Eof => ReadlineError::Eof,
            Ending::Interrupted => ReadlineError::Interrupted,
            Ending::NotUtf8 => ReadlineError::NotUtf8,
            Ending::PasteOutOfPlace => ReadlineError::PasteOutOfPlace,
            Ending::Reader => ReadlineError::Reader,
            Ending::Display => ReadlineError::Display,
            Ending::Lines => ReadlineError::Lines,
            Ending::HistoryText => ReadlineError::HistoryText,
            Ending::Helper => ReadlineError::Helper,
            Ending::Handler => ReadlineError::Handler,
            Ending::Memory => ReadlineError::Memory,
        }
    }
}

impl From<ReadlineError> for Ending {
    ghost use Rattle.std.specs.Prelude.{◌≡◌};
    ghost use Rattle.keyline.specs.SessionEffects.{error_of};

    ghost from_gives = { λ refusal ending. error_of ending ≡ refusal };

    fn from(refusal: ReadlineError) -> Ending {
        match refusal {
            ReadlineError::Eof => Ending::Eof,
            ReadlineError::Interrupted => Ending::Interrupted,
            ReadlineError::NotUtf8 => Ending::NotUtf8,
            ReadlineError::PasteOutOfPlace => Ending::PasteOutOfPlace,
            ReadlineError::Reader => Ending::Reader,
            ReadlineError::Display => Ending::Display,
            ReadlineError::Lines => Ending::Lines,
            ReadlineError::HistoryText => Ending::HistoryText,
            ReadlineError::Helper => Ending::Helper,
            ReadlineError::Handler => Ending::Handler,
            ReadlineError::Memory => Ending::Memory,
        }
    }
}
