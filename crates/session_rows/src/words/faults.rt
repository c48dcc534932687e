//! Devices that fail as the words of a setting say. `lines@3` is the fourth call of the sink of
//! lines, counted over writes and flushes, which takes half of its bytes. With `lines@once` it
//! takes nothing at all. The same holds for `display`, and for `text`, which is the history's.
//! `keys@3` fails after three bytes, and `keys@end` after all.

ghost use Rattle.std.specs.Prelude.{◌≡◌, false};

use crate::words::notation::after;
use line_config::Sink;
use stand_ins::sinks::FailingSink;

/// A sink that takes nothing, and a source that fails after its last byte.
const AT_ONCE: usize = usize::MAX;

/// At which call each device fails, counted from 0.
#[derive(Clone, Copy)]
pub struct Faults {
    pub keys: Option<usize>,
    pub display: Option<usize>,
    pub lines: Option<usize>,
    /// The sink of the history's text.
    pub text: Option<usize>,
}

impl Faults {
    /// No device fails.
    pub const NONE: Faults = Faults {
        keys: None,
        display: None,
        lines: None,
        text: None,
    };

    /// Whether a sink fails.
    pub fn are_of_a_sink(&self) -> bool {
        self.display.is_some() || self.lines.is_some() || self.text.is_some()
    }
}

fn fault_after(words: &str, beginning: &str) -> Option<usize> {
    let call = after(words, beginning)?;
    Some(call.parse().unwrap_or(AT_ONCE))
}

/// The faults that the words of a setting name.
pub fn faults_of(words: &str) -> Faults {
    Faults {
        keys: fault_after(words, "keys@"),
        display: fault_after(words, "display@"),
        lines: fault_after(words, "lines@"),
        text: fault_after(words, "text@"),
    }
}

/// A sink that fails at this call, or never.
pub fn sink_of(fault: Option<usize>) -> FailingSink
    ensures { ⟦<FailingSink as Sink>⟧.has_failed result ≡ false }
{
    match fault {
        Some(AT_ONCE) => FailingSink::with_room(0),
        Some(call) => FailingSink::failing_at(call),
        None => FailingSink::with_room(usize::MAX),
    }
}
