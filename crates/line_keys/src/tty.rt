//! The terminal's input: keys.

ghost use Rattle.std.specs.Prelude.{◌≡◌, Option};
ghost use Rattle.line_keys.specs.KeyFeeds.{from_key_at, key_at, paste_at};
ghost use Rattle.line_keys.specs.KeyFeeds.{KeyFeed, Key, Paste, ReadsBy, SomeRead};
ghost use Rattle.line_keys.specs.Requests.{Asked, NextKey, WaitForInput, NextChar, PastedText};
ghost use Rattle.line_keys.specs.Common.{signal_of};

use crate::command::Cmd;
use crate::key::KeyEvent;
use crate::texts::Text;
use line_config::ReadlineError;
use std::alloc::Global;

/// A report of a terminal.
#[derive(Clone, Copy, Debug, PartialEq, Eq)]
pub enum Event {
    KeyPress(KeyEvent),
}

/// A source of keys and pasted texts.
///
/// `feed` is what is known of it. If it is `told`, the bytes given so far agree with those assumed,
/// and `coming` is what remains of these. So the answer of a call is known if the reader is told
/// after the call. `bound` falls with each key and each paste, so every loop that reads ends.
/// `reason` is what has happened to the reader if a call fails. `kept` is what it has read ahead.
///
/// `asked` is what the reader says of each request: from which state it leads to which. A reader
/// that says nothing of it holds each of them for possible.
///
/// Any error other than the end of input is final: every later call returns it again.
pub trait RawReader {
    /// What `unbuffer` returns.
    type Buffer;

    ghost feed: { Self → KeyFeed };

    ghost asked: { Asked Self };

    ghost kept: { Self → Option Self.Buffer };

    /// The next key. `single_esc_abort` tells a reader that waits for the rest of a sequence not to
    /// wait after Esc.
    ///
    /// If a pasted text was announced and not read, the error is `PasteOutOfPlace` and nothing is
    /// read.
    fn next_key(&mut self, single_esc_abort: bool) -> Result<KeyEvent, ReadlineError>
        ensures reads { ReadsBy Key key_at (feed self.old) (feed self.new) result }
        ensures asks { asked self.old (NextKey single_esc_abort) self.new };

    /// The next report of the terminal: a key.
    fn wait_for_input(&mut self, single_esc_abort: bool) -> Result<Event, ReadlineError>
        ensures reads { ReadsBy Key (from_key_at Event.KeyPress)
            (feed self.old) (feed self.new) result }
        ensures asks { asked self.old (WaitForInput single_esc_abort) self.new };

    /// The next character, whatever key it would belong to. Each reader says for itself what
    /// remains after it.
    fn next_char(&mut self) -> Result<char, ReadlineError>
        ensures reads { SomeRead (feed self.old) (feed self.new) result }
        ensures asks { asked self.old NextChar self.new };

    /// The text that the key `BracketedPasteStart` announced. It must be read right after that key;
    /// at any other time the error is `PasteOutOfPlace` and nothing is read.
    fn read_pasted_text(&mut self, alloc: Global) -> Result<Text, ReadlineError>
        ensures reads { ReadsBy Paste paste_at (feed self.old) (feed self.new) result }
        ensures asks { asked self.old PastedText self.new };

    /// The command of a key that a terminal would turn into a signal or the end of input.
    fn find_binding(&self, key: &KeyEvent) -> Option<Cmd>
        ensures { result ≡ signal_of key.now };

    /// Consumes the reader, and returns what it had read ahead.
    fn unbuffer(self) -> Option<Self::Buffer>
        ensures { result ≡ kept self };
}
