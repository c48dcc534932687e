//! Quoted insertion: the character of the next key.

ghost use Rattle.std.specs.Prelude.{◌≡◌};
ghost use Rattle.line_keys.specs.Common.{control_of, is_paste_start, quoted_command};

use crate::command::Cmd;
use crate::flags::Modifiers;
use crate::handler::Decides;
use crate::key::{KeyCode, KeyEvent};
use crate::keymap::InputState;
use crate::tty::RawReader;
use line_config::ReadlineError;
use std::alloc::Global;

impl<D: Decides> InputState<'_, D> {
    ghost use Rattle.line_keys.specs.InputStates.{input_of, custom_in, Follows, silent};
    ghost use Rattle.line_keys.specs.Common.{quote_part};
    ghost use Rattle.line_keys.specs.Requests.{AsksInOrder, IsLater};

    /// The insertion of the character of the next key, if the setting is on and text can be typed.
    /// A pasted text that the key announces is inserted instead.
    pub(crate) fn quoting<R: RawReader>(
        &self,
        alloc: Global,
        rdr: &mut R,
    ) -> Result<Cmd, ReadlineError>
        ensures phrase { let input = input_of self.now in
            Follows silent (custom_in self.now D.decides) (quote_part input)
            tt input tt input (R.feed rdr.old) (R.feed rdr.new) result }
        ensures asks { AsksInOrder R.asked IsLater rdr.old rdr.new }
    {
        if !self.modal_commands || self.is_vi_cmd_mode() {
            return Ok(Cmd::QuotedInsert);
        }
        let key = rdr.next_key(true)?;
        if is_paste_start(key) {
            let text = rdr.read_pasted_text(alloc)?;
            return Ok(Cmd::Insert(1, text));
        }
        Ok(quoted_command(key))
    }
}

/// Whether a key announces a pasted text.
fn is_paste_start(key: KeyEvent) -> bool
    ensures { result ≡ is_paste_start key }
{
    matches!(key, KeyEvent(KeyCode::BracketedPasteStart, Modifiers::NONE))
}

/// The command of a quoted key: its character, as it was sent, is inserted.
fn quoted_command(key: KeyEvent) -> Cmd
    ensures { result ≡ quoted_command key }
{
    match key {
        KeyEvent(KeyCode::Char(c), Modifiers::NONE) => Cmd::SelfInsert(1, c),
        KeyEvent(KeyCode::Char(c), Modifiers::CTRL) => control(c),
        KeyEvent(KeyCode::Tab, Modifiers::NONE) => Cmd::SelfInsert(1, '\t'),
        KeyEvent::ENTER => Cmd::SelfInsert(1, '\r'),
        KeyEvent::ESC => Cmd::SelfInsert(1, '\x1b'),
        KeyEvent::BACKSPACE => Cmd::SelfInsert(1, '\x7f'),
        _ => Cmd::Unknown,
    }
}

/// The control character that a character with Ctrl was sent as.
fn control(c: char) -> Cmd
    ensures { result ≡ control_of c }
{
    match c {
        '@'..='_' => Cmd::SelfInsert(1, char::from(c as u8 - 64)),
        _ => Cmd::Unknown,
    }
}
