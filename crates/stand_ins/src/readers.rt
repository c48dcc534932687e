//! A reader over a list of keys and pasted texts.

ghost use Rattle.std.specs.Prelude.{◌≡◌, IsTrue};
ghost use Rattle.stand_ins.specs.Typing.{refusal_after, key_list_refusal, is_key_list_refusal};

use line_config::ReadlineError;
use line_keys::tty::Event as Report;
use line_keys::{Cmd, KeyCode, KeyEvent, Modifiers, RawReader, Text};
use std::alloc::Global;

/// An item that a test types.
#[derive(Drop)]
pub enum Typed {
    Key(KeyEvent),
    Paste(Text),
}

/// What follows the items that a test types.
#[derive(Clone, Copy)]
pub enum After {
    /// The end of the input.
    End,
    /// Bytes that are no character.
    Bad,
    /// A failing source.
    Failed,
}

impl After {
    fn refusal(self) -> ReadlineError
        ensures { result ≡ refusal_after self }
    {
        match self {
            After::End => ReadlineError::Eof,
            After::Bad => ReadlineError::NotUtf8,
            After::Failed => ReadlineError::Reader,
        }
    }
}

/// Gives keys and pasted texts in order.
#[derive(Drop)]
pub struct KeyList<'t> {
    typed: &'t [Typed],
    /// A cut-off pasted text is announced after the list.
    cut: bool,
    after: After,
    refused: Option<ReadlineError>,
    ghost lasting: { IsTrue (is_key_list_refusal refused) },
}

impl<'t> KeyList<'t> {
    ghost use Rattle.line_keys.specs.KeyFeeds.{IsReaderRefusal};
    ghost use Rattle.stand_ins.specs.Reading.{key_list_coming};
    ghost use Rattle.stand_ins.specs.Typing.{coming_after};

    pub fn new(typed: &'t [Typed], cut: bool, after: After) -> Self
        ensures { key_list_coming result ≡ coming_after typed.now cut after }
    {
        KeyList {
            typed,
            cut,
            after,
            refused: None,
        }
    }

    /// The items that were not read yet.
    pub fn left(&self) -> &[Typed]
        ensures { result.now ≡ self.now.typed.now }
    {
        self.typed
    }

    // Keeps an error, unless it is the end of the input.
    fn refuse(&mut self, why: ReadlineError) -> ReadlineError
        requires { IsReaderRefusal why }
        ensures why { result ≡ why }
        ensures typed { self.new.typed ≡ self.old.typed }
        ensures cut { self.new.cut ≡ self.old.cut }
        ensures after { self.new.after ≡ self.old.after }
        ensures refused { self.new.refused ≡ key_list_refusal why self.old.refused }
    {
        match why {
            ReadlineError::Eof => {}
            _ => self.refused = Some(why),
        }
        why
    }
}

impl RawReader for KeyList<'_> {
    ghost use Rattle.std.specs.Prelude.{None, ⊤};
    ghost use Rattle.stand_ins.specs.Reading.{key_list_feed};

    type Buffer = u8;

    ghost feed = { key_list_feed };

    ghost asked = { λ s r t. ⊤ };

    ghost kept = { λ _. None };

    fn next_key(&mut self, _: bool) -> Result<KeyEvent, ReadlineError> {
        if let Some(why) = self.refused {
            return Err(why);
        }
        match self.typed {
            [Typed::Key(key), rest @ ..] => {
                self.typed = rest;
                Ok(*key)
            }
            [Typed::Paste(_), ..] => Err(self.refuse(ReadlineError::PasteOutOfPlace)),
            [] if self.cut => Err(self.refuse(ReadlineError::PasteOutOfPlace)),
            [] => Err(self.refuse(self.after.refusal())),
        }
    }

    #[tactic(auto, using(line_keys::proofs::KeyReads::made_of_read, line_keys::proofs::KeyReads::not_made))]
    fn wait_for_input(&mut self, single_esc_abort: bool) -> Result<Report, ReadlineError> {
        let key = self.next_key(single_esc_abort)?;
        Ok(Report::KeyPress(key))
    }

    fn next_char(&mut self) -> Result<char, ReadlineError> {
        match self.next_key(false)? {
            KeyEvent(KeyCode::Char(c), Modifiers::NONE) => Ok(c),
            _ => Err(self.refuse(ReadlineError::NotUtf8)),
        }
    }

    fn read_pasted_text(&mut self, alloc: Global) -> Result<Text, ReadlineError> {
        if let Some(why) = self.refused {
            return Err(why);
        }
        match self.typed {
            [Typed::Paste(text), rest @ ..] => {
                self.typed = rest;
                match text.try_clone(alloc) {
                    Ok(copy) => Ok(copy),
                    Err(why) => Err(self.refuse(why)),
                }
            }
            [] if self.cut => {
                self.cut = false;
                Err(self.refuse(self.after.refusal()))
            }
            _ => Err(self.refuse(ReadlineError::PasteOutOfPlace)),
        }
    }

    fn find_binding(&self, key: &KeyEvent) -> Option<Cmd> {
        match *key {
            KeyEvent(KeyCode::Char('C' | '\\'), Modifiers::CTRL) => Some(Cmd::Interrupt),
            KeyEvent(KeyCode::Char('D'), Modifiers::CTRL) => Some(Cmd::EndOfFile),
            KeyEvent(KeyCode::Char('Z'), Modifiers::CTRL) => Some(Cmd::Suspend),
            _ => None,
        }
    }

    fn unbuffer(self) -> Option<u8> {
        None
    }
}
