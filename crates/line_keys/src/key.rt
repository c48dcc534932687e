//! Keys, as the key tables and bindings name them.

ghost use Rattle.std.specs.Prelude.{◌≡◌};
ghost use Rattle.line_keys.specs.Keys.{key_of, normal, ctrl, alt, none};

use crate::flags::Modifiers;

/// A key without its modifiers.
#[derive(Clone, Copy, Debug, PartialEq, Eq, Hash)]
pub enum KeyCode {
    /// A character sequence that starts like a key and is none.
    UnknownEscSeq,
    Backspace,
    /// Tab with Shift.
    BackTab,
    /// The start of a pasted text.
    BracketedPasteStart,
    /// The end of a pasted text without a start.
    BracketedPasteEnd,
    Char(char),
    Delete,
    Down,
    End,
    Enter,
    Esc,
    /// A function key, by its number.
    F(u8),
    Home,
    Insert,
    Left,
    /// A control character that isn't any other key.
    Null,
    PageDown,
    PageUp,
    Right,
    Tab,
    Up,
}

/// A pressed key, with its modifiers.
#[derive(Clone, Copy, Debug, PartialEq, Eq, Hash)]
pub struct KeyEvent(pub KeyCode, pub Modifiers);

impl KeyEvent {
    pub const BACKSPACE: KeyEvent = KeyEvent(KeyCode::Backspace, Modifiers::NONE);

    pub const ENTER: KeyEvent = KeyEvent(KeyCode::Enter, Modifiers::NONE);

    pub const ESC: KeyEvent = KeyEvent(KeyCode::Esc, Modifiers::NONE);

    /// The key that sends the character `c`.
    ///
    /// A control character stands for the key with its name (U+007F is Backspace), or for the
    /// character 64 higher with Ctrl. Any other character is itself, without Shift, since its case
    /// says as much.
    pub fn new(c: char, mut mods: Modifiers) -> Self
        ensures { result ≡ key_of c mods }
    {
        if !c.is_control() {
            mods.remove(Modifiers::SHIFT);
            return KeyEvent(KeyCode::Char(c), mods);
        }
        match c {
            '\x08' | '\x7f' => KeyEvent(KeyCode::Backspace, mods),
            '\t' if mods.contains(Modifiers::SHIFT) => {
                mods.remove(Modifiers::SHIFT);
                KeyEvent(KeyCode::BackTab, mods)
            }
            '\t' => KeyEvent(KeyCode::Tab, mods),
            '\r' => KeyEvent(KeyCode::Enter, mods),
            '\x1b' => KeyEvent(KeyCode::Esc, mods),
            '\x00'..='\x1f' => {
                let letter = char::from(c as u8 + 64);
                KeyEvent(KeyCode::Char(letter), mods | Modifiers::CTRL)
            }
            '\u{9b}' => KeyEvent(KeyCode::Esc, mods | Modifiers::SHIFT),
            _ => KeyEvent(KeyCode::Null, mods),
        }
    }

    /// The key that sends `c`, with Ctrl.
    pub fn ctrl(c: char) -> Self
        ensures { result ≡ key_of c ctrl }
    {
        KeyEvent::new(c, Modifiers::CTRL)
    }

    /// The key that sends `c`, with Alt.
    pub fn alt(c: char) -> Self
        ensures { result ≡ key_of c alt }
    {
        KeyEvent::new(c, Modifiers::ALT)
    }

    /// The normal form of a key, in which it is bound, by the first rule that fits. Ctrl with a
    /// lowercase letter is Ctrl with the uppercase one. An uppercase letter needs no Shift. Tab
    /// with Shift is `BackTab`. So Ctrl and Shift with a lowercase letter keep their Shift, as in
    /// rustyline; no terminal sends such a key.
    pub fn normalize(key: Self) -> Self
        ensures { result ≡ normal key }
    {
        match key {
            KeyEvent(KeyCode::Char(c), mods) if c.is_ascii_control() => KeyEvent::new(c, mods),
            KeyEvent(KeyCode::Char(c), mods)
                if c.is_ascii_lowercase() && mods.contains(Modifiers::CTRL) => {
                KeyEvent(KeyCode::Char(c.to_ascii_uppercase()), mods)
            }
            KeyEvent(KeyCode::Char(c), mut mods) if c.is_ascii_uppercase() => {
                mods.remove(Modifiers::SHIFT);
                KeyEvent(KeyCode::Char(c), mods)
            }
            KeyEvent(KeyCode::Tab, mut mods) if mods.contains(Modifiers::SHIFT) => {
                mods.remove(Modifiers::SHIFT);
                KeyEvent(KeyCode::BackTab, mods)
            }
            _ => key,
        }
    }
}

impl From<char> for KeyEvent {
    ghost from_gives = { λ c key. key ≡ key_of c none };

    fn from(c: char) -> Self {
        KeyEvent::new(c, Modifiers::NONE)
    }
}
