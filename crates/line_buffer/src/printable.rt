//! Printable ASCII, and the classes of bytes that also have newlines and tabs.

ghost use Rattle.std.specs.Prelude.{◌≡◌, ◌<◌, true};
ghost use Rattle.std.specs.List.{list_all};
ghost use Rattle.line_buffer.specs.Printable.{is_printable, is_plain, is_simple, is_plain_byte, is_simple_byte};

use crate::runs::{ByteClass, are_all};

/// Whether the character is printable ASCII.
pub fn is_printable(c: char) -> bool
    ensures value { result ≡ is_printable c }
    ensures ascii { result ≡ true → c < 127 }
{
    ' ' <= c && c <= '~'
}

pub(crate) struct Printable;

impl ByteClass for Printable {
    ghost class = { is_printable };

    fn has(byte: u8) -> bool {
        is_printable(char::from(byte))
    }
}

struct Plain;

impl ByteClass for Plain {
    ghost class = { is_plain_byte };

    fn has(byte: u8) -> bool {
        byte == b'\n' || Printable::has(byte)
    }
}

struct Simple;

impl ByteClass for Simple {
    ghost class = { is_simple_byte };

    fn has(byte: u8) -> bool {
        byte == b'\t' || Plain::has(byte)
    }
}

/// Whether each character is printable ASCII.
pub fn is_printable_text(text: &str) -> bool
    ensures { result ≡ list_all is_printable text.now }
{
    are_all::<Printable>(text.as_bytes())
}

/// Whether each character is printable ASCII or a newline.
pub fn is_plain(text: &str) -> bool
    ensures { result ≡ is_plain text.now }
{
    are_all::<Plain>(text.as_bytes())
}

/// Whether each character is printable ASCII, a newline or a tab.
pub fn is_simple(text: &str) -> bool
    ensures { result ≡ is_simple text.now }
{
    are_all::<Simple>(text.as_bytes())
}
