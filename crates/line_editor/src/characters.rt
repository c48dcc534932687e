//! Characters that are clusters of their own next to each other.

ghost use Rattle.std.specs.Prelude.{◌≡◌, ◌||◌, None, chars, IsTrue, IsCharBoundary};
ghost use Rattle.std.specs.Char.{IsScalar};
ghost use Rattle.std.specs.List.{last_or};
ghost use Rattle.line_editor.specs.Characters.{is_narrow, is_wide, is_pictograph, is_apart, ends_apart, stands_apart, begins_apart, begins_apart_at};

use line_buffer::is_printable;

/// Characters of one column: printable ASCII, Latin, Greek, Cyrillic and Armenian.
#[inline]
pub fn is_narrow(c: char) -> bool
    ensures { result ≡ is_narrow c }
{
    is_printable(c)
        || matches!(
            c,
            '\u{A1}'..='\u{AC}'
                | '\u{AE}'..='\u{2FF}'
                | '\u{370}'..='\u{482}'
                | '\u{48A}'..='\u{58F}'
        )
}

/// Characters of two columns: kana, Chinese, Korean, their punctuation and full-width forms.
#[inline]
pub fn is_wide(c: char) -> bool
    ensures { result ≡ is_wide c }
{
    matches!(
        c,
        '\u{3001}'..='\u{3029}'
            | '\u{3041}'..='\u{3096}'
            | '\u{309B}'..='\u{30FF}'
            | '\u{3400}'..='\u{A48C}'
            | '\u{AC00}'..='\u{D7A3}'
            | '\u{F900}'..='\u{FAFF}'
            | '\u{FF01}'..='\u{FF60}'
            | '\u{20000}'..='\u{2FFFD}'
            | '\u{30000}'..='\u{3FFFD}'
    )
}

/// Pictographs, without the tones of skin.
#[inline]
fn is_pictograph(c: char) -> bool
    ensures { result ≡ is_pictograph c }
{
    matches!(
        c,
        '\u{1F300}'..='\u{1F3FA}'
            | '\u{1F400}'..='\u{1F64F}'
            | '\u{1F680}'..='\u{1F6FF}'
            | '\u{1F900}'..='\u{1F9FF}'
    )
}

/// Whether a character is a cluster of its own next to others of these.
#[inline]
#[tactic(auto, using(crate::proofs::CharacterRanges::sides))]
pub fn is_apart(c: char) -> bool
    ensures { result ≡ is_apart c }
{
    if c < '\u{3000}' {
        is_narrow(c)
    } else {
        is_wide(c) || is_pictograph(c)
    }
}

/// The character itself, which is a Unicode scalar value.
pub(crate) fn as_scalar(c: char) -> char
    ensures value { result ≡ c }
    ensures scalar { IsScalar c }
{
    c
}

/// The last character of a text.
pub(crate) fn last_char(text: &str) -> Option<char>
    ensures { result ≡ last_or None (chars text.now) }
{
    match text.chars().next_back() {
        None => None,
        Some(last) => Some(as_scalar(last)),
    }
}

/// Whether a text is empty, or ends with a newline or one of these.
fn ends_apart(text: &str) -> bool
    ensures { result ≡ ends_apart (last_or None (chars text.now)) }
{
    match last_char(text) {
        None => true,
        Some(last) => last == '\n' || is_apart(last),
    }
}

/// Whether a character after a text is known to be a cluster of its own, and to leave the text's
/// clusters as they are.
pub fn stands_apart(text: &str, c: char) -> bool
    ensures { result ≡ stands_apart text.now c }
{
    is_apart(c) && ends_apart(text)
}

/// Whether the rest of a text is known to leave the clusters before it as they are: there is none,
/// or a newline or a character apart comes first.
pub fn begins_apart(text: &str, rest: &str) -> bool
    ensures { result ≡ begins_apart text.now rest.now }
{
    match rest.chars().next() {
        None => true,
        Some(first) => first == '\n' || stands_apart(text, first),
    }
}

/// Whether a place of a text is known to lie between two of its clusters, or at its start or end.
pub(crate) fn begins_apart_at(text: &str, at: usize) -> bool
    ensures value { result ≡ begins_apart_at text.now at }
    ensures boundary { IsTrue result → IsCharBoundary text.now at }
{
    text.is_char_boundary(at) && begins_apart(&text[..at], &text[at..])
}
