//! The notation of tables of text.
//!
//! A row has a call, ` = `, and its answer. A control character is written as its picture: `␛` is
//! ESC, `␍` is CR, `␊` is LF; `␠` is a blank that would be lost at an end.

use std::alloc::{AllocError, Global};
use std::fmt::Debug;

/// The call of a row, and its answer; `None` for a row without ` = `. A blank line is no row.
pub fn call_and_answer(row: &str) -> Option<(&str, &str)> {
    if row.trim().is_empty() {
        return None;
    }
    let (call, answer) = parted(row, " = ");
    Some((call.trim(), answer.trim()))
}

/// The text before a mark, and the text after it; without a mark the whole text, and nothing.
pub fn parted<'t>(text: &'t str, mark: &str) -> (&'t str, &'t str) {
    match text.split_once(mark) {
        Some(parts) => parts,
        None => (text, ""),
    }
}

/// The first word, and the text after it.
pub fn word_and_rest(text: &str) -> (&str, &str) {
    let (word, rest) = parted(text, " ");
    (word, rest.trim_start_matches(' '))
}

/// The meaning of a word in a table.
pub fn named<T: Copy>(table: &[(&str, T)], word: &str) -> Option<T> {
    for (name, value) in table {
        if *name == word {
            return Some(*value);
        }
    }
    None
}

// The character of a picture. Any other character stands for itself.
fn shown_by(picture: char) -> char {
    match u32::from(picture) {
        code @ 0x2400..=0x2420 => char::from_u32(code - 0x2400).unwrap_or(picture),
        0x2421 => '\x7f',
        _ => picture,
    }
}

/// The picture of a control character. Any other character stands for itself.
pub(crate) fn picture_of(c: char) -> char {
    match c {
        '\0'..='\x1f' => char::from_u32(u32::from(c) + 0x2400).unwrap_or(c),
        '\x7f' => '␡',
        _ => c,
    }
}

/// The words of a text with this mark between two.
pub fn words_in(alloc: Global, text: &str, mark: char) -> Result<Vec<String>, AllocError> {
    let mut words = Vec::new(alloc);
    for word in text.split(mark) {
        words.push(String::from_str(alloc, word)?)?;
    }
    Ok(words)
}

/// A value as `{:?}` writes it.
pub fn shown<D: Debug + Drop>(alloc: Global, value: D) -> Result<String, AllocError> {
    format!(in alloc; "{value:?}")
}

/// The text with its pictures replaced by their characters.
pub fn meant(alloc: Global, shown: &str) -> Result<String, AllocError> {
    let mut text = String::new(alloc);
    push_meant(&mut text, shown)?;
    Ok(text)
}

fn push_meant(text: &mut String, shown: &str) -> Result<(), AllocError> {
    for c in shown.chars() {
        text.push(shown_by(c))?;
    }
    Ok(())
}

/// A text with pictures in place of its control characters.
pub fn pictured(alloc: Global, text: &str) -> Result<String, AllocError> {
    let mut shown = String::new(alloc);
    push_pictured(&mut shown, text)?;
    Ok(shown)
}

/// Writes a text with pictures in place of its control characters.
pub(crate) fn push_pictured(shown: &mut String, text: &str) -> Result<(), AllocError> {
    for c in text.chars() {
        shown.push(picture_of(c))?;
    }
    Ok(())
}

/// Appends the bytes between `‹` and `›`.
fn push_bytes(alloc: Global, bytes: &mut Vec<u8>, named: &str) -> Result<(), AllocError> {
    if let Some((count, shown)) = named.split_once('*') {
        let text = meant(alloc, shown)?;
        for _ in 0..count.parse().unwrap_or(0) {
            bytes.extend_from_slice(text.as_bytes())?;
        }
        return Ok(());
    }
    for number in named.split_whitespace() {
        bytes.push(u8::from_str_radix(number, 16).unwrap_or(b'?'))?;
    }
    Ok(())
}

/// The bytes of a text with pictures, in which `‹c3 28›` is the bytes C3 and 28, and `‹3*ab›` is
/// `ababab`.
pub fn meant_bytes(alloc: Global, shown: &str) -> Result<Vec<u8>, AllocError> {
    let mut bytes = Vec::new(alloc);
    push_meant_bytes(alloc, &mut bytes, shown)?;
    Ok(bytes)
}

/// Appends the bytes of such a text.
pub fn push_meant_bytes(alloc: Global, bytes: &mut Vec<u8>, shown: &str) -> Result<(), AllocError> {
    for piece in shown.split('‹') {
        let (named, text) = piece.split_once('›').unwrap_or(("", piece));
        push_bytes(alloc, bytes, named)?;
        bytes.extend_from_slice(meant(alloc, text)?.as_bytes())?;
    }
    Ok(())
}

/// Bytes with pictures; those that aren't UTF-8 by their numbers.
pub fn pictured_bytes(alloc: Global, bytes: &[u8]) -> Result<String, AllocError> {
    let mut shown = String::new(alloc);
    push_chunks(&mut shown, bytes)?;
    Ok(shown)
}

fn push_chunks(shown: &mut String, bytes: &[u8]) -> Result<(), AllocError> {
    for chunk in bytes.utf8_chunks() {
        push_pictured(shown, chunk.valid())?;
        push_numbers(shown, chunk.invalid())?;
    }
    Ok(())
}

fn push_numbers(shown: &mut String, bytes: &[u8]) -> Result<(), AllocError> {
    for byte in bytes {
        write!(shown, "‹{byte:02x}›")?;
    }
    Ok(())
}

/// A line and a place in it, in bytes, marked by a bar: `ab|` is the end of `ab`, and `ab|+5` five
/// bytes after it.
pub fn line_and_place(alloc: Global, marked: &str) -> Result<(String, usize), AllocError> {
    let (before, behind) = parted(marked, "|");
    let mut line = meant(alloc, before)?;
    let place = line.len();
    let beyond: Option<usize> = behind
        .strip_prefix('+')
        .and_then(|digits| digits.parse().ok());
    match beyond {
        Some(count) => Ok((line, place.saturating_add(count))),
        None => {
            push_meant(&mut line, behind)?;
            Ok((line, place))
        }
    }
}

/// A line with pictures and a bar at the place.
pub fn marked(alloc: Global, line: &str, place: usize) -> Result<String, AllocError> {
    let (before, behind) = line.split_at_checked(place).unwrap_or((line, "+"));
    let before = pictured(alloc, before)?;
    let behind = pictured(alloc, behind)?;
    format!(in alloc; "{before}|{behind}")
}

/// The text, or `nothing` for the empty one.
pub fn or_nothing(text: &str) -> &str {
    if text.is_empty() { "nothing" } else { text }
}
