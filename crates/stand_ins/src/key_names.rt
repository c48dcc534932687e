//! Keys by their names: `x`, `Esc`, `F5`, with a prefix `C-`, `A-` and `S-`, in this order, for
//! Ctrl, Alt and Shift.

use crate::tables::named;
use line_keys::{KeyCode, KeyEvent, Modifiers};
use std::alloc::AllocError;

// The keys that aren't written as themselves.
const NAMED: [(&str, KeyCode); 21] = [
    ("Backspace", KeyCode::Backspace),
    ("BackTab", KeyCode::BackTab),
    ("PasteStart", KeyCode::BracketedPasteStart),
    ("PasteEnd", KeyCode::BracketedPasteEnd),
    ("Delete", KeyCode::Delete),
    ("Down", KeyCode::Down),
    ("End", KeyCode::End),
    ("Enter", KeyCode::Enter),
    ("Esc", KeyCode::Esc),
    ("Home", KeyCode::Home),
    ("Insert", KeyCode::Insert),
    ("Left", KeyCode::Left),
    ("Null", KeyCode::Null),
    ("PageDown", KeyCode::PageDown),
    ("PageUp", KeyCode::PageUp),
    ("Right", KeyCode::Right),
    ("Tab", KeyCode::Tab),
    ("UnknownEscSeq", KeyCode::UnknownEscSeq),
    ("Up", KeyCode::Up),
    ("Space", KeyCode::Char(' ')),
    ("Bar", KeyCode::Char('|')),
];

const HELD: [(&str, Modifiers); 3] = [
    ("C-", Modifiers::CTRL),
    ("A-", Modifiers::ALT),
    ("S-", Modifiers::SHIFT),
];

// The name in the table. A missing name is visible: an empty one would pass if a row expects
// nothing.
fn name_of(code: KeyCode) -> &'static str {
    for (name, named) in &NAMED {
        if *named == code {
            return name;
        }
    }
    "no name"
}

// A character, or the name of a key.
fn code_named(name: &str) -> Option<KeyCode> {
    let mut chars = name.chars();
    if let (Some(c), None) = (chars.next(), chars.next()) {
        return Some(KeyCode::Char(c));
    }
    match name
        .strip_prefix('F')
        .and_then(|number| number.parse().ok())
    {
        Some(number) => Some(KeyCode::F(number)),
        None => named(&NAMED, name),
    }
}

/// The key with this name.
pub fn key_named(word: &str) -> Option<KeyEvent> {
    let mut mods = Modifiers::NONE;
    let mut name = word;
    for (prefix, held) in &HELD {
        if let Some(rest) = name.strip_prefix(*prefix)
            && !rest.is_empty()
        {
            mods.insert(*held);
            name = rest;
        }
    }
    Some(KeyEvent(code_named(name)?, mods))
}

/// Writes the name of a key.
pub fn write_key(said: &mut String, key: KeyEvent) -> Result<(), AllocError> {
    let KeyEvent(code, mods) = key;
    for (prefix, held) in &HELD {
        if mods.contains(*held) {
            said.push_str(prefix)?;
        }
    }
    match code {
        KeyCode::Char(' ' | '|') => said.push_str(name_of(code)),
        KeyCode::Char(c) => said.push(c),
        KeyCode::F(number) => write!(said, "F{number}"),
        _ => said.push_str(name_of(code)),
    }
}
