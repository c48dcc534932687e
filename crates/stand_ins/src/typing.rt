//! Typed input and bindings, by names.

use crate::commands::command_named;
use crate::key_names::key_named;
use crate::readers::{After, Typed};
use crate::tables::meant;
use line_config::ReadlineError;
use line_keys::{Bindings, Cmd, Event, EventHandler, KeyEvent, Keys, Text};
use std::alloc::Global;

/// The event of keys with these names; any event without names.
pub fn event(alloc: Global, words: &str) -> Result<Event, ReadlineError> {
    let keys = keys_named(alloc, words)?;
    if keys.is_empty() {
        return Ok(Event::Any);
    }
    Ok(Event::KeySeq(Keys::from(keys)))
}

/// The keys with these names.
pub fn keys_named(alloc: Global, words: &str) -> Result<Vec<KeyEvent>, ReadlineError> {
    let mut keys = Vec::new(alloc);
    for word in words.split_whitespace() {
        match key_named(word) {
            Some(key) => keys.push(key)?,
            None => return Err(ReadlineError::Helper),
        }
    }
    Ok(keys)
}

/// The input of a table's row.
#[derive(Drop)]
pub struct Input {
    pub typed: Vec<Typed>,
    /// A cut-off pasted text is announced after the keys.
    pub cut: bool,
    pub after: After,
}

/// Keys by their names, separated by blanks. `text:ab` is the pasted text `ab`. After the keys
/// comes the end of the input, or bytes that are no character after `!bad`, or a failing source
/// after `!failed`. Before these, `!cut` is a pasted text without its end. An unknown word is an
/// error.
pub fn typed(alloc: Global, words: &str) -> Result<Input, ReadlineError> {
    let mut input = Input {
        typed: Vec::new(alloc),
        cut: false,
        after: After::End,
    };
    type_words(alloc, &mut input, words)?;
    Ok(input)
}

fn type_words(alloc: Global, input: &mut Input, words: &str) -> Result<(), ReadlineError> {
    for word in words.split_whitespace() {
        match word {
            "!cut" => input.cut = true,
            "!bad" => input.after = After::Bad,
            "!failed" => input.after = After::Failed,
            _ => input.typed.push(item(alloc, word)?)?,
        }
    }
    Ok(())
}

fn item(alloc: Global, word: &str) -> Result<Typed, ReadlineError> {
    if let Some(text) = word.strip_prefix("text:") {
        let text = meant(alloc, text)?;
        return Ok(Typed::Paste(Text::from(text)));
    }
    match key_named(word) {
        Some(key) => Ok(Typed::Key(key)),
        None => Err(ReadlineError::Helper),
    }
}

/// Binds keys to a handler, or any key without keys. Returns the old binding.
pub fn bind(
    alloc: Global,
    bindings: &mut Bindings,
    keys: &str,
    handler: EventHandler,
) -> Result<Option<EventHandler>, ReadlineError> {
    let event = event(alloc, keys)?;
    bindings.bind_sequence(event, handler)
}

/// The command with this name, which must exist.
pub fn command_of(alloc: Global, words: &str) -> Result<Cmd, ReadlineError> {
    match command_named(alloc, words) {
        Some(cmd) => Ok(cmd),
        None => Err(ReadlineError::Helper),
    }
}
