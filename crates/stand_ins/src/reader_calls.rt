//! Calls of a reader by their names, as tables make them.

use crate::key_names::write_key;
use crate::rows::raised;
use crate::tables::{picture_of, push_pictured};
use line_config::ReadlineError;
use line_keys::RawReader;
use line_keys::tty::Event as Report;
use std::alloc::Global;

// Writes the result of each call: a key by its name, and a text with pictures.

fn tell_char<R: RawReader>(reader: &mut R, said: &mut String) -> Result<(), ReadlineError> {
    let c = reader.next_char()?;
    raised(said.push(picture_of(c)))
}

fn tell_paste<R: RawReader>(
    alloc: Global,
    reader: &mut R,
    said: &mut String,
) -> Result<(), ReadlineError> {
    let text = reader.read_pasted_text(alloc)?;
    raised(push_pictured(said, text.as_str()))
}

fn tell_wait<R: RawReader>(
    reader: &mut R,
    single: bool,
    said: &mut String,
) -> Result<(), ReadlineError> {
    let Report::KeyPress(key) = reader.wait_for_input(single)?;
    raised(write_key(said, key))
}

fn tell_key<R: RawReader>(
    reader: &mut R,
    single: bool,
    said: &mut String,
) -> Result<(), ReadlineError> {
    let key = reader.next_key(single)?;
    raised(write_key(said, key))
}

/// Makes a call, and writes its result: `key`, `wait`, `char` or `paste`. With `+` after it, a
/// single Esc doesn't wait for more.
pub fn tell_call<R: RawReader>(
    alloc: Global,
    reader: &mut R,
    call: &str,
    said: &mut String,
) -> Result<(), ReadlineError> {
    let single = call.ends_with('+');
    match call {
        "char" => tell_char(reader, said),
        "paste" => tell_paste(alloc, reader, said),
        "wait" | "wait+" => tell_wait(reader, single, said),
        "key" | "key+" => tell_key(reader, single, said),
        _ => raised(said.push_str("no such call")),
    }
}
