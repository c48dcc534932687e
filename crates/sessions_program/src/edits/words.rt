//! The parts of steps, and what is printed after them.

use line_buffer::RepeatCount;
use line_record::KillRing;
use stand_ins::tables::word_and_rest;
use std::io;

/// A step's name, its number, and the text after it.
pub(crate) fn parts(step: &str) -> (&str, RepeatCount, &str) {
    let (name, rest) = word_and_rest(step);
    let (number, text) = word_and_rest(rest);
    (name, number.parse().unwrap_or(0), text)
}

pub(crate) fn first_char(text: &str) -> char {
    text.chars().next().unwrap_or('?')
}

/// How a step ended.
pub(crate) fn word_of(done: Option<bool>) -> &'static str {
    match done {
        Some(true) => "done",
        Some(false) => "refused",
        None => "unread",
    }
}

/// Prints a ring's texts and its current slot, and ends the line.
pub(crate) fn tell_ring(rt: &HostRuntime, ring: &KillRing) -> io::Result<()> {
    for text in ring.texts() {
        eprint!(rt; "\t{}", text.as_str())?;
    }
    eprint!(rt; "\t{}\x1e", ring.place())
}
