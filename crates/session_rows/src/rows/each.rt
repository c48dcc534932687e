//! Sessions whose results are all written out. The word `reads:` says what a reader does at its
//! calls, as `reads:2,1..`.

ghost use Rattle.std.specs.Prelude.{◌≡◌, false};

use crate::rows::play::{Left, left_of};
use crate::words::notation::{Setting, row_of, setting_of, typed};
use keyline::{ReadSource, ReadlineError};
use stand_ins::devices::{Pieces, Turns};
use std::alloc::{AllocError, Global};
use std::cell::Cell;

fn put_bytes(said: &mut String, bytes: &[u8]) -> Result<(), AllocError> {
    said.push_str(" .")?;
    for byte in bytes {
        write!(said, "{byte:02x}")?;
    }
    Ok(())
}

/// Writes how a session ended, its lines, the text of its history and the bytes of its display.
fn tell_left(said: &mut String, left: &Left) -> Result<(), AllocError> {
    let ending = left.ending;
    write!(said, "{ending:?}")?;
    put_bytes(said, &left.lines)?;
    put_bytes(said, &left.saved)?;
    put_bytes(said, &left.shown)?;
    said.push_str("\n")
}

/// The turns of a reader: a comma stands for a blank.
fn turns_of(alloc: Global, words: &str) -> Result<String, AllocError> {
    let mut turns = String::new(alloc);
    for c in words.chars() {
        turns.push(if c == ',' { ' ' } else { c })?;
    }
    Ok(turns)
}

/// The result of a session over a reader with these keys and turns.
fn left_of_reads<'r>(
    alloc: Global,
    setting: &Setting<'_>,
    keys: &'r [u8],
    turns: &'r str,
) -> Result<Left, ReadlineError> {
    let calls = Cell::new(0);
    let reader = Pieces {
        bytes: keys,
        turns: Turns::new(turns, &calls),
    };
    left_of(alloc, setting, ReadSource::new(reader))
}

fn tell_row(
    alloc: Global,
    setting: &Setting<'_>,
    keys: &str,
    said: &mut String,
) -> Result<(), AllocError> {
    let keys = typed(alloc, keys)?;
    let turns = turns_of(alloc, setting.reads)?;
    match left_of_reads(alloc, setting, &keys, turns.as_str()) {
        Ok(left) => tell_left(said, &left),
        Err(why) => write!(said, "unopened {why:?}\n"),
    }
}

/// The results of each session of rows with these settings, one line each. A line has the ending,
/// the lines, the text of the history and the bytes of the display, separated by points and all but
/// the ending in hexadecimal. Or it says why the session wasn't opened. If memory runs out for a
/// row's keys or for the results, that is no error of a session but the call's own.
pub fn told_of_each(alloc: Global, settings: &str, rows: &str) -> Result<String, AllocError> {
    let setting = setting_of(settings);
    let mut said = String::new(alloc);
    for row in rows.lines() {
        if let Some(row) = row_of(row) {
            tell_row(alloc, &setting, row.keys, &mut said)?;
        }
    }
    Ok(said)
}
