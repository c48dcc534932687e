//! Tables of keys and their commands.
//!
//! A row has keys, ` | `, and their commands. A row that begins with one of these words is a
//! setting for the rows after it. `line: a|b` sets the line, with a bar at its cursor; `hint: c`
//! the hint after it; `inserted: kl` the text that was inserted last. `answered: 3` sets how many
//! requests succeed before the display fails; without a number all do. `bind: C-O = Undo 3` and
//! `ask: C-O = Count` bind keys to a command or a handler, and any key if no keys are named;
//! `unbind:` removes all bindings. From `modes:` on, the mode that a command leaves is written
//! after it; from `modal:` on, the commands act that go on over several keys. `then: Noop` is the command of the key `q` with which a row with a count ends.

use crate::keys::commands::{bind_command, bind_handler};
use crate::keys::telling::told;
use line_config::{EditMode, ReadlineError};
use line_keys::Bindings;
use stand_ins::rows::{done, misread};
use stand_ins::tables::word_and_rest;
use std::alloc::{AllocError, Global};
use std::test::Fail;

/// Where the keys of a table are typed.
#[derive(Drop)]
pub struct Desk<'t> {
    pub alloc: Global,
    pub mode: EditMode,
    pub bindings: Bindings,
    /// The line, with a bar at the cursor.
    pub line: &'t str,
    pub hint: Option<&'t str>,
    pub inserted: Option<&'t str>,
    /// How many requests succeed before the display fails; `None` for all.
    pub answered: Option<u32>,
    /// Whether the mode is written after each command.
    pub modes: bool,
    /// Whether the commands act that go on over several keys.
    pub modal: bool,
    then: &'t str,
}

impl<'t> Desk<'t> {
    /// The cursor between the two characters of a line, and no bindings.
    pub(crate) fn new(alloc: Global, mode: EditMode) -> Result<Self, ReadlineError> {
        Ok(Desk {
            alloc,
            mode,
            bindings: Bindings::new(alloc)?,
            line: "a|b",
            hint: None,
            inserted: None,
            answered: None,
            modes: false,
            modal: false,
            then: "",
        })
    }

    // Applies a row without ` | `.
    fn set(&mut self, row: &'t str) -> Result<(), Fail> {
        let (word, rest) = word_and_rest(row);
        match word {
            "" => {}
            "line:" => self.line = rest,
            "hint:" => self.hint = Some(rest),
            "inserted:" => self.inserted = Some(rest),
            "answered:" => self.answered = rest.parse().ok(),
            "modes:" => self.modes = true,
            "modal:" => self.modal = true,
            "then:" => self.then = rest,
            "unbind:" => self.bindings = Bindings::new(self.alloc)?,
            _ => return self.bind(word, rest),
        }
        Ok(())
    }

    // The old binding doesn't matter.
    fn bind(&mut self, word: &str, rest: &str) -> Result<(), Fail> {
        let bindings = &mut self.bindings;
        match (word, rest.split_once("= ")) {
            ("bind:", Some((keys, bound))) => done(bind_command(self.alloc, bindings, keys, bound)),
            ("ask:", Some((keys, bound))) => done(bind_handler(self.alloc, bindings, keys, bound)),
            _ => Err(Fail::new(format_args!("no row: {word} {rest}"))),
        }
    }
}

/// Takes the parts of a text.
trait TakesParts<'t> {
    /// Takes a part, as it stands in the text.
    fn take(&mut self, part: &'t str) -> Result<(), Fail>;
}

/// Passes on each part of a text, separated by a mark.
fn each_part<'t, T: TakesParts<'t>>(taker: &mut T, text: &'t str, mark: char) -> Result<(), Fail> {
    for part in text.split(mark) {
        taker.take(part)?;
    }
    Ok(())
}

/// Fails if a line of a table that is no row isn't blank.
fn is_blank(line: &str) -> Result<(), Fail> {
    if line.trim().is_empty() {
        Ok(())
    } else {
        Err(misread("no row", line))
    }
}

/// Types the keys, and compares their commands. How the first key of a phrase is requested makes no
/// difference.
fn leads_to(desk: &Desk<'_>, keys: &str, wanted: &str) -> Result<(), Fail> {
    leads_by(desk, false, keys, wanted)?;
    leads_by(desk, true, keys, wanted)
}

fn leads_by(desk: &Desk<'_>, first_by_key: bool, keys: &str, wanted: &str) -> Result<(), Fail> {
    let said = told(desk, first_by_key, keys)?;
    if said.as_str() == wanted {
        Ok(())
    } else {
        Err(Fail::new(format_args!("typed: {keys}, wanted: {wanted}, but it leads to {said}")))
    }
}

impl<'t> TakesParts<'t> for Desk<'t> {
    fn take(&mut self, row: &'t str) -> Result<(), Fail> {
        match row.split_once(" | ") {
            Some((keys, wanted)) => leads_to(self, keys, wanted.trim()),
            None => self.set(row.trim()),
        }
    }
}

/// Types the keys of each row, starting each table with the desk as it is.
pub(crate) fn plays(alloc: Global, mode: EditMode, tables: &[&str]) -> Result<(), Fail> {
    for table in tables {
        plays_anew(alloc, mode, table)?;
    }
    Ok(())
}

fn plays_anew(alloc: Global, mode: EditMode, table: &str) -> Result<(), Fail> {
    let mut desk = Desk::new(alloc, mode)?;
    each_part(&mut desk, table, '\n')
}

/// The three columns of a row.
fn three_columns(row: &str) -> Option<(&str, &str, &str)> {
    let (first, rest) = row.split_once('|')?;
    let (second, third) = rest.split_once('|')?;
    Some((first.trim(), second.trim(), third.trim()))
}

/// A table whose rows are typed with each count.
#[derive(Drop)]
struct Counting<'t> {
    desk: Desk<'t>,
    counts: &'t str,
}

impl<'t> TakesParts<'t> for Counting<'t> {
    fn take(&mut self, row: &'t str) -> Result<(), Fail> {
        let Some((keys, commands)) = row.split_once(" | ") else {
            return self.desk.set(row.trim());
        };
        let (plus, minus) = commands.split_once(" | ").unwrap_or((commands, commands));
        let mut counted = Counted {
            desk: &self.desk,
            keys,
            plus: plus.trim(),
            minus: minus.trim(),
        };
        each_part(&mut counted, self.counts, '\n')
    }
}

/// Each row has keys and a command, and perhaps the command for a negative count. `n` in
/// parentheses stands for the count's amount. Each row of `counts` has keys, the requests to the
/// display for them, and the count. At last the key `q` is typed.
pub(crate) fn each_count(
    alloc: Global,
    mode: EditMode,
    counts: &str,
    table: &str,
) -> Result<(), Fail> {
    let desk = Desk::new(alloc, mode)?;
    each_part(&mut Counting { desk, counts }, table, '\n')
}

/// Keys that are typed with each count, and the commands if it is positive and if it is negative.
#[derive(Drop)]
struct Counted<'d> {
    desk: &'d Desk<'d>,
    keys: &'d str,
    plus: &'d str,
    minus: &'d str,
}

impl Counted<'_> {
    // The command with the count, and that of the key after it.
    fn command(&self, count: &str) -> Result<String, AllocError> {
        let (command, amount) = match count.strip_prefix('-') {
            Some(amount) => (self.minus, amount),
            None => (self.plus, count),
        };
        let then = self.desk.then;
        match command.split_once("(n") {
            Some((before, after)) => format!(in self.desk.alloc;
                "{before}({amount}{after}; {then}"
            ),
            None => format!(in self.desk.alloc; "{command}; {then}"),
        }
    }

    // What is typed with the keys of a count.
    fn typed(&self, count: &str) -> Result<String, AllocError> {
        let keys = self.keys;
        format!(in self.desk.alloc; "{count} {keys} q")
    }

    // Its commands.
    fn led(&self, asked: &str, count: &str) -> Result<String, AllocError> {
        let command = self.command(count)?;
        format!(in self.desk.alloc; "{asked} {command}")
    }
}

impl<'t> TakesParts<'t> for Counted<'_> {
    fn take(&mut self, row: &'t str) -> Result<(), Fail> {
        let Some((typed, asked, count)) = three_columns(row) else {
            return is_blank(row);
        };
        let keys = self.typed(typed)?;
        let led = self.led(asked, count)?;
        leads_to(self.desk, keys.as_str(), led.as_str().trim())
    }
}
