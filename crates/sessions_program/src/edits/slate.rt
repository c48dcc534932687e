//! Edits of a line with its record, a kill ring and the mark of a plain text. A step is the name of
//! a call, a number and a text: `insert_char 2 x`, `update 1 abc`, `edit_word 0 Uppercase`, `kill 0
//! WholeLine`.

use crate::edits::words::{first_char, parts, tell_ring, word_of};
use line_buffer::{LineBuffer, Movement, OutOfMemory, RepeatCount, WordAction};
use line_edits::{RecordedLine, is_plain};
use line_record::{Changeset, KillRing};
use stand_ins::commands::movement_named;
use std::alloc::Global;
use std::io;

/// By how many columns a row is indented.
const INDENT: u8 = 2;

/// Inserts a text, or returns that no such edit has this name.
fn put(
    alloc: Global,
    recorded: &mut RecordedLine,
    name: &str,
    n: RepeatCount,
    text: &str,
) -> Option<bool> {
    let c = first_char(text);
    let done = match name {
        "insert_char" => recorded.insert_char(alloc, c, n).is_ok(),
        "insert_text" => recorded.insert_text(alloc, text).is_ok(),
        "yank" => recorded.yank(alloc, text, n).is_ok(),
        "replace_chars" => recorded.replace_chars(alloc, c, n).is_ok(),
        "overwrite" => recorded.overwrite(alloc, c).is_ok(),
        _ => return put_over(alloc, recorded, name, usize::from(n), text),
    };
    Some(done)
}

/// Inserts a text in place of another, if the place of the number is a character boundary.
fn put_over(
    alloc: Global,
    recorded: &mut RecordedLine,
    name: &str,
    place: usize,
    text: &str,
) -> Option<bool> {
    let done = match name {
        "yank_pop" if recorded.line.can_take_before(place) => {
            recorded.yank_pop(alloc, place, text).is_ok()
        }
        "update" if text.is_char_boundary(place) => { recorded.update(alloc, text, place).is_ok() }
        "update_grouped" if text.is_char_boundary(place) => {
            recorded.update_grouped(alloc, text, place).is_ok()
        }
        _ => return None,
    };
    Some(done)
}

/// Replaces or rewords the text, or undoes recorded changes.
fn reword(
    alloc: Global,
    recorded: &mut RecordedLine,
    name: &str,
    n: RepeatCount,
    text: &str,
) -> Option<bool> {
    let done = match name {
        "transpose_chars" => recorded.transpose_chars(alloc).is_ok(),
        "transpose_words" => recorded.transpose_words(alloc, n).is_ok(),
        "edit_word" => recorded.edit_word(alloc, action_named(text)).is_ok(),
        "undo" => recorded.undo(alloc, n).is_ok(),
        _ => return None,
    };
    Some(done)
}

fn action_named(name: &str) -> WordAction {
    match name {
        "Capitalize" => WordAction::Capitalize,
        "Lowercase" => WordAction::Lowercase,
        _ => WordAction::Uppercase,
    }
}

#[derive(Drop)]
struct Slate {
    recorded: RecordedLine,
    ring: KillRing,
    alloc: Global,
}

impl Slate {
    fn new(alloc: Global) -> Result<Self, OutOfMemory> {
        let line = LineBuffer::with_capacity(alloc, 0)?.can_growth(true);
        let changes = Changeset::new(alloc)?;
        let ring = KillRing::new(alloc, 2)?;
        Ok(Slate {
            recorded: RecordedLine::new(line, changes),
            ring,
            alloc,
        })
    }

    /// Removes the spare capacity of line and record.
    fn tighten(&mut self) -> Result<(), OutOfMemory> {
        self.recorded.line = self.recorded.line.try_clone(self.alloc)?;
        self.recorded.changes = self.recorded.changes.try_clone(self.alloc)?;
        Ok(())
    }

    /// Redoes what was undone last.
    fn redo(&mut self) -> bool {
        let recorded = &mut self.recorded;
        let made = recorded
            .changes
            .redo(self.alloc, &mut recorded.line)
            .is_ok();
        recorded.plain = is_plain(recorded.line.as_str());
        made
    }

    fn puts(&mut self, name: &str, n: RepeatCount, text: &str) -> Option<bool> {
        put(self.alloc, &mut self.recorded, name, n, text)
    }

    fn rewords(&mut self, name: &str, n: RepeatCount, text: &str) -> Option<bool> {
        reword(self.alloc, &mut self.recorded, name, n, text)
    }

    fn kills(&mut self, movement: &Movement) -> bool {
        self.recorded
            .kill(self.alloc, &mut self.ring, movement)
            .is_ok()
    }

    fn kills_range(&mut self, movement: &Movement) -> bool {
        let span = self.recorded.line.range_of(movement);
        self.recorded
            .kill_range(self.alloc, &mut self.ring, movement, span)
            .is_ok()
    }

    fn moves_rows(&mut self, movement: &Movement, dedent: bool) -> bool {
        self.recorded
            .indent(self.alloc, movement, INDENT, dedent)
            .is_ok()
    }

    /// Makes an edit with a movement.
    fn makes_over(&mut self, name: &str, words: &str) -> Option<bool> {
        let movement = movement_named(self.alloc, words)?;
        match name {
            "kill" => Some(self.kills(&movement)),
            "kill_range" => Some(self.kills_range(&movement)),
            "indent" => Some(self.moves_rows(&movement, false)),
            "dedent" => Some(self.moves_rows(&movement, true)),
            _ => None,
        }
    }

    /// Makes a step by its name: whether it succeeded, or `None` if the name is unknown.
    fn makes(&mut self, name: &str, n: RepeatCount, text: &str) -> Option<bool> {
        match name {
            "at" => Some(self.stands_at(usize::from(n))),
            "tighten" => Some(self.tighten().is_ok()),
            "redo" => Some(self.redo()),
            "kill" | "kill_range" | "indent" | "dedent" => self.makes_over(name, text),
            "transpose_chars" | "transpose_words" | "edit_word" | "undo" => {
                self.rewords(name, n, text)
            }
            _ => self.puts(name, n, text),
        }
    }

    /// Sets the cursor, if the place is a character boundary.
    fn stands_at(&mut self, pos: usize) -> bool {
        let is_boundary = self.recorded.line.as_str().is_char_boundary(pos);
        if is_boundary {
            self.recorded.line.set_pos(pos);
        }
        is_boundary
    }

    fn tell(&self, rt: &HostRuntime, word: &str) -> io::Result<()> {
        let mark = if self.recorded.plain { "plain" } else { "" };
        eprint!(rt;
            "\x1d{word}\t{}\t{}\t{mark}",
            self.recorded.line.as_str(),
            self.recorded.line.pos()
        )?;
        tell_ring(rt, &self.ring)
    }
}

fn play_on(rt: &HostRuntime, slate: &mut Slate, steps: &[String]) -> io::Result<()> {
    for step in steps {
        let (name, n, text) = parts(step.as_str());
        let word = word_of(slate.makes(name, n, text));
        slate.tell(rt, word)?;
    }
    Ok(())
}

/// Makes the steps, and prints the state after each of them.
pub(crate) fn play(rt: &HostRuntime, alloc: Global, steps: &[String]) -> io::Result<()> {
    match &mut Slate::new(alloc) {
        Ok(slate) => play_on(rt, slate, steps),
        Err(_) => eprintln!(rt; "not begun"),
    }
}
