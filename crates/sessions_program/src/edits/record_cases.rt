//! Each call that notifies the undo record and the kill ring, with each of its allocations failing.
//! Checks whether line, record and ring agree then, and whether the recorded changes can still be
//! undone and redone.

use crate::edits::desk::{Desk, ITEMS, START};
use line_buffer::{LineBuffer, OutOfMemory};
use std::alloc::Global;
use std::io;

const LONG: &str =
    "a long text that takes more room than a line, a slot of a ring or a step of a record has left";

/// The texts that the lines of the cases have at some time, so that no undo may leave another one.
const TEXTS: [&str; 12] = [
    "",
    "one",
    "one two",
    "one two three",
    "one two three fou",
    "one two three four",
    START,
    "one two three x",
    "one two ",
    "one two two",
    "one two three \nfour",
    "  one two three \nfour",
];

/// More steps than any case records.
const ALL: u16 = 20;

#[derive(Clone, Copy, PartialEq, Eq)]
enum Case {
    Letter,
    LetterJoined,
    Paste,
    Backspace,
    BackspaceJoined,
    ReplacementJoined,
    Update,
    RaiseWord,
    TransposeWords,
    Indent,
    Kill,
    KillJoined,
    KillRound,
    Begin,
    End,
    Undo,
    UndoAll,
    Redo,
    RedoAll,
    LastInsert,
    CopyOfRecord,
}

const CASES: [(Case, &str); 21] = [
    (Case::Letter, "letter recorded"),
    (Case::LetterJoined, "letter joined"),
    (Case::Paste, "paste recorded"),
    (Case::Backspace, "backspace recorded"),
    (Case::BackspaceJoined, "backspace joined"),
    (Case::ReplacementJoined, "replacement joined"),
    (Case::Update, "update recorded"),
    (Case::RaiseWord, "edit_word recorded"),
    (Case::TransposeWords, "transpose_words recorded"),
    (Case::Indent, "indent recorded"),
    (Case::Kill, "kill in the ring"),
    (Case::KillJoined, "kill joined in the ring"),
    (Case::KillRound, "kill over the oldest"),
    (Case::Begin, "begin"),
    (Case::End, "end"),
    (Case::Undo, "undo"),
    (Case::UndoAll, "undo of all"),
    (Case::Redo, "redo"),
    (Case::RedoAll, "redo of all"),
    (Case::LastInsert, "last_insert"),
    (Case::CopyOfRecord, "copy of the record"),
];

impl Case {
    /// After an error the call may be done in part.
    fn goes_by_parts(self) -> bool {
        matches!(self, Case::Update | Case::TransposeWords | Case::Indent)
    }

    /// After an error the record is empty.
    fn rewinds(self) -> bool {
        matches!(
            self,
            Case::Undo | Case::UndoAll | Case::Redo | Case::RedoAll
        )
    }

    /// The ring's text before the call and after it.
    fn slots(self) -> (&'static str, &'static str) {
        match self {
            Case::Kill => ("four", "three "),
            Case::KillJoined => ("four", "three four"),
            Case::KillRound => ("three ", "two "),
            _ => ("four", "four"),
        }
    }

    /// What comes before the call.
    fn prepare(self, desk: &mut Desk) -> Result<(), OutOfMemory> {
        self.lead_up(desk)?;
        desk.tighten()
    }

    fn lead_up(self, desk: &mut Desk) -> Result<(), OutOfMemory> {
        match self {
            Case::LetterJoined | Case::LastInsert => desk.type_text("x"),
            Case::BackspaceJoined => desk.backspace(),
            Case::ReplacementJoined => desk.replace(0, 3, "ONE"),
            Case::RaiseWord => Ok(desk.move_to_start()),
            Case::Indent => desk.paste("\nfour"),
            Case::Kill => Ok(desk.end_run()),
            Case::KillRound => kill_round(desk),
            Case::End => type_group(desk),
            Case::Redo => desk.undo(1).map(drop),
            Case::RedoAll => desk.undo(ALL).map(drop),
            _ => Ok(()),
        }
    }

    /// The call, and whether its answer is the right one.
    fn call(self, desk: &mut Desk) -> Result<bool, OutOfMemory> {
        let made = match self {
            Case::Letter => desk.type_text("!"),
            Case::LetterJoined => desk.type_text("y"),
            Case::Paste => desk.paste(LONG),
            Case::Backspace | Case::BackspaceJoined => desk.backspace(),
            Case::ReplacementJoined => desk.replace(3, 4, LONG),
            Case::Update => desk.update(LONG),
            Case::RaiseWord => desk.raise_word(),
            Case::TransposeWords => desk.transpose_words(),
            Case::Indent => desk.indent_all(),
            Case::Kill | Case::KillJoined | Case::KillRound => desk.kill_word_back(),
            _ => return self.call_record(desk),
        };
        made?;
        Ok(true)
    }

    fn call_record(self, desk: &mut Desk) -> Result<bool, OutOfMemory> {
        match self {
            Case::Begin => Ok(desk.begin()? == ITEMS),
            Case::End => desk.end(),
            Case::Undo => desk.undo(1),
            Case::UndoAll => desk.undo(ALL),
            Case::Redo => desk.redo(),
            Case::RedoAll => {
                let mut all = true;
                for _ in 0..ITEMS {
                    all &= desk.redo()?;
                }
                Ok(all)
            }
            Case::LastInsert => desk.last_insert_is("x"),
            _ => desk.copies_record(),
        }
    }
}

/// Another kill, so that the next one starts again at the first slot.
fn kill_round(desk: &mut Desk) -> Result<(), OutOfMemory> {
    desk.end_run();
    desk.kill_word_back()?;
    desk.end_run();
    Ok(())
}

/// The changes of a group that is still open.
fn type_group(desk: &mut Desk) -> Result<(), OutOfMemory> {
    desk.begin()?;
    desk.paste("x")?;
    desk.type_text(" y")
}

/// Whether the line had this text at some time.
fn is_known(text: &str) -> bool {
    TEXTS.iter().any(|known| *known == text)
}

/// Whether undoing item by item leaves only known texts and ends at the empty one.
fn is_undone(desk: &mut Desk) -> Result<bool, OutOfMemory> {
    let mut known = true;
    for _ in 0..ALL {
        desk.undo(1)?;
        known &= is_known(desk.text()) && desk.has_cursor();
    }
    Ok(known && desk.text().is_empty())
}

fn make_anew(desk: &mut Desk) -> Result<(), OutOfMemory> {
    for _ in 0..ALL {
        desk.redo()?;
    }
    Ok(())
}

fn undone_and_anew(desk: &mut Desk) -> Result<bool, OutOfMemory> {
    let known = is_undone(desk)?;
    make_anew(desk)?;
    Ok(known)
}

/// Whether everything can be undone, and redoing everything restores the current text, or after an
/// undo the one before it.
fn comes_back(case: Case, desk: &mut Desk) -> Result<bool, OutOfMemory> {
    let now = desk.copy_of_line()?;
    let last = if case.rewinds() { START } else { now.as_str() };
    let known = undone_and_anew(desk)?;
    Ok(known && desk.text() == last)
}

/// Whether the result of a failed call is what it promises.
fn is_left(case: Case, desk: &mut Desk, before: &LineBuffer) -> Result<bool, OutOfMemory> {
    if case.rewinds() {
        return Ok(is_known(desk.text()) && desk.has_no_record()?);
    }
    let same = desk.text() == before.as_str() && desk.pos() == before.pos();
    Ok((case.goes_by_parts() || same) && comes_back(case, desk)?)
}

fn begun(case: Case, alloc: Global) -> Result<(Desk, LineBuffer), OutOfMemory> {
    let mut desk = Desk::new(alloc)?;
    case.prepare(&mut desk)?;
    let before = desk.copy_of_line()?;
    Ok((desk, before))
}

/// Whether the result of a call that succeeded is right.
fn is_done(case: Case, desk: &mut Desk) -> Result<bool, OutOfMemory> {
    let (_, new) = case.slots();
    let right = desk.yanks(new);
    Ok(comes_back(case, desk)? && right)
}

/// Whether the result of a call that failed is right.
fn is_refused(case: Case, desk: &mut Desk, before: &LineBuffer) -> Result<bool, OutOfMemory> {
    let (old, new) = case.slots();
    let right = desk.yanks(old) || desk.yanks(new);
    Ok(is_left(case, desk, before)? && right)
}

/// How the call ended, and whether its result is right.
fn judged(
    case: Case,
    desk: &mut Desk,
    before: &LineBuffer,
) -> (&'static str, Result<bool, OutOfMemory>) {
    match case.call(desk) {
        Ok(true) => ("done", is_done(case, desk)),
        Ok(false) => ("done", Ok(false)),
        Err(OutOfMemory) => ("refused", is_refused(case, desk, before)),
    }
}

fn verdict(case: Case, alloc: Global) -> (&'static str, &'static str) {
    let Ok((mut desk, before)) = begun(case, alloc) else {
        return ("not begun", "");
    };
    let (word, right) = judged(case, &mut desk, &before);
    match right {
        Ok(true) => (word, ""),
        Ok(false) => (word, ", WRONG"),
        Err(OutOfMemory) => ("not judged", ""),
    }
}

fn check(rt: &impl Print, alloc: Global, case: Case, name: &str) -> io::Result<()> {
    let (word, mark) = verdict(case, alloc);
    println!(rt; "{name}: {word}{mark}")
}

pub(crate) fn check_all(rt: &impl Print, alloc: Global) -> io::Result<()> {
    for (case, name) in &CASES {
        check(rt, alloc, *case, name)?;
    }
    Ok(())
}
