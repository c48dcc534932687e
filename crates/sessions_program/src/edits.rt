//! Each edit of a line, each call of the undo record and of the kill ring, and each call of a
//! history. The listener of an edit makes its events on its own text. A row for each says whether
//! it succeeded or failed, and whether its result is right. `tests/program/edit_allocations.py`
//! runs this with
//! each allocation failing in turn.

pub(crate) mod commands;
mod desk;
mod histories;
mod record_cases;
mod row_sink;
mod shadow;
pub(crate) mod slate;
mod words;

use line_buffer::{
    At, CharSearch, LineBuffer, Movement, NoListener, OutOfMemory, Word, WordAction,
};
use shadow::Shadow;
use std::alloc::Global;
use std::io;

const TEXT: &str = "one tw\u{E9} (three)\nfour \u{6F22}\u{5B57} six\n  seven";

/// A place inside the second row.
const PLACE: usize = 22;

const LONG: &str =
    "a long text that takes more room than a line of this length has left, so that it must grow";

/// One edit of a line.
#[derive(Clone, Copy)]
enum Edit {
    Update,
    Insert,
    InsertMany,
    Yank,
    YankPop,
    Delete,
    Backspace,
    KillLine,
    KillBuffer,
    DiscardLine,
    DiscardBuffer,
    TransposeChars,
    DeletePrevWord,
    DeleteWord,
    DeleteTo,
    EditWord,
    TransposeWords,
    KillWhole,
    Indent,
    Dedent,
}

const EDITS: [(Edit, &str); 20] = [
    (Edit::Update, "update"),
    (Edit::Insert, "insert"),
    (Edit::InsertMany, "insert many"),
    (Edit::Yank, "yank"),
    (Edit::YankPop, "yank_pop"),
    (Edit::Delete, "delete"),
    (Edit::Backspace, "backspace"),
    (Edit::KillLine, "kill_line"),
    (Edit::KillBuffer, "kill_buffer"),
    (Edit::DiscardLine, "discard_line"),
    (Edit::DiscardBuffer, "discard_buffer"),
    (Edit::TransposeChars, "transpose_chars"),
    (Edit::DeletePrevWord, "delete_prev_word"),
    (Edit::DeleteWord, "delete_word"),
    (Edit::DeleteTo, "delete_to"),
    (Edit::EditWord, "edit_word"),
    (Edit::TransposeWords, "transpose_words"),
    (Edit::KillWhole, "kill"),
    (Edit::Indent, "indent"),
    (Edit::Dedent, "dedent"),
];

/// Makes an edit that inserts text, or another one; whether it succeeded.
fn change(alloc: Global, edit: Edit, line: &mut LineBuffer, shadow: &mut Shadow) -> bool {
    match edit {
        Edit::Update => line.update(alloc, LONG, 4, shadow).is_ok(),
        Edit::Insert => line.insert(alloc, '\u{E9}', 1, shadow).is_ok(),
        Edit::InsertMany => line.insert(alloc, '\u{6F22}', 90, shadow).is_ok(),
        Edit::Yank => line.yank(alloc, LONG, 2, shadow).is_ok(),
        Edit::YankPop => {
            !line.can_take_before(1) || line.yank_pop(alloc, 1, LONG, shadow).is_ok()
        }
        _ => take_away(alloc, edit, line, shadow),
    }
}

fn take_away(alloc: Global, edit: Edit, line: &mut LineBuffer, shadow: &mut Shadow) -> bool {
    match edit {
        Edit::Delete => line.delete(alloc, 2, shadow).is_ok(),
        Edit::Backspace => line.backspace(alloc, 2, shadow).is_ok(),
        Edit::KillLine => line.kill_line(alloc, shadow).is_ok(),
        Edit::KillBuffer => line.kill_buffer(alloc, shadow).is_ok(),
        Edit::DiscardLine => line.discard_line(alloc, shadow).is_ok(),
        Edit::DiscardBuffer => line.discard_buffer(alloc, shadow).is_ok(),
        Edit::DeletePrevWord => line.delete_prev_word(alloc, Word::Emacs, 1, shadow).is_ok(),
        Edit::DeleteWord => line
            .delete_word(alloc, At::AfterEnd, Word::Emacs, 1, shadow)
            .is_ok(),
        Edit::DeleteTo => line
            .delete_to(alloc, CharSearch::Forward('s'), 1, shadow)
            .is_ok(),
        _ => exchange(alloc, edit, line, shadow),
    }
}

fn exchange(alloc: Global, edit: Edit, line: &mut LineBuffer, shadow: &mut Shadow) -> bool {
    let all = &Movement::WholeBuffer;
    match edit {
        Edit::TransposeChars => line.transpose_chars(alloc, shadow).is_ok(),
        Edit::EditWord => line.edit_word(alloc, WordAction::Uppercase, shadow).is_ok(),
        Edit::TransposeWords => line.transpose_words(alloc, 1, shadow).is_ok(),
        Edit::Indent => line.indent(alloc, all, 40, false, shadow).is_ok(),
        Edit::Dedent => line.indent(alloc, all, 2, true, shadow).is_ok(),
        _ => line.kill(alloc, all, shadow).is_ok(),
    }
}

/// A line of the text with its cursor at the place, which may grow.
fn start(alloc: Global) -> Result<LineBuffer, OutOfMemory> {
    let mut line = LineBuffer::with_capacity(alloc, TEXT.len())?.can_growth(true);
    line.insert_str(alloc, 0, TEXT, &mut NoListener)?;
    if line.as_str().is_char_boundary(PLACE) {
        line.set_pos(PLACE);
    }
    Ok(line)
}

/// How an edit ended, and a mark if its result is wrong.
fn judged(
    alloc: Global,
    edit: Edit,
    line: &mut LineBuffer,
    shadow: &mut Shadow,
) -> (&'static str, &'static str) {
    let done = change(alloc, edit, line, shadow);
    let cursor = line.as_str().is_char_boundary(line.pos());
    let right = shadow.agrees(line.as_str()) && cursor;
    (
        if done { "done" } else { "refused" },
        if right { "" } else { ", WRONG" },
    )
}

fn made(alloc: Global, edit: Edit) -> Result<(&'static str, &'static str), OutOfMemory> {
    let mut line = start(alloc)?;
    let mut shadow = Shadow::new(alloc, TEXT)?;
    Ok(judged(alloc, edit, &mut line, &mut shadow))
}

fn check(rt: &impl Print, alloc: Global, edit: Edit, name: &str) -> io::Result<()> {
    let (word, mark) = made(alloc, edit).unwrap_or(("not begun", ""));
    println!(rt; "{name}: {word}{mark}")
}

/// Makes all these calls, and writes a row for each.
pub(crate) fn check_all(rt: &HostRuntime) -> io::Result<()> {
    for (edit, name) in &EDITS {
        check(rt, rt.alloc(), *edit, name)?;
    }
    record_cases::check_all(rt, rt.alloc())?;
    histories::check(rt, rt.alloc())
}
