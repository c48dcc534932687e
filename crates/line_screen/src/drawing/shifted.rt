//! Letters that move in their rows: a character put before them, and cells taken out before them.

ghost use Rattle.std.specs.Prelude.{◌≡◌, ◌+◌, ◌-◌, ◌<◌, ◌≤◌, ◌++◌, [], nat_le, length, drop, encode_utf8, OnOk, if◌then◌else◌};
ghost use Rattle.line_screen.specs.Drawing.{move_bytes, take_cells_out, put_in, pushed_on, put_and_pushed, insertion_bytes, col_move, pulled_back, place_after_insertion, place_after_deletion};
ghost use Rattle.line_config.specs.Sending.{Sends};

use crate::drawing::sequences::{flush, send, send_col_move, send_control, send_move};
use line_buffer::{Position, Unit};
use line_config::{DeviceFailed, Sink};

/// A character before the rest of its row, in insert mode or in a cell opened for it.
fn put_in<D: Sink>(sink: &mut D, inserting: bool, character: &[u8]) -> Result<(), DeviceFailed>
    ensures { Sends D.held D.has_failed (put_in inserting character.now) sink.old sink.new result }
{
    if inserting {
        return send(sink, character);
    }
    send(sink, b"\x1B[@")?;
    send(sink, character)
}

/// Letters that move on by a cell each, from a row's start on: the first one of each row is put in
/// there.
fn push_on<D: Sink>(
    sink: &mut D,
    columns: Unit,
    inserting: bool,
    letters: &[u8],
) -> Result<(), DeviceFailed>
    requires some { 0 < columns }
    ensures { Sends D.held D.has_failed (pushed_on inserting columns 0 letters.now)
        sink.old sink.new result }
{
    let columns = usize::from(columns);
    let mut rest = letters;
    while columns <= rest.len() {
        let (row, next) = rest.split_at(columns);
        put_in(sink, inserting, &[row[0]])?;
        send(sink, b"\r\n")?;
        rest = next;
    }
    match rest.first() {
        Some(letter) => put_in(sink, inserting, &[*letter]),
        None => Ok(()),
    }
}

/// A character put before letters.
fn put_and_push<D: Sink>(
    sink: &mut D,
    columns: Unit,
    inserting: bool,
    col: Unit,
    ch: char,
    rest: &[u8],
) -> Result<(), DeviceFailed>
    requires inside { col < columns }
    ensures { Sends D.held D.has_failed
        (put_and_pushed inserting columns col (encode_utf8 ch) rest.now) sink.old sink.new result }
{
    let mut bytes = [0u8; 4];
    put_in(sink, inserting, ch.encode_utf8(&mut bytes).as_bytes())?;
    let free = usize::from(columns - col - 1);
    if rest.len() < free {
        return Ok(());
    }
    send(sink, b"\r\n")?;
    push_on(sink, columns, inserting, &rest[free..])
}

/// A character put before letters, in insert mode if they begin two more rows.
fn send_before<D: Sink>(
    sink: &mut D,
    columns: Unit,
    col: Unit,
    ch: char,
    rest: &[u8],
) -> Result<(), DeviceFailed>
    requires inside { col < columns }
    ensures { Sends D.held D.has_failed (insertion_bytes columns col (encode_utf8 ch) rest.now)
        sink.old sink.new result }
{
    let two_rows = usize::from(columns) + usize::from(columns - col);
    if rest.len() < two_rows {
        return put_and_push(sink, columns, false, col, ch, rest);
    }
    send(sink, b"\x1B[4h")?;
    put_and_push(sink, columns, true, col, ch, rest)?;
    send(sink, b"\x1B[4l")
}

/// Where the cursor is after that, if the drawing ends at `end` then.
fn place_after_insertion(old: Position, new: Position, end: Position) -> Position
    ensures { result ≡ place_after_insertion old new end }
{
    if end.row == old.row {
        return new;
    }
    let col = if end.col == 0 { 0 } else { 1 };
    Position { col, row: end.row }
}

/// A character in a cell opened at `old` before letters, then the way to `new`, passed on.
pub(crate) fn put_before<D: Sink>(
    sink: &mut D,
    columns: Unit,
    ch: char,
    rest: &[u8],
    old: Position,
    new: Position,
    end: Position,
) -> Result<(), DeviceFailed>
    requires inside { old.col < columns }
    ensures sends { Sends D.held D.has_failed
        (insertion_bytes columns old.col (encode_utf8 ch) rest.now
        ++ move_bytes (place_after_insertion old new end) new)
        sink.old sink.new result }
    ensures passes { OnOk result (D.waits sink.new ≡ []) }
{
    send_before(sink, columns, old.col, ch, rest)?;
    send_move(sink, place_after_insertion(old, new, end), new)?;
    flush(sink)
}

/// So many cells taken out of the row from the cursor on.
fn send_taken_out<D: Sink>(sink: &mut D, count: Unit) -> Result<(), DeviceFailed>
    ensures { Sends D.held D.has_failed (take_cells_out count) sink.old sink.new result }
{
    if count == 1 {
        return send(sink, b"\x1B[P");
    }
    send_control(sink, count, b'P')
}

/// Cells taken out of a row before its letters, if some of them come from the next row: these are
/// written at the row's end.
fn refill_row<D: Sink>(
    sink: &mut D,
    columns: Unit,
    count: Unit,
    start: Unit,
    row: &[u8],
) -> Result<(), DeviceFailed>
    requires room { start + count ≤ columns }
    ensures { Sends D.held D.has_failed
        (if nat_le (length row.now) (columns - start - count) then []
        else take_cells_out count
        ++ (col_move start (columns - count) ++ drop (columns - start - count) row.now))
        sink.old sink.new result }
{
    let kept = usize::from(columns - start - count);
    if row.len() <= kept {
        return Ok(());
    }
    send_taken_out(sink, count)?;
    send_col_move(sink, start, columns - count)?;
    send(sink, &row[kept..])
}

/// Cells taken out before letters, which move back by as many.
fn pull_back<D: Sink>(
    sink: &mut D,
    columns: Unit,
    count: Unit,
    col: Unit,
    letters: &[u8],
) -> Result<(), DeviceFailed>
    requires some { 0 < count }
    requires room { col + count ≤ columns }
    ensures { Sends D.held D.has_failed (pulled_back columns count col col letters.now)
        sink.old sink.new result }
{
    let mut start = col;
    let mut rest = letters;
    while usize::from(columns - start) <= rest.len() {
        let (row, next) = rest.split_at(usize::from(columns - start));
        refill_row(sink, columns, count, start, row)?;
        send(sink, b"\r\n")?;
        start = 0;
        rest = next;
    }
    refill_row(sink, columns, count, start, rest)?;
    send_taken_out(sink, count)
}

/// Where the cursor is after that, if the drawing ends at `end` then.
fn place_after_deletion(from: Position, end: Position) -> Position
    ensures { result ≡ place_after_deletion from end }
{
    if end.row == from.row {
        return from;
    }
    Position {
        col: 0,
        row: end.row,
    }
}

/// The way from `old` to `new`, cells taken out there before letters, and the way back to `new`,
/// passed on.
pub(crate) fn move_and_take_out<D: Sink>(
    sink: &mut D,
    columns: Unit,
    old: Position,
    new: Position,
    count: Unit,
    rest: &[u8],
    end: Position,
) -> Result<(), DeviceFailed>
    requires some { 0 < count }
    requires room { new.col + count ≤ columns }
    ensures sends { Sends D.held D.has_failed
        (move_bytes old new ++ (pulled_back columns count new.col new.col rest.now
        ++ move_bytes (place_after_deletion new end) new))
        sink.old sink.new result }
    ensures passes { OnOk result (D.waits sink.new ≡ []) }
{
    send_move(sink, old, new)?;
    pull_back(sink, columns, count, new.col, rest)?;
    send_move(sink, place_after_deletion(new, end), new)?;
    flush(sink)
}
