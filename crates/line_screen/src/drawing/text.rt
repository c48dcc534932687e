//! Draws a text on rows of cells: a full row is left at once, and what doesn't fit goes to the next
//! row.

ghost use Rattle.std.specs.Prelude.{◌≡◌, ◌≤◌, ◌<◌, ◌∷◌, ◌++◌, ◌==◌, ◌+◌, nat_le, true, IsTrue, OnOk, OnErr, IfOk, length, map, chars, encode_utf8};
ghost use Rattle.std.specs.List.{list_all};
ghost use Rattle.unicode_segmentation.specs.Grapheme.{graphemes};
ghost use Rattle.line_screen.specs.Display.{is_printable};
ghost use Rattle.line_screen.specs.Drawing.{drawn_item, row_items, next_items, text_items, break_if, break_unless, left_col, fitted_col, no_style, bytes_of_item, col_after_one, bytes_of_items, col_after, SendsTo, SendsItems};
ghost use Rattle.line_screen.specs.Drawing.DrawnItem.{Letter, Cluster, Tab};
ghost use Rattle.line_screen.specs.Measure.{widths_by};
ghost use Rattle.line_config.specs.Sending.{Sends};

use crate::characters::chars_are_clusters;
use crate::drawing::sequences::send;
use crate::grid::{Grid, blanks, is_letter, tab_columns};
use line_buffer::{Unit, is_printable_text};
use line_config::{DeviceFailed, Sink};
use line_editor::characters::{is_narrow, is_wide};
use unicode_segmentation::UnicodeSegmentation;

/// Leaves a full row. Returns the column, like each function here.
pub(crate) fn leave_full<D: Sink>(sink: &mut D, grid: Grid, col: Unit) -> Result<Unit, DeviceFailed>
    requires inside { col ≤ grid.columns }
    ensures { SendsTo (break_if (col == grid.columns))
        (left_col grid.columns col)
        grid.columns D.held D.has_failed sink.old sink.new result }
{
    if col == grid.columns {
        send(sink, b"\r\n")?;
        return Ok(0);
    }
    Ok(col)
}

/// Goes to the next row if so many columns don't fit after `col`.
pub(crate) fn make_room<D: Sink>(
    sink: &mut D,
    grid: Grid,
    col: Unit,
    width: Unit,
) -> Result<Unit, DeviceFailed>
    requires inside { col < grid.columns }
    requires narrow { width ≤ grid.columns }
    ensures sends { Sends D.held D.has_failed
        (break_unless (nat_le (col + width) grid.columns)) sink.old sink.new result }
    ensures next { IfOk result (λ c. c ≡ fitted_col grid.columns width col) }
    ensures room { IfOk result (λ c. c + width ≤ grid.columns) }
{
    if col + width <= grid.columns {
        return Ok(col);
    }
    send(sink, b"\r\n")?;
    Ok(0)
}

/// The text of a cluster between two sequences without effect. A cluster of two or three bytes, as
/// most letters have, is one write.
fn send_fenced<D: Sink>(sink: &mut D, cluster: &str) -> Result<(), DeviceFailed>
    ensures { Sends D.held D.has_failed (no_style ++ cluster.now ++ no_style)
        sink.old sink.new result }
{
    let bytes = cluster.as_bytes();
    if let [a, b] = *bytes {
        return send(sink, &[0x1B, b'[', b'm', a, b, 0x1B, b'[', b'm']);
    }
    if let [a, b, c] = *bytes {
        return send(sink, &[0x1B, b'[', b'm', a, b, c, 0x1B, b'[', b'm']);
    }
    send(sink, b"\x1B[m")?;
    send(sink, bytes)?;
    send(sink, b"\x1B[m")
}

fn send_wide<D: Sink>(
    sink: &mut D,
    grid: Grid,
    col: Unit,
    cluster: &str,
    width: Unit,
) -> Result<Unit, DeviceFailed>
    requires inside { col < grid.columns }
    requires narrow { width ≤ grid.columns }
    ensures { SendsTo (bytes_of_item grid.columns (Cluster cluster.now width) col)
        (col_after_one grid.columns (Cluster cluster.now width) col)
        grid.columns D.held D.has_failed sink.old sink.new result }
{
    let start = make_room(sink, grid, col, width)?;
    send_fenced(sink, cluster)?;
    leave_full(sink, grid, start + width)
}

/// Printable ASCII characters, one column each, that fit in the row.
fn send_run<D: Sink>(
    sink: &mut D,
    grid: Grid,
    col: Unit,
    letters: &[u8],
) -> Result<Unit, DeviceFailed>
    requires inside { col < grid.columns }
    requires room { col + length letters.now ≤ grid.columns }
    ensures { SendsItems (map Letter letters.now) col
        grid.columns D.held D.has_failed sink.old sink.new result }
{
    send(sink, letters)?;
    leave_full(sink, grid, col + letters.len() as Unit)
}

/// A tab: blanks up to the next stop, or to the row's end.
pub(crate) fn send_tab<D: Sink>(
    sink: &mut D,
    grid: Grid,
    col: Unit,
    apart: u8,
) -> Result<Unit, DeviceFailed>
    requires inside { col < grid.columns }
    ensures { SendsTo (bytes_of_item grid.columns (Tab apart) col)
        (col_after_one grid.columns (Tab apart) col)
        grid.columns D.held D.has_failed sink.old sink.new result }
{
    let width = tab_columns(grid.columns, apart, col);
    send(sink, blanks(width))?;
    leave_full(sink, grid, col + width)
}

/// A cluster, or a question mark in place of one that doesn't fit on the display.
fn send_cluster<D: Sink>(
    sink: &mut D,
    grid: Grid,
    col: Unit,
    cluster: &str,
) -> Result<Unit, DeviceFailed>
    requires inside { col < grid.columns }
    ensures { SendsTo (bytes_of_item grid.columns
        (drawn_item (widths_by grid.mode grid.tab grid.columns) cluster.now) col)
        (col_after_one grid.columns
        (drawn_item (widths_by grid.mode grid.tab grid.columns) cluster.now) col)
        grid.columns D.held D.has_failed sink.old sink.new result }
{
    if is_letter(cluster) {
        return send_run(sink, grid, col, cluster.as_bytes());
    }
    if let Some(apart) = grid.tab_of(cluster) {
        return send_tab(sink, grid, col, apart);
    }
    match grid.cluster_columns(cluster) {
        Some(width) => send_wide(sink, grid, col, cluster, width),
        None => send_wide(sink, grid, col, "?", 1),
    }
}

pub(crate) fn send_letters<D: Sink>(
    sink: &mut D,
    grid: Grid,
    start: Unit,
    letters: &[u8],
) -> Result<Unit, DeviceFailed>
    requires inside { start < grid.columns }
    ensures { SendsItems (map Letter letters.now) start
        grid.columns D.held D.has_failed sink.old sink.new result }
{
    let mut col = start;
    let mut rest = letters;
    while !rest.is_empty() {
        let count = rest.len().min(usize::from(grid.columns - col));
        let (front, back) = rest.split_at(count);
        col = send_run(sink, grid, col, front)?;
        rest = back;
    }
    Ok(col)
}

fn send_clusters<D: Sink>(
    sink: &mut D,
    grid: Grid,
    start: Unit,
    row: &str,
) -> Result<Unit, DeviceFailed>
    requires inside { start < grid.columns }
    ensures { SendsItems (map (drawn_item (widths_by grid.mode grid.tab grid.columns))
        (graphemes true row.now)) start
        grid.columns D.held D.has_failed sink.old sink.new result }
{
    let mut col = start;
    for cluster in row.graphemes(true) {
        col = send_cluster(sink, grid, col, cluster)?;
    }
    Ok(col)
}

/// A character that is a cluster of its own.
#[tactic(auto, using(crate::proofs::WideLemmas::known_items))]
fn send_char<D: Sink>(sink: &mut D, grid: Grid, col: Unit, c: char) -> Result<Unit, DeviceFailed>
    requires inside { col < grid.columns }
    ensures { SendsTo (bytes_of_item grid.columns
        (drawn_item (widths_by grid.mode grid.tab grid.columns) (encode_utf8 c)) col)
        (col_after_one grid.columns
        (drawn_item (widths_by grid.mode grid.tab grid.columns) (encode_utf8 c)) col)
        grid.columns D.held D.has_failed sink.old sink.new result }
{
    let mut bytes = [0; 4];
    let text = c.encode_utf8(&mut bytes);
    if c > '~' && c < '\u{3000}' && is_narrow(c) {
        return send_wide(sink, grid, col, text, 1);
    }
    if is_wide(c) {
        return send_wide(sink, grid, col, text, 2);
    }
    send_cluster(sink, grid, col, text)
}

fn send_chars<D: Sink>(
    sink: &mut D,
    grid: Grid,
    start: Unit,
    row: &str,
) -> Result<Unit, DeviceFailed>
    requires inside { start < grid.columns }
    requires clusters { graphemes true row.now ≡ map encode_utf8 (chars row.now) }
    ensures { SendsItems (map (drawn_item (widths_by grid.mode grid.tab grid.columns))
        (graphemes true row.now)) start
        grid.columns D.held D.has_failed sink.old sink.new result }
{
    let mut col = start;
    for character in row.chars() {
        col = send_char(sink, grid, col, character)?;
    }
    Ok(col)
}

/// A row of the text: by characters if all are printable ASCII, otherwise by clusters.
fn send_row<D: Sink>(sink: &mut D, grid: Grid, start: Unit, row: &str) -> Result<Unit, DeviceFailed>
    requires inside { start < grid.columns }
    ensures { SendsItems (row_items (widths_by grid.mode grid.tab grid.columns) row.now) start
        grid.columns D.held D.has_failed sink.old sink.new result }
{
    if is_printable_text(row) {
        send_letters(sink, grid, start, row.as_bytes())
    } else if chars_are_clusters(row) {
        send_chars(sink, grid, start, row)
    } else {
        send_clusters(sink, grid, start, row)
    }
}

fn send_next_row<D: Sink>(
    sink: &mut D,
    grid: Grid,
    start: Unit,
    is_first: bool,
    row: &str,
) -> Result<Unit, DeviceFailed>
    requires inside { start < grid.columns }
    ensures { SendsItems
        (next_items (widths_by grid.mode grid.tab grid.columns) is_first row.now) start
        grid.columns D.held D.has_failed sink.old sink.new result }
{
    if is_first {
        return send_row(sink, grid, start, row);
    }
    send(sink, b"\r\n")?;
    send_row(sink, grid, 0, row)
}

/// A text row by row. Not inlined, so that `send_text` needs no frame for it if all is one row.
#[inline(never)]
pub(crate) fn send_rows<D: Sink>(
    sink: &mut D,
    grid: Grid,
    start: Unit,
    text: &str,
) -> Result<Unit, DeviceFailed>
    requires inside { start < grid.columns }
    ensures { SendsItems (text_items (widths_by grid.mode grid.tab grid.columns) text.now) start
        grid.columns D.held D.has_failed sink.old sink.new result }
{
    let mut col = start;
    let mut is_first = true;
    for row in text.split('\n') {
        col = send_next_row(sink, grid, col, is_first, row)?;
        is_first = false;
    }
    Ok(col)
}

/// A text from a column on. A text of printable ASCII is one row, and isn't examined further.
#[tactic(auto, using(crate::proofs::Items::letter_items))]
pub(crate) fn send_text<D: Sink>(
    sink: &mut D,
    grid: Grid,
    start: Unit,
    text: &str,
) -> Result<Unit, DeviceFailed>
    requires inside { start < grid.columns }
    ensures { SendsItems (text_items (widths_by grid.mode grid.tab grid.columns) text.now) start
        grid.columns D.held D.has_failed sink.old sink.new result }
{
    if is_printable_text(text) {
        return send_letters(sink, grid, start, text.as_bytes());
    }
    send_rows(sink, grid, start, text)
}
