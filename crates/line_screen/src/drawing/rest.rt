//! Draws the rest of a line from a cell on, and what stands after it.

ghost use Rattle.std.specs.Prelude.{◌≡◌, ◌<◌, ◌++◌, [], IsTrue, IsCharBoundary, OnOk, OnErr, IfOk};
ghost use Rattle.line_screen.specs.Drawing.{in_fence, move_bytes, erase_to_end};
ghost use Rattle.line_screen.specs.Colours.{bytes_of_all_painted, painted_text, brush_spans, styles_after, rest_bytes, rest_drawing};
ghost use Rattle.line_screen.specs.Measure.{widths_by, in_row};
ghost use Rattle.line_config.specs.Sending.{Sends};

use crate::drawing::painted::{Brush, send_painted_from};
use crate::drawing::sequences::{flush, send, send_move};
use crate::drawing::whole::send_part;
use crate::grid::Grid;
use line_buffer::{Position, Unit};
use line_config::{DeviceFailed, Sink};
use line_help::Highlighter;

/// A line of which the rest is drawn, from a place on, and what stands after it; the drawing's end
/// and the cursor.
#[derive(Drop)]
pub(crate) struct Rest<'a, H> {
    pub line: Brush<'a, H>,
    pub from: usize,
    pub info: Brush<'a, H>,
    pub end: Position,
    pub cursor: Position,
}

/// What stands after a line, and the end of all styles; nothing is written for no text.
fn send_info<D: Sink, H: Highlighter>(
    sink: &mut D,
    grid: &Grid,
    start: Unit,
    info: &Brush<'_, H>,
) -> Result<(), DeviceFailed>
    requires inside { start < grid.now.columns }
    ensures { Sends D.held D.has_failed
        (in_fence info.now.text.now (bytes_of_all_painted grid.now.columns
        (painted_text (widths_by grid.now.mode grid.now.tab grid.now.columns)
        (brush_spans H.marks info.now) info.now.text.now) start))
        sink.old sink.new result }
{
    if info.text.is_empty() {
        return Ok(());
    }
    send_part(sink, grid, start, info)?;
    send(sink, b"\x1B[m")
}

/// The rest from a column on, and what stands after it.
fn send_rest<D: Sink, H: Highlighter>(
    sink: &mut D,
    grid: &Grid,
    start: Unit,
    rest: &Rest<'_, H>,
) -> Result<(), DeviceFailed>
    requires inside { start < grid.now.columns }
    requires boundary { IsCharBoundary rest.now.line.text.now rest.now.from }
    ensures { Sends D.held D.has_failed
        (rest_bytes grid.now.columns (widths_by grid.now.mode grid.now.tab grid.now.columns)
        (styles_after H.marks rest.now) rest.now.line.text.now rest.now.from
        rest.now.info.text.now start)
        sink.old sink.new result }
{
    let end = send_painted_from(sink, grid, start, &rest.line, rest.from)?;
    send_info(sink, grid, end, &rest.info)
}

/// The way from `old` to `at`, everything from there on erased, and the rest drawn there.
fn draw_at<D: Sink, H: Highlighter>(
    sink: &mut D,
    grid: &Grid,
    old: Position,
    at: Position,
    rest: &Rest<'_, H>,
) -> Result<(), DeviceFailed>
    requires boundary { IsCharBoundary rest.now.line.text.now rest.now.from }
    ensures { Sends D.held D.has_failed
        (move_bytes old at ++ (erase_to_end
        ++ rest_bytes grid.now.columns (widths_by grid.now.mode grid.now.tab grid.now.columns)
        (styles_after H.marks rest.now) rest.now.line.text.now rest.now.from
        rest.now.info.text.now (in_row grid.now.columns at).col))
        sink.old sink.new result }
{
    send_move(sink, old, at)?;
    send(sink, b"\x1B[J")?;
    let col = if at.col < grid.columns { at.col } else { 0 };
    send_rest(sink, grid, col, rest)
}

/// The same, and the move to the cursor, passed on.
pub(crate) fn draw_rest<D: Sink, H: Highlighter>(
    sink: &mut D,
    grid: Grid,
    old: Position,
    at: Position,
    rest: &Rest<'_, H>,
) -> Result<(), DeviceFailed>
    requires boundary { IsCharBoundary rest.now.line.text.now rest.now.from }
    ensures sends { Sends D.held D.has_failed
        (rest_drawing grid.columns (widths_by grid.mode grid.tab grid.columns)
        (styles_after H.marks rest.now) rest.now.line.text.now rest.now.from
        rest.now.info.text.now old at rest.now.end rest.now.cursor)
        sink.old sink.new result }
    ensures passes { OnOk result (D.waits sink.new ≡ []) }
{
    draw_at(sink, &grid, old, at, rest)?;
    send_move(sink, rest.end, rest.cursor)?;
    flush(sink)
}
