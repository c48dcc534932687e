//! Draws a text behind what is drawn.

ghost use Rattle.std.specs.Prelude.{◌≡◌, [], OnOk, IfOk};
ghost use Rattle.line_screen.specs.Drawing.{bytes_of_items, text_items};
ghost use Rattle.line_screen.specs.Measure.{widths_by, in_row, measure_of};
ghost use Rattle.line_config.specs.Sending.{Sends};

use crate::drawing::sequences::{flush, send_flushed};
use crate::drawing::text::send_text;
use crate::grid::{Grid, is_letter};
use crate::measuring::measure_in;
use line_buffer::Position;
use line_config::{DeviceFailed, Sink};

/// A text behind what is drawn, whose end is at a place, passed on. Returns where its drawing ends.
/// A letter that doesn't fill its row is one write.
pub(crate) fn draw_behind<D: Sink>(
    sink: &mut D,
    grid: Grid,
    at: Position,
    text: &str,
) -> Result<Position, DeviceFailed>
    ensures sends { Sends D.held D.has_failed
        (bytes_of_items grid.columns
        (text_items (widths_by grid.mode grid.tab grid.columns) text.now)
        (in_row grid.columns at).col)
        sink.old sink.new result }
    ensures passes { OnOk result (D.waits sink.new ≡ []) }
    ensures end { IfOk result
        (λ end. end ≡ measure_of grid.mode grid.tab grid.columns text.now at) }
{
    if at.col < grid.columns && (at.col + 1 < grid.columns && is_letter(text)) {
        send_flushed(sink, text.as_bytes())?;
        return Ok(Position {
            col: at.col + 1,
            row: at.row,
        });
    }
    let end = measure_in(grid, text, at);
    let col = if at.col < grid.columns { at.col } else { 0 };
    send_text(sink, grid, col, text)?;
    flush(sink)?;
    Ok(end)
}
