//! Letters written over others.

ghost use Rattle.std.specs.Prelude.{◌≡◌, ◌+◌, ◌≤◌, ◌++◌, [], length, OnOk};
ghost use Rattle.line_screen.specs.Display.{right};
ghost use Rattle.line_screen.specs.Drawing.{short_move};
ghost use Rattle.line_config.specs.Sending.{Sends};

use crate::drawing::sequences::{flush, send, send_short_move};
use line_buffer::{Position, Unit};
use line_config::{DeviceFailed, Sink};

/// The way from `old` to `at`, letters written from there on, and the way to `new`, passed on.
pub(crate) fn write_letters<D: Sink>(
    sink: &mut D,
    letters: &[u8],
    old: Position,
    at: Position,
    new: Position,
) -> Result<(), DeviceFailed>
    requires room { at.col + length letters.now ≤ 65535 }
    ensures sends { Sends D.held D.has_failed
        (short_move old at ++ (letters.now ++ short_move (right (length letters.now) at) new))
        sink.old sink.new result }
    ensures passes { OnOk result (D.waits sink.new ≡ []) }
{
    send_short_move(sink, old, at)?;
    send(sink, letters)?;
    let end = Position {
        col: at.col + letters.len() as Unit,
        row: at.row,
    };
    send_short_move(sink, end, new)?;
    flush(sink)
}
