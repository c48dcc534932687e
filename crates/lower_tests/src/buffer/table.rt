//! How a table of motions is played. A row is `'ab|c' call = answer 'a|bc'`: the line before, with
//! `|` at the cursor, the call, its answer, and the line then. A row without a line continues with
//! the line that the row before it left.

use crate::buffer::arguments::Arguments;
use line_buffer::{
    GraphemeClusterMode, Layout, LineBuffer, OutOfMemory, Position, RepeatCount, TabStops,
};
use stand_ins::lines::{line_of, shown_of};
use stand_ins::rows::{Player, Starts, raised};
use stand_ins::tables::parted;
use std::alloc::Global;
use std::test::Fail;

/// A line on which each row's call is made.
#[derive(Drop)]
pub(crate) struct Desk {
    line: LineBuffer,
}

impl Player for Desk {
    fn play(&mut self, alloc: Global, call: &str) -> Result<String, Fail> {
        let call = begun(alloc, &mut self.line, call)?;
        raised(step(alloc, &mut self.line, call))
    }
}

/// The first row is on the empty line.
impl Starts for Desk {
    fn start(alloc: Global) -> Result<Self, Fail> {
        let line = line_of(alloc, "")?;
        Ok(Desk { line })
    }
}

/// Takes the line with which a row begins, if it has one, and returns the call.
fn begun<'a>(alloc: Global, line: &mut LineBuffer, call: &'a str) -> Result<&'a str, OutOfMemory> {
    let Some(quoted) = call.strip_prefix('\'') else {
        return Ok(call);
    };
    let (shown, call) = parted(quoted, "'");
    *line = line_of(alloc, shown)?;
    Ok(call.trim_start())
}

/// Makes a call, and returns the answer of its row.
fn step(alloc: Global, line: &mut LineBuffer, call: &str) -> Result<String, OutOfMemory> {
    let a = Arguments::of(call);
    let place = line.next_pos(a.n());
    let moved = moved(line, &a);
    let shown = shown_of(alloc, line)?;
    raised(match moved {
        Some(answer) => format!(in alloc; "{answer} '{shown}'"),
        None => format!(in alloc; "{place:?} '{shown}'"),
    })
}

/// Makes a motion; `None` if the call is another one.
fn moved(line: &mut LineBuffer, a: &Arguments<'_>) -> Option<bool> {
    let n = a.n();
    Some(match a.name {
        "move_forward" => line.move_forward(n),
        "move_backward" => line.move_backward(n),
        "move_to_prev_word" => line.move_to_prev_word(a.word, n),
        "move_to_next_word" => line.move_to_next_word(a.at, a.word, n),
        "move_to" => line.move_to(a.search, n),
        "move_to_line_up" => line.move_to_line_up(n, &layout(a.mode, a.column, a.stops)),
        "move_to_line_down" => line.move_to_line_down(n, &layout(a.mode, a.column, a.stops)),
        _ => return moved_to_an_end(line, a.name),
    })
}

/// Moves to an end, or returns where the cursor is; `None` if the call is another one.
fn moved_to_an_end(line: &mut LineBuffer, name: &str) -> Option<bool> {
    Some(match name {
        "move_home" => line.move_home(),
        "move_end" => line.move_end(),
        "move_buffer_start" => line.move_buffer_start(),
        "move_buffer_end" => line.move_buffer_end(),
        "is_end_of_input" => line.is_end_of_input(),
        "is_cursor_at_end" => line.is_cursor_at_end(),
        _ => return None,
    })
}

/// The layout after a prompt that ends at a column.
pub(crate) fn layout(
    mode: GraphemeClusterMode,
    col: RepeatCount,
    stops: Option<TabStops>,
) -> Layout {
    let mut layout = Layout::new(mode);
    layout.prompt_size = Position { col, row: 0 };
    layout.tab_stops = stops;
    layout
}
