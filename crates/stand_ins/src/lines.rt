//! Lines in tables of text: `ab|c` is the text `abc` with the cursor at 2.

use crate::rows::raised;
use crate::tables::{line_and_place, marked};
use line_buffer::{LineBuffer, NoListener, OutOfMemory};
use std::alloc::Global;

/// The line in a table's notation, which may grow. Without a bar the cursor is at its end.
pub fn line_of(alloc: Global, shown: &str) -> Result<LineBuffer, OutOfMemory> {
    let (text, place) = line_and_place(alloc, shown)?;
    let mut line = LineBuffer::with_capacity(alloc, 8)?.can_growth(true);
    line.replace(alloc, 0..0, text.as_str(), &mut NoListener)?;
    if line.as_str().is_char_boundary(place) {
        line.set_pos(place);
    }
    Ok(line)
}

/// A line in a table's notation.
pub fn shown_of(alloc: Global, line: &LineBuffer) -> Result<String, OutOfMemory> {
    raised(marked(alloc, line.as_str(), line.pos()))
}
