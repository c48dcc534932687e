//! Rows as a table.

use std::io;
use unicode_width::UnicodeWidthStr;

/// Prints rows of texts, of which the first names the columns. Each column is as wide as its widest
/// text.
pub(crate) fn print(rt: &HostRuntime, rows: &[Vec<String>]) -> io::Result<()> {
    let mut is_head = true;
    for row in rows {
        for (column, cell) in row.iter().enumerate() {
            let room = width_of(rows, column).saturating_sub(cell.as_str().width());
            print!(rt; "| {cell}{:room$} ", "")?;
        }
        println!(rt; "|")?;
        if is_head {
            print_rule(rt, rows, row.len())?;
            is_head = false;
        }
    }
    Ok(())
}

fn print_rule(rt: &HostRuntime, rows: &[Vec<String>], columns: usize) -> io::Result<()> {
    for column in 0..columns {
        let width = width_of(rows, column);
        print!(rt; "|-{:-<width$}-", "")?;
    }
    println!(rt; "|")
}

/// The columns of a terminal that the widest text of a column takes.
fn width_of(rows: &[Vec<String>], column: usize) -> usize {
    let mut width = 0;
    for row in rows {
        if let Some(cell) = row.get(column) {
            width = width.max(cell.as_str().width());
        }
    }
    width
}
