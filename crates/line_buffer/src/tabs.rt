//! Tabs that are drawn as blanks: how many, and the columns after texts with tabs.

ghost use Rattle.std.specs.Prelude.{◌≡◌, ◌<◌, ◌≤◌, ◌+◌, Some};
ghost use Rattle.line_buffer.specs.Width.{tab_width, tab_end, column_after};

use crate::layout::{GraphemeClusterMode, TabStops, Unit};

/// More than the columns of any text.
pub(crate) const MOST_COLUMNS: u128 = 1 << 120;

/// The blanks of a tab in a column of a row: as many as there are columns up to the next stop, or
/// to the row's end.
pub fn tab_width(columns: Unit, apart: u8, col: Unit) -> Unit
    ensures { result ≡ tab_width columns apart col }
{
    let apart = Unit::from(apart.max(1));
    (apart - col % apart).min(columns.saturating_sub(col))
}

/// The column after a tab.
pub(crate) fn tab_end(stops: TabStops, col: u128) -> u128
    requires { col < MOST_COLUMNS }
    ensures value { result ≡ tab_end stops col }
    ensures near { result ≤ col + 255 }
{
    let columns = stops.columns.max(1);
    let col_in_row = (col % u128::from(columns)) as Unit;
    col + u128::from(tab_width(columns, stops.apart, col_in_row))
}

/// The column after a text with tabs.
pub(crate) fn column_after(
    mode: GraphemeClusterMode,
    stops: TabStops,
    first: Unit,
    text: &str,
) -> u128
    ensures { result ≡ column_after mode (Some stops) first text.now }
{
    let (mut start, mut col) = (0, u128::from(first));
    while let Some(tab) = text[start..].find('\t') {
        let width = mode.width(&text[start..start + tab]);
        col = tab_end(stops, col + u128::from(width));
        start += tab + 1;
    }
    col + u128::from(mode.width(&text[start..]))
}
