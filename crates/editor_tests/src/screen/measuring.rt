//! Where texts end.

use line_buffer::{GraphemeClusterMode, Position};
use line_screen::measure;
use stand_ins::rows::{Player, raised, rows_hold};
use stand_ins::tables::{meant, word_and_rest};
use std::alloc::{AllocError, Global};
use std::test::Fail;

// Columns, mode, the row and the column from which a text is measured, and the text; the row and
// the column of its end.
const PLACES: &str = "
    2 unicode 0:0 ab                                = 1:0
    2 unicode 0:0 ab␊c                              = 2:1
    80 unicode 0:79 \u{6F22}                        = 1:2
    80 unicode 0:80 a                               = 1:1
    1000 unicode 3:1000                             = 4:0
    2 unicode 65534:0 abcde                         = 65535:1
    80 unicode 0:0 \u{1F468}\u{200D}\u{1F4BB}       = 0:2
    80 wcwidth 0:0 \u{1F468}\u{200D}\u{1F4BB}       = 0:4
    80 nozwj 0:0 \u{1F468}\u{200D}\u{1F4BB}         = 0:4
    3 wcwidth 0:0 \u{1F468}\u{200D}\u{1F4BB}        = 0:1
";

fn mode_of(word: &str) -> GraphemeClusterMode {
    match word {
        "wcwidth" => GraphemeClusterMode::WcWidth,
        "nozwj" => GraphemeClusterMode::NoZwj,
        _ => GraphemeClusterMode::Unicode,
    }
}

// Row and column, with a colon between them.
fn position_of(word: &str) -> Position {
    let (row, col) = word.split_once(':').unwrap_or(("", ""));
    Position {
        row: row.parse().unwrap_or(0),
        col: col.parse().unwrap_or(0),
    }
}

fn position_told(alloc: Global, place: Position) -> Result<String, AllocError> {
    let Position { row, col } = place;
    format!(in alloc; "{row}:{col}")
}

/// Where a row's text ends.
#[derive(Drop)]
struct Ends;

impl Player for Ends {
    fn play(&mut self, alloc: Global, call: &str) -> Result<String, Fail> {
        let (first, rest) = word_and_rest(call);
        raised(end_measured(alloc, first, rest))
    }
}

// Where a row's text ends on rows of so many columns.
fn end_measured(alloc: Global, columns: &str, call: &str) -> Result<String, AllocError> {
    let (mode, call) = word_and_rest(call);
    let (from, text) = word_and_rest(call);
    let columns: u16 = columns.parse().unwrap_or(0);
    let columns = columns.max(2).min(1000);
    let text = meant(alloc, text)?;
    let end = measure(text.as_str(), position_of(from), columns, mode_of(mode));
    position_told(alloc, end)
}

#[test]
fn measures(rt: HostRuntime) -> Result<(), Fail> {
    rows_hold(rt.alloc(), &mut Ends, PLACES)
}
