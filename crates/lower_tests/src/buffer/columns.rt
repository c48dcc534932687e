//! Widths of texts, and motions up and down by rows. A motion's first number is its count, the second the column where
//! the prompt ends.

use crate::buffer::table::layout;
use line_buffer::{GraphemeClusterMode, Layout, LineBuffer, OutOfMemory, Position};
use stand_ins::lines::line_of;
use stand_ins::rows::{Player, raised, rows_hold, stands};
use stand_ins::tables::meant;
use std::alloc::Global;
use std::test::Fail;

const UP_BY_ROWS: &str = "
    'hello␊abc|'    move_to_line_up 1 0 = true 'hel|lo␊abc'
    'hello␊abc|'    move_to_line_up 1 2 = true 'h|ello␊abc'
    'hello␊|abc'    move_to_line_up 1 2 = true '|hello␊abc'
    'hello␊a|bc'    move_to_line_up 1 9 = true '|hello␊abc'
    'ab␊hello|'     move_to_line_up 1 0 = true 'ab|␊hello'
    'abc␊␊vwx|yz'   move_to_line_up 1 0 = true 'abc␊|␊vwxyz'
    'abc␊␊vwx|yz'   move_to_line_up 2 0 = true 'abc|␊␊vwxyz'
    'abc␊␊vwx|yz'   move_to_line_up 2 1 = true 'ab|c␊␊vwxyz'
    'abc␊␊vwx|yz'   move_to_line_up 65535 0 = true 'abc|␊␊vwxyz'
    'ab␍␊cd|'       move_to_line_up 1 0 = true 'ab|␍␊cd'
    'ab␍␊cdef|'     move_to_line_up 1 0 = true 'ab␍|␊cdef'
    '漢字␊ab|c'       move_to_line_up 1 0 = true '漢|字␊abc'
    '漢字␊abcd|'      move_to_line_up 1 0 = true '漢字|␊abcd'
    '漢字␊abcd|'      move_to_line_up 1 1 = true '漢|字␊abcd'
    'e\u{301}x␊a|b' move_to_line_up 1 0 = true 'e\u{301}|x␊ab'
    'e\u{301}x␊ab|' move_to_line_up 1 0 = true 'e\u{301}x|␊ab'
    '🇩🇪z␊ab|c'      move_to_line_up 1 0 = true '🇩🇪|z␊abc'
    ";

const DOWN_BY_ROWS: &str = "
    'hell|o␊abc'     move_to_line_down 1 0 = true 'hello␊abc|'
    'h|ello␊abc'     move_to_line_down 1 2 = true 'hello␊abc|'
    '|hello␊abc'     move_to_line_down 1 2 = true 'hello␊ab|c'
    '|hello␊abc'     move_to_line_down 1 0 = true 'hello␊|abc'
    'ab|c␊␊vwxyz'    move_to_line_down 1 0 = true 'abc␊|␊vwxyz'
    'ab|c␊␊vwxyz'    move_to_line_down 2 0 = true 'abc␊␊vw|xyz'
    'ab|c␊␊vwxyz'    move_to_line_down 65535 0 = true 'abc␊␊vw|xyz'
    'ab|c␊␊vwxyz'    move_to_line_down 2 2 = true 'abc␊␊vwxy|z'
    'ab|c␊␊'         move_to_line_down 9 0 = true 'abc␊␊|'
    '漢|字␊abc'        move_to_line_down 1 0 = true '漢字␊ab|c'
    '漢|字␊abc'        move_to_line_down 1 1 = true '漢字␊abc|'
    'abc|␊漢字'        move_to_line_down 1 0 = true 'abc␊漢|字'
    'a|bc␊漢字'        move_to_line_down 1 0 = true 'abc␊|漢字'
    'a|bc␊e\u{301}x' move_to_line_down 1 0 = true 'abc␊e\u{301}|x'
    ";

const NO_ROW_TO_GO_TO: &str = "
    '|'      move_to_line_up 1 2 = false '|'
             move_to_line_down 1 2 = false '|'
    'ab|c'   move_to_line_up 1 2 = false 'ab|c'
             move_to_line_down 1 2 = false 'ab|c'
    'abc|␊d' move_to_line_up 1 2 = false 'abc|␊d'
             move_to_line_down 0 2 = false 'abc|␊d'
    'abc␊|d' move_to_line_up 0 2 = false 'abc␊|d'
             move_to_line_down 1 2 = false 'abc␊|d'
    ";

const JOINED_EMOJI_ABOVE: &str = "
    '👩\u{200D}🔬z␊ab|cdef' move_to_line_up 1 0 Unicode = true '👩\u{200D}🔬|z␊abcdef'
    '👩\u{200D}🔬z␊abc|def' move_to_line_up 1 0 Unicode = true '👩\u{200D}🔬z|␊abcdef'
    '👩\u{200D}🔬z␊abc|def' move_to_line_up 1 0 WcWidth = true '|👩\u{200D}🔬z␊abcdef'
    '👩\u{200D}🔬z␊abcd|ef' move_to_line_up 1 0 WcWidth = true '👩\u{200D}🔬|z␊abcdef'
    '👩\u{200D}🔬z␊abc|def' move_to_line_up 1 0 NoZwj = true '|👩\u{200D}🔬z␊abcdef'
    '👩\u{200D}🔬z␊abcde|f' move_to_line_up 1 0 NoZwj = true '👩\u{200D}🔬z|␊abcdef'
    ";

const UP_WITH_TABS: &str = "
    '␉x␊abcdefg|hij'  move_to_line_up 1 0 tabs:8/80 = true '|␉x␊abcdefghij'
    '␉x␊abcdefgh|ij'  move_to_line_up 1 0 tabs:8/80 = true '␉|x␊abcdefghij'
    '␉x␊abcdefghij|'  move_to_line_up 1 0 tabs:8/80 = true '␉x|␊abcdefghij'
    '␉x␊a|bcdefghij'  move_to_line_up 1 2 tabs:8/80 = true '|␉x␊abcdefghij'
    '␉x␊abcdefg|hij'  move_to_line_up 1 2 tabs:8/80 = true '|␉x␊abcdefghij'
    '␉x␊abcdefgh|ij'  move_to_line_up 1 2 tabs:8/80 = true '␉|x␊abcdefghij'
    '␉x␊␉abcdefg|h'   move_to_line_up 1 9 tabs:8/80 = true '|␉x␊␉abcdefgh'
    '␉x␊␉abcdefgh|'   move_to_line_up 1 9 tabs:8/80 = true '␉|x␊␉abcdefgh'
    '␉␉x␊␉abcdefg|h'  move_to_line_up 1 0 tabs:8/80 = true '␉|␉x␊␉abcdefgh'
    '␉␉x␊␉abcdefgh|'  move_to_line_up 1 0 tabs:8/80 = true '␉␉|x␊␉abcdefgh'
    'abc␉x␊ab|cdefgh' move_to_line_up 1 0 tabs:8/80 = true 'ab|c␉x␊abcdefgh'
    'abc␉x␊abcdefg|h' move_to_line_up 1 0 tabs:8/80 = true 'abc|␉x␊abcdefgh'
    'abcdefgh␉x␊␉␉|'  move_to_line_up 1 0 tabs:8/80 = true 'abcdefgh␉|x␊␉␉'
    'abcdefghij␊a␉b|' move_to_line_up 1 0 tabs:8/80 = true 'abcdefghi|j␊a␉b'
    '␉␊abcdefghij|'   move_to_line_up 1 0 tabs:8/80 = true '␉|␊abcdefghij'
    '␉␊␉x␊abcdefgh|'  move_to_line_up 2 0 tabs:8/80 = true '␉|␊␉x␊abcdefgh'
    'ab␉␍␊abcdefgh|i' move_to_line_up 1 0 tabs:8/80 = true 'ab␉|␍␊abcdefghi'
    ";

const DOWN_WITH_TABS: &str = "
    '␉|x␊abcdefghij' move_to_line_down 1 0 tabs:8/80 = true '␉x␊abcdefgh|ij'
    '␉x|␊abcdefghij' move_to_line_down 1 0 tabs:8/80 = true '␉x␊abcdefghi|j'
    '␉|x␊abcdefghij' move_to_line_down 1 2 tabs:8/80 = true '␉x␊abcdefgh|ij'
    '␉|x␊␉␉y'        move_to_line_down 1 9 tabs:8/80 = true '␉x␊␉␉|y'
    '|␉x␊␉y'         move_to_line_down 1 2 tabs:8/80 = true '␉x␊|␉y'
    '|␉x␊␉y'         move_to_line_down 1 9 tabs:8/80 = true '␉x␊␉y|'
    'a␉b|␊␉␉c'       move_to_line_down 1 0 tabs:8/80 = true 'a␉b␊␉|␉c'
    'a␉b|␊␉␉c'       move_to_line_down 1 8 tabs:8/80 = true 'a␉b␊␉␉c|'
    '␉|␊x␊␉y'        move_to_line_down 2 0 tabs:8/80 = true '␉␊x␊␉|y'
    '␉|x'            move_to_line_down 1 0 tabs:8/80 = false '␉|x'
    ";

/// Rows that are longer than those of the display. In each of its rows stops are counted anew.
const TABS_AT_THE_END_OF_A_ROW: &str = "
    '1234␉x␊1234|5'     move_to_line_up 1 0 tabs:4/5 = true '1234|␉x␊12345'
    '1234␉x␊12345|'     move_to_line_up 1 0 tabs:4/5 = true '1234␉|x␊12345'
    '␉␉␉x␊12345678|9'   move_to_line_up 1 0 tabs:4/5 = true '␉␉|␉x␊123456789'
    '␉␉␉x␊123456789|'   move_to_line_up 1 0 tabs:4/5 = true '␉␉␉|x␊123456789'
    '12345␉x␊1234567|8' move_to_line_up 1 0 tabs:3/5 = true '12345|␉x␊12345678'
    '12345␉x␊12345678|' move_to_line_up 1 0 tabs:3/5 = true '12345␉|x␊12345678'
    '␉x␊123456|7'       move_to_line_up 1 4 tabs:3/5 = true '␉x|␊1234567'
    '␉x␊12345|'         move_to_line_up 1 4 tabs:3/5 = true '␉|x␊12345'
    '1234␉|x␊1234567'   move_to_line_down 1 0 tabs:4/5 = true '1234␉x␊12345|67'
    '␉␉|␊123456789'     move_to_line_down 1 3 tabs:4/5 = true '␉␉␊12345|6789'
    ";

/// A stop in each column, stops 255 columns apart, and displays of one column or none.
const OTHER_STOPS: &str = "
    '␉␉x␊ab|cd'  move_to_line_up 1 0 tabs:1/80 = true '␉␉|x␊abcd'
    '␉␉x␊abc|d'  move_to_line_up 1 0 tabs:1/80 = true '␉␉x|␊abcd'
    '␉␉x␊ab|cd'  move_to_line_up 1 0 tabs:0/80 = true '␉␉|x␊abcd'
    '␉␉x␊ab|cd'  move_to_line_up 1 1 tabs:0/80 = true '␉|␉x␊abcd'
    '␉x␊12345|6' move_to_line_up 1 0 tabs:255/6 = true '|␉x␊123456'
    '␉x␊123456|' move_to_line_up 1 0 tabs:255/6 = true '␉|x␊123456'
    '␉␉x␊␉123|'  move_to_line_up 1 0 tabs:255/300 = true '␉|␉x␊␉123'
    '␉␉x␊␉␉|'    move_to_line_up 1 9 tabs:255/300 = true '␉␉|x␊␉␉'
    '␉␉x␊ab|cd'  move_to_line_up 1 0 tabs:8/1 = true '␉␉|x␊abcd'
    '␉␉x␊ab|cd'  move_to_line_up 1 0 tabs:8/0 = true '␉␉|x␊abcd'
    ";

const TABS_BESIDE_WIDE_CLUSTERS: &str = "
    '漢␉字␊a|bcdefghij'       move_to_line_up 1 0 tabs:8/80 = true '|漢␉字␊abcdefghij'
    '漢␉字␊abcdefg|hij'       move_to_line_up 1 0 tabs:8/80 = true '漢|␉字␊abcdefghij'
    '漢␉字␊abcdefghi|j'       move_to_line_up 1 0 tabs:8/80 = true '漢␉|字␊abcdefghij'
    '漢␉字␊abcdefghij|'       move_to_line_up 1 0 tabs:8/80 = true '漢␉字|␊abcdefghij'
    'a␉\u{301}b␊abcdefgh|i' move_to_line_up 1 0 tabs:8/80 = true 'a␉\u{301}|b␊abcdefghi'
    '🇩🇪␉z␊abcdefg|h'        move_to_line_up 1 0 tabs:8/80 = true '🇩🇪|␉z␊abcdefgh'
    '🇩🇪␉z␊abcdefgh|'        move_to_line_up 1 0 tabs:8/80 = true '🇩🇪␉|z␊abcdefgh'
    '👩\u{200D}🔬␉z␊abc|d'    move_to_line_up 1 0 tabs:8/80 Unicode = true '👩\u{200D}🔬|␉z␊abcd'
    '👩\u{200D}🔬␉z␊abc|d'    move_to_line_up 1 0 tabs:8/80 WcWidth = true '|👩\u{200D}🔬␉z␊abcd'
    '👩\u{200D}🔬␉z␊␉|'       move_to_line_up 1 0 tabs:8/80 NoZwj = true '👩\u{200D}🔬␉|z␊␉'
    '👩\u{200D}␉🔬␊abcdefg|h' move_to_line_up 1 0 tabs:8/80 = true '👩\u{200D}|␉🔬␊abcdefgh'
    '漢␉|字␊abcdefghi'        move_to_line_down 1 0 tabs:8/80 = true '漢␉字␊abcdefgh|i'
    ";

/// Each is a cluster like others: one column, or none in the mode `WcWidth`.
const TABS_THAT_ARE_NOT_DRAWN: &str = "
    '␉x␊|abc'       move_to_line_up 1 0 = true '|␉x␊abc'
    '␉x␊a|bc'       move_to_line_up 1 0 = true '␉|x␊abc'
    '␉x␊ab|c'       move_to_line_up 1 0 = true '␉x|␊abc'
    '␉x␊|abc'       move_to_line_up 1 0 WcWidth = true '␉|x␊abc'
    '␉x␊|abc'       move_to_line_up 1 0 WcWidth tabs:8/80 = true '|␉x␊abc'
    '␉x|␊abcdefghi' move_to_line_down 1 0 = true '␉x␊ab|cdefghi'
    ";

/// The columns of each row's text in each mode.
#[derive(Clone, Copy, Drop)]
struct Widths;

impl Player for Widths {
    fn play(&mut self, alloc: Global, text: &str) -> Result<String, Fail> {
        let text = meant(alloc, text.trim_matches('\''))?;
        let unicode = Layout::new(GraphemeClusterMode::Unicode).width(text.as_str());
        let wc_width = Layout::new(GraphemeClusterMode::WcWidth).width(text.as_str());
        let no_zwj = Layout::new(GraphemeClusterMode::NoZwj).width(text.as_str());
        raised(format!(in alloc; "{unicode} {wc_width} {no_zwj}"))
    }
}

/// A text, and its columns in each mode: `Unicode`, `WcWidth` and `NoZwj`.
const COLUMNS_BY_MODE: &str = "
    '' = 0 0 0
    'abc' = 3 3 3
    '漢字' = 4 4 4
    'e\u{301}' = 1 1 1
    '👩\u{200D}🔬' = 2 4 4
    '👩\u{200D}👩\u{200D}👧' = 2 6 6
    '👍\u{1F3FD}' = 2 4 2
    '❤\u{FE0F}' = 2 1 2
    '🇩🇪' = 2 2 2
    'a␉b' = 3 2 3
    'a␍␊b' = 3 2 3
    ";

/// Whether each mode returns the most columns.
fn has_most_columns(text: &str) -> bool {
    GraphemeClusterMode::Unicode.width(text) == 65_535
        && GraphemeClusterMode::WcWidth.width(text) == 65_535
        && GraphemeClusterMode::NoZwj.width(text) == 65_535
}

/// Moves up from the end of a row of 70,000 characters and one of one character, and down again.
fn crosses_long_rows(line: &mut LineBuffer) -> bool {
    let layout = layout(GraphemeClusterMode::Unicode, 2, None);
    line.move_to_line_up(1, &layout)
        && line.pos() == 0
        && line.move_to_line_down(1, &layout)
        && line.pos() == 70_002
}

/// Moves in a row of 70,000 characters, with another one of a character after it.
fn long_rows_are_crossed(alloc: Global, row: &str) -> Result<bool, OutOfMemory> {
    let text = format!(in alloc; "{row}\n|m")?;
    let mut line = line_of(alloc, text.as_str())?;
    Ok(crosses_long_rows(&mut line))
}

fn widths_stop_at_the_most(alloc: Global) -> Result<bool, OutOfMemory> {
    let row = "m".repeat(alloc, 70_000)?;
    Ok(has_most_columns(row.as_str()) && long_rows_are_crossed(alloc, row.as_str())?)
}

fn cells_are_in_reading_order() -> bool {
    let early = Position { col: 9, row: 0 };
    let late = Position { col: 0, row: 1 };
    early < late && Position { col: 1, row: 1 } > late && early.max(late) == late
}

#[test]
fn columns_by_mode(rt: HostRuntime) -> Result<(), Fail> {
    rows_hold(rt.alloc(), &mut Widths, COLUMNS_BY_MODE)?;
    stands(cells_are_in_reading_order(), "cells in another order")?;
    stands(
        widths_stop_at_the_most(rt.alloc())?,
        "other widths or rows of a long text",
    )
}

pub(crate) const TABLES: [&str; 10] = [
    UP_BY_ROWS,
    DOWN_BY_ROWS,
    NO_ROW_TO_GO_TO,
    JOINED_EMOJI_ABOVE,
    UP_WITH_TABS,
    DOWN_WITH_TABS,
    TABS_AT_THE_END_OF_A_ROW,
    OTHER_STOPS,
    TABS_BESIDE_WIDE_CLUSTERS,
    TABS_THAT_ARE_NOT_DRAWN,
];
