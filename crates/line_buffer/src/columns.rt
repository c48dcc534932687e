//! Motions up and down by rows. They keep the cursor's column as nearly as the clusters of the row
//! allow.
#![tactic(auto, unfolding(crate::specs::Columns::cursor_column, crate::specs::Columns::place_in_row, crate::specs::Columns::line_up, crate::specs::Columns::line_down))]

ghost use Rattle.std.specs.Char.{IsScalar};
ghost use Rattle.std.specs.Prelude.{◌≡◌, ◌<◌, ◌≤◌, ◌+◌, ◌&&◌, ◌||◌, min, take, drop, slice_get, slice_range, chars, Some, None, is_some, IfSome, IsCharBoundary};
ghost use Rattle.std.specs.List.{list_all};
ghost use Rattle.line_buffer.specs.Width.{columns_of, looks_ahead, is_solid, takes_marks, is_bare, parts, is_selected, is_flag_letter};
ghost use Rattle.line_buffer.specs.Line.{with_cursor_at};
ghost use Rattle.line_buffer.specs.Columns.{place_at_column, first_column, cursor_column, place_in_row, line_up, line_down};

use crate::layout::{GraphemeClusterMode, Layout, TabStops, Unit, char_columns};
use crate::line_buffer::LineBuffer;
use crate::rows::{first_row_end, last_row_start};
use crate::tabs::{MOST_COLUMNS, column_after, tab_end};
use crate::types::RepeatCount;
use ucd_emoji::is_emoji_variation_base;
use unicode_segmentation::UnicodeSegmentation;

/// The column at which the row that starts at a place begins.
fn row_first_column(layout: &Layout, start: usize) -> Unit
    ensures { result ≡ first_column layout.now.prompt_size.col start }
{
    if start == 0 {
        layout.prompt_size.col
    } else {
        0
    }
}

/// A newline, the joiner of Tifinagh, a vowel sign of Kirat Rai or a letter of a flag.
fn looks_ahead(c: char) -> bool
    ensures { result ≡ looks_ahead c }
{
    matches!(c, '\n' | '\u{2D7F}' | '\u{16D67}'..='\u{16D68}' | '\u{1F1E6}'..='\u{1F1FF}')
}

/// Any other character that has columns by itself, or a control character.
fn is_solid(c: char) -> bool
    ensures { result ≡ is_solid c }
{
    !looks_ahead(c) && (c <= '\u{A0}' || char_columns(c) > 0)
}

/// A character that is read in another way before a mark that has no columns.
fn takes_marks(c: char) -> bool
    ensures { result ≡ takes_marks c }
{
    is_emoji_variation_base(c) || matches!(c, '\u{2D31}'..='\u{2D65}' | '\u{2D6F}')
}

/// Whether no mark follows.
fn is_bare(next: Option<char>) -> bool
    ensures { result ≡ is_bare next }
{
    match next {
        Some(c) => is_solid(c) && !matches!(c, '\u{1F3FB}'..='\u{1F3FF}'),
        None => true,
    }
}

/// A selector follows that makes the character an emoji.
fn is_selected(c: char, next: Option<char>) -> bool
    ensures { result ≡ is_selected c next }
{
    match next {
        Some(next) => is_emoji_variation_base(c) && next == '\u{FE0F}',
        None => false,
    }
}

fn is_flag_letter(c: char) -> bool
    ensures { result ≡ is_flag_letter c }
{
    matches!(c, '\u{1F1E6}'..='\u{1F1FF}')
}

fn are_flag_letters(text: &str) -> bool
    ensures { result ≡ list_all is_flag_letter (chars text.now) }
{
    text.chars().all(|c| is_flag_letter(c))
}

/// Whether a text may be parted before a character, by the one that follows it: what follows them
/// changes no columns of what precedes them. `flags`: only letters of flags follow; `inside`: the
/// one that follows is always the same.
fn parts(c: char, next: Option<char>, flags: bool, inside: bool) -> bool
    ensures value { result ≡ (parts c next
        || (inside && (is_selected c next || (flags && is_flag_letter c)))) }
    ensures scalar { IsScalar c }
{
    is_solid(c) && (!takes_marks(c) || is_bare(next))
        || inside && (is_selected(c, next) || flags && is_flag_letter(c))
}

fn first_char(text: &str) -> Option<char>
    ensures { result ≡ slice_get (chars text.now) 0 }
{
    match text.chars().next() {
        Some(c) => Some(c),
        None => None,
    }
}

/// The last place before `end` at which the text may be parted, or its start. Letters of flags may
/// be parted in twos if nothing else follows.
fn last_part(text: &str, end: usize) -> usize
    requires { IsCharBoundary text.now end }
    ensures before { result ≤ end }
    ensures boundary { IsCharBoundary text.now result }
    ensures balance { (mode : _) → columns_of mode (chars text.now)
        + columns_of mode (chars (slice_range text.now result end))
        ≡ columns_of mode (chars (take end text.now))
        + columns_of mode (chars (drop result text.now)) }
{
    let rest = &text[end..];
    let (mut next, mut flags, mut inside) = (first_char(rest), are_flag_letters(rest), false);
    let mut front = text[..end].chars();
    while let Some(c) = front.next_back() {
        if parts(c, next, flags, inside) {
            return front.as_str().len();
        }
        next = Some(c);
        flags &= is_flag_letter(c);
        inside = true;
    }
    0
}

/// The columns of a text up to a place, if those of the whole text are known. What precedes the
/// place at which the text is parted has the same columns in both.
fn columns_up_to(mode: GraphemeClusterMode, text: &str, end: usize, whole: usize) -> usize
    requires boundary { IsCharBoundary text.now end }
    requires whole { whole ≡ min (columns_of mode (chars text.now)) usize.MAX }
    ensures { result ≡ min (columns_of mode (chars (take end text.now))) usize.MAX }
{
    let start = last_part(text, end);
    let (own, measured) = (
        mode.columns(&text[start..end]),
        mode.columns(&text[start..]),
    );
    if own == usize::MAX || measured == usize::MAX || whole == usize::MAX {
        return mode.columns(&text[..end]);
    }
    let columns = whole as u128 + own as u128 - measured as u128;
    columns.min(usize::MAX as u128) as usize
}

/// The last cluster boundary of a row whose column is at most the given one; the row's start if
/// there is none.
fn boundary_at_column(mode: GraphemeClusterMode, row: &str, first: u128, column: u128) -> usize
    requires { first < MOST_COLUMNS }
    ensures value { result ≡ place_at_column mode None first column row.now }
    ensures boundary { IsCharBoundary row.now result }
{
    let mut width = mode.columns(row);
    for (start, cluster) in row.grapheme_indices(true).rev() {
        let end = start + cluster.len();
        if first + width.min(usize::from(Unit::MAX)) as u128 <= column {
            return end;
        }
        width = columns_up_to(mode, &row[..end], start, width);
    }
    0
}

/// The same in a row with tabs. The boundary is in the last part between tabs that begins in at
/// most the given column.
fn boundary_among_tabs(
    mode: GraphemeClusterMode,
    stops: TabStops,
    row: &str,
    first: Unit,
    column: u128,
) -> usize
    ensures value { result ≡ place_at_column mode (Some stops) first column row.now }
    ensures boundary { IsCharBoundary row.now result }
{
    let (mut start, mut col) = (0, u128::from(first));
    while let Some(tab) = row[start..].find('\t') {
        let part = &row[start..start + tab];
        let next = tab_end(stops, col + u128::from(mode.width(part)));
        if column < next {
            return start + boundary_at_column(mode, part, col, column);
        }
        start += tab + 1;
        col = next;
    }
    start + boundary_at_column(mode, &row[start..], col, column)
}

/// The same in a row on a display.
fn boundary_in_row(layout: &Layout, row: &str, first: Unit, column: u128) -> usize
    ensures value { result ≡ place_at_column layout.now.grapheme_cluster_mode layout.now.tab_stops
        first column row.now }
    ensures boundary { IsCharBoundary row.now result }
{
    let mode = layout.grapheme_cluster_mode;
    match layout.tab_stops {
        Some(stops) => boundary_among_tabs(mode, stops, row, first, column),
        None => boundary_at_column(mode, row, u128::from(first), column),
    }
}

impl LineBuffer {
    /// The column of the cursor.
    fn column(&self, layout: &Layout) -> u128
        ensures { result ≡ cursor_column layout.now.grapheme_cluster_mode layout.now.tab_stops
            layout.now.prompt_size.col self.now }
    {
        let start = last_row_start(&self.buf[..self.pos]);
        let first = row_first_column(layout, start);
        let text = &self.buf[start..self.pos];
        match layout.tab_stops {
            Some(stops) => column_after(layout.grapheme_cluster_mode, stops, first, text),
            None => u128::from(first) + u128::from(layout.width(text)),
        }
    }

    /// The place with the cursor's column in the row that starts at `start`.
    fn place_below_column(&self, layout: &Layout, start: usize) -> usize
        requires { IsCharBoundary self.now.text start }
        ensures value { result ≡ place_in_row layout.now.grapheme_cluster_mode layout.now.tab_stops
            layout.now.prompt_size.col self.now start }
        ensures boundary { IsCharBoundary self.now.text result }
    {
        let column = self.column(layout);
        let rest = &self.buf[start..];
        let row = &rest[..first_row_end(rest)];
        start + boundary_in_row(layout, row, row_first_column(layout, start), column)
    }

    /// The place to which a motion up by n rows moves the cursor; `None` in the first row.
    fn line_up_pos(&self, n: RepeatCount, layout: &Layout) -> Option<usize>
        ensures value { result ≡ line_up layout.now.grapheme_cluster_mode layout.now.tab_stops
            layout.now.prompt_size.col n self.now }
        ensures boundary { IfSome result (λ pos. IsCharBoundary self.now.text pos) }
    {
        let start = self.start_above(n)?;
        Some(self.place_below_column(layout, start))
    }

    /// The place to which a motion down by n rows moves the cursor; `None` in the last row.
    fn line_down_pos(&self, n: RepeatCount, layout: &Layout) -> Option<usize>
        ensures value { result ≡ line_down layout.now.grapheme_cluster_mode
            layout.now.tab_stops layout.now.prompt_size.col n self.now }
        ensures boundary { IfSome result (λ pos. IsCharBoundary self.now.text pos) }
    {
        let start = self.start_below(n)?;
        Some(self.place_below_column(layout, start))
    }

    /// Moves the cursor up by n rows, or to the first row. Returns false in the first row, and if n
    /// is 0.
    pub fn move_to_line_up(&mut self, n: RepeatCount, layout: &Layout) -> bool
        ensures answer { result ≡ is_some (line_up layout.now.grapheme_cluster_mode
            layout.now.tab_stops layout.now.prompt_size.col n self.old) }
        ensures line { self.new ≡ with_cursor_at (line_up layout.now.grapheme_cluster_mode
            layout.now.tab_stops layout.now.prompt_size.col n self.old) self.old }
    {
        let Some(pos) = self.line_up_pos(n, layout) else {
            return false;
        };
        self.set_pos(pos);
        true
    }

    /// Moves the cursor down by n rows, or to the last row. Returns false in the last row, and if n
    /// is 0.
    pub fn move_to_line_down(&mut self, n: RepeatCount, layout: &Layout) -> bool
        ensures answer { result ≡ is_some (line_down layout.now.grapheme_cluster_mode
            layout.now.tab_stops layout.now.prompt_size.col n self.old) }
        ensures line { self.new ≡ with_cursor_at (line_down layout.now.grapheme_cluster_mode
            layout.now.tab_stops layout.now.prompt_size.col n self.old) self.old }
    {
        let Some(pos) = self.line_down_pos(n, layout) else {
            return false;
        };
        self.set_pos(pos);
        true
    }
}
