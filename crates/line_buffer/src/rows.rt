//! The rows of a text, which end at newlines: where they start and end, and the ranges of rows
//! above and below the cursor's row.

ghost use Rattle.std.specs.Prelude.{◌≡◌, ◌+◌, ◌<◌, ◌≤◌, length, reverse, take, drop, true, IfSome, IsCharBoundary};
ghost use Rattle.std.specs.List.{list_all};
ghost use Rattle.line_buffer.specs.Clusters.{nth_or_last};
ghost use Rattle.line_buffer.specs.Rows.{FindsPlace, is_in_row, row_start, row_end, behind_newlines, row_starts, starts_above, starts_below, row_close, FindsRows, rows_up, rows_down};

use crate::line_buffer::LineBuffer;
use crate::runs::{ByteClass, run_from, run_upto};
use crate::types::RepeatCount;

/// The bytes that are no newline.
struct InRow;

impl ByteClass for InRow {
    ghost class = { is_in_row };

    fn has(byte: u8) -> bool {
        byte != b'\n'
    }
}

/// Where the last row of a text starts.
pub(crate) fn last_row_start(text: &str) -> usize
    ensures { FindsPlace (row_start text.now (length text.now)) text.now result }
{
    run_from::<InRow>(text.as_bytes())
}

/// Where the first row of a text ends, before its newline.
pub(crate) fn first_row_end(text: &str) -> usize
    ensures { FindsPlace (row_end text.now 0) text.now result }
{
    run_upto::<InRow>(text.as_bytes())
}

/// Where the first row of a text ends, after its newline if it has one.
fn first_row_close(text: &str) -> usize
    ensures { FindsPlace (row_close text.now 0) text.now result }
{
    match text.find('\n') {
        Some(newline) => newline + 1,
        None => text.len(),
    }
}

/// Where the n-th row above the last row of a text starts, or the first row if there are fewer.
fn nth_start_above(text: &str, n: RepeatCount) -> Option<usize>
    ensures value { result ≡ nth_or_last n (drop 1 (reverse (row_starts text.now))) }
    ensures boundary { IfSome result (λ start. IsCharBoundary text.now start) }
{
    let mut found = None;
    let mut start = last_row_start(text);
    for _ in 0..n {
        if start == 0 {
            break;
        }
        start = last_row_start(&text[..start - 1]);
        found = Some(start);
    }
    found
}

/// Where the n-th row below the first row of a text starts, or the last row if there are fewer.
fn nth_start_below(text: &str, n: RepeatCount) -> Option<usize>
    ensures value { result ≡ nth_or_last n (behind_newlines 0 text.now) }
    ensures boundary { IfSome result (λ start. IsCharBoundary text.now start) }
{
    let mut found = None;
    let mut start = 0;
    for _ in 0..n {
        match text[start..].find('\n') {
            Some(newline) => {
                start += newline + 1;
                found = Some(start);
            }
            None => break,
        }
    }
    found
}

impl LineBuffer {
    /// Where the n-th row above the cursor's row starts; `None` in the first row.
    pub(crate) fn start_above(&self, n: RepeatCount) -> Option<usize>
        ensures value { result ≡ nth_or_last n (starts_above self.now) }
        ensures boundary { IfSome result (λ start. IsCharBoundary self.now.text start) }
        ensures before { IfSome result (λ start. start ≤ self.now.place) }
    {
        nth_start_above(&self.buf[..self.pos], n)
    }

    /// Where the n-th row below the cursor's row starts; `None` in the last row.
    pub(crate) fn start_below(&self, n: RepeatCount) -> Option<usize>
        ensures value { result ≡ nth_or_last n (starts_below self.now) }
        ensures boundary { IfSome result (λ start. IsCharBoundary self.now.text start) }
        ensures after { IfSome result (λ start. self.now.place ≤ start) }
    {
        match nth_start_below(&self.buf[self.pos..], n) {
            Some(start) => Some(self.pos + start),
            None => None,
        }
    }

    /// The rows from the n-th above the cursor's row to the cursor's row, with its newline.
    pub(crate) fn rows_above(&self, n: RepeatCount) -> Option<(usize, usize)>
        ensures { FindsRows (rows_up n self.now) self.now.text result }
    {
        let start = self.start_above(n)?;
        let close = first_row_close(&self.buf[self.pos..]);
        Some((start, self.pos + close))
    }

    /// The rows from the cursor's row to the n-th below it, with its newline.
    pub(crate) fn rows_below(&self, n: RepeatCount) -> Option<(usize, usize)>
        ensures { FindsRows (rows_down n self.now) self.now.text result }
    {
        let below = self.start_below(n)?;
        let start = last_row_start(&self.buf[..self.pos]);
        let close = first_row_close(&self.buf[below..]);
        Some((start, below + close))
    }
}
