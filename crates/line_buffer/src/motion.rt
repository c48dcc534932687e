//! Motions by grapheme clusters, and to the ends of a row.
//!
//! Clusters are the extended grapheme clusters of UAX #29, and places are in bytes. The texts
//! before and after the cursor are split into clusters separately. Rows end at newlines.

ghost use Rattle.std.specs.Prelude.{◌≡◌, ◌+◌, ◌<◌, ◌≤◌, ◌==◌, length, reverse, take, drop, not, is_some, chars, IfSome, None, Some, true, option_map, IsCharBoundary};
ghost use Rattle.std.specs.List.{last_or, list_all};
ghost use Rattle.std.specs.Char.{is_whitespace};
ghost use Rattle.line_buffer.specs.Clusters.{clusters, place_forward, place_backward, IsPart};
ghost use Rattle.line_buffer.specs.Line.{with_cursor_at, text_after};
ghost use Rattle.line_buffer.specs.Rows.{row_start, row_end};

use crate::line_buffer::LineBuffer;
use crate::printable::is_printable;
use crate::rows::{first_row_end, last_row_start};
use crate::types::RepeatCount;
use unicode_segmentation::UnicodeSegmentation;

/// Whether the text begins with two printable ASCII characters. If so, the first one is a cluster.
fn begins_with_letters(text: &str) -> bool
    ensures value { result ≡ true
        → last_or None (take 1 (clusters text.now)) ≡ Some (0, take 1 text.now) }
    ensures boundary { result ≡ true → IsCharBoundary text.now 1 }
{
    let mut characters = text.chars();
    let Some(first) = characters.next() else {
        return false;
    };
    let Some(second) = characters.next() else {
        return false;
    };
    is_printable(first) && is_printable(second)
}

/// The n-th cluster with its place, or the last one if there are fewer.
pub(crate) fn nth_cluster(text: &str, n: RepeatCount) -> Option<(usize, &str)>
    ensures value { option_map (λ p. (p.0, p.1.now)) result ≡ last_or None
        (take n (clusters text.now)) }
    ensures part { IfSome result (λ p. IsPart text.now p.0 (length p.1.now)) }
{
    if n == 1 && begins_with_letters(text) {
        return Some((0, &text[..1]));
    }
    text.grapheme_indices(true).take(usize::from(n)).last()
}

/// The place of the last character, if it and the one before it are printable ASCII: then it is a
/// cluster.
fn last_letter(text: &str) -> Option<usize>
    ensures value { IfSome result (λ start. last_or None (take 1 (reverse (clusters text.now)))
        ≡ Some (start, drop start text.now)) }
    ensures boundary { IfSome result (λ start. IsCharBoundary text.now start) }
{
    let mut characters = text.chars();
    let last = characters.next_back()?;
    let previous = characters.next_back()?;
    if is_printable(previous) && is_printable(last) {
        Some(text.len() - 1)
    } else {
        None
    }
}

/// The n-th cluster from the end with its place, or the first one if there are fewer.
pub(crate) fn nth_cluster_back(text: &str, n: RepeatCount) -> Option<(usize, &str)>
    ensures value { option_map (λ p. (p.0, p.1.now)) result ≡ last_or None
        (take n (reverse (clusters text.now))) }
    ensures part { IfSome result (λ p. IsPart text.now p.0 (length p.1.now)) }
{
    if n == 1 {
        if let Some(start) = last_letter(text) {
            return Some((start, &text[start..]));
        }
    }
    text.grapheme_indices(true)
        .rev()
        .take(usize::from(n))
        .last()
}

impl LineBuffer {
    /// The place after the n-th cluster after the cursor; the text's end if there are fewer.
    pub fn next_pos(&self, n: RepeatCount) -> Option<usize>
        ensures value { result ≡ place_forward n self.now }
        ensures boundary { IfSome result (λ p. IsCharBoundary self.now.text p) }
        ensures later { IfSome result (λ p. self.now.place ≤ p) }
    {
        match nth_cluster(&self.buf[self.pos..], n) {
            Some((i, cluster)) => Some(self.pos + i + cluster.len()),
            None => None,
        }
    }

    /// The place before the n-th cluster before the cursor; the text's start if there are fewer.
    pub(crate) fn prev_pos(&self, n: RepeatCount) -> Option<usize>
        ensures value { result ≡ place_backward n self.now }
        ensures boundary { IfSome result (λ p. IsCharBoundary self.now.text p) }
        ensures earlier { IfSome result (λ p. p ≤ self.now.place) }
    {
        match nth_cluster_back(&self.buf[..self.pos], n) {
            Some((i, _)) => Some(i),
            None => None,
        }
    }

    /// Moves the cursor to the place found. Returns false if there is none.
    pub(crate) fn move_to_found(&mut self, found: Option<usize>) -> bool
        requires { IfSome found (λ p. IsCharBoundary self.old.text p) }
        ensures answer { result ≡ is_some found }
        ensures line { self.new ≡ with_cursor_at found self.old }
    {
        match found {
            Some(pos) => {
                self.set_pos(pos);
                true
            }
            None => false,
        }
    }

    /// Moves the cursor over n clusters, or to the text's end. Returns false if it doesn't move.
    pub fn move_forward(&mut self, n: RepeatCount) -> bool
        ensures answer { result ≡ is_some (place_forward n self.old) }
        ensures line { self.new ≡ with_cursor_at (place_forward n self.old) self.old }
    {
        let found = self.next_pos(n);
        self.move_to_found(found)
    }

    /// Moves the cursor back over n clusters, or to the text's start. Returns false if it doesn't
    /// move.
    pub fn move_backward(&mut self, n: RepeatCount) -> bool
        ensures answer { result ≡ is_some (place_backward n self.old) }
        ensures line { self.new ≡ with_cursor_at (place_backward n self.old) self.old }
    {
        let found = self.prev_pos(n);
        self.move_to_found(found)
    }

    /// The start of the cursor's row.
    pub(crate) fn row_start(&self) -> usize
        ensures value { result ≡ row_start self.now.text self.now.place }
        ensures boundary { IsCharBoundary self.now.text result }
        ensures earlier { result ≤ self.now.place }
    {
        last_row_start(&self.buf[..self.pos])
    }

    /// The end of the cursor's row, before its newline.
    pub(crate) fn row_end(&self) -> usize
        ensures value { result ≡ row_end self.now.text self.now.place }
        ensures boundary { IsCharBoundary self.now.text result }
        ensures later { self.now.place ≤ result }
    {
        self.pos + first_row_end(&self.buf[self.pos..])
    }

    /// Moves the cursor to the start of its row. Returns false if it was there.
    pub fn move_home(&mut self) -> bool
        ensures answer { result ≡ not (row_start self.old.text self.old.place == self.old.place) }
        ensures line { self.new ≡ record self.old {
          place = row_start self.old.text self.old.place;
        } }
    {
        let start = self.row_start();
        let moves = start != self.pos;
        self.set_pos(start);
        moves
    }

    /// Moves the cursor to the end of its row. Returns false if it was there.
    pub fn move_end(&mut self) -> bool
        ensures answer { result ≡ not (row_end self.old.text self.old.place == self.old.place) }
        ensures line { self.new ≡ record self.old { place = row_end self.old.text self.old.place } }
    {
        let end = self.row_end();
        let moves = end != self.pos;
        self.set_pos(end);
        moves
    }

    /// Whether only whitespace follows the cursor.
    pub fn is_end_of_input(&self) -> bool
        ensures { result ≡ list_all is_whitespace (chars (text_after self.now)) }
    {
        self.buf[self.pos..].chars().all(|c| c.is_whitespace())
    }
}
