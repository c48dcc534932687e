//! Searches for a character, like vi's `f`, `t`, `F` and `T`.
//!
//! They go by characters, so the cursor may end up inside a cluster. Places are in bytes.

ghost use Rattle.std.specs.Prelude.{◌≡◌, ◌==◌, ◌+◌, ◌≤◌, length, reverse, is_some, encode_utf8, IfSome, IsCharBoundary};
ghost use Rattle.std.specs.Char.{IsScalar};
ghost use Rattle.line_buffer.specs.Clusters.{nth_or_last, IsPart};
ghost use Rattle.line_buffer.specs.Hits as Hits;
ghost use Rattle.line_buffer.specs.Line.{with_cursor_at};

use crate::line_buffer::LineBuffer;
use crate::types::{CharSearch, RepeatCount};

/// Whether the characters are equal.
fn is_same(left: char, right: char) -> bool
    ensures value { result ≡ (left == right) }
    ensures scalar { IsScalar left }
{
    left == right
}

/// The n-th place of a character, or the last one if there are fewer.
fn nth_hit(text: &str, c: char, n: RepeatCount) -> Option<usize>
    ensures value { result ≡ nth_or_last n (Hits.hits c text.now) }
    ensures part { IfSome result (λ i. IsPart text.now i (length (encode_utf8 c))) }
{
    let mut found = None;
    let mut missing = n;
    for (i, next) in text.char_indices() {
        if missing == 0 {
            break;
        }
        if is_same(next, c) {
            found = Some(i);
            missing -= 1;
        }
    }
    found
}

/// The n-th place of a character from the text's end, or the first one if there are fewer.
fn nth_hit_back(text: &str, c: char, n: RepeatCount) -> Option<usize>
    ensures value { result ≡ nth_or_last n (reverse (Hits.hits c text.now)) }
    ensures part { IfSome result (λ i. IsPart text.now i (length (encode_utf8 c))) }
{
    let mut found = None;
    let mut missing = n;
    for (i, next) in text.char_indices().rev() {
        if missing == 0 {
            break;
        }
        if is_same(next, c) {
            found = Some(i);
            missing -= 1;
        }
    }
    found
}

/// The number of bytes of a character.
pub(crate) fn byte_len(c: char) -> usize
    ensures value { result ≡ length (encode_utf8 c) }
    ensures scalar { IsScalar c }
{
    c.len_utf8()
}

/// The place of a text's last character.
fn last_char(text: &str) -> usize
    ensures value { result ≡ Hits.last_char text.now }
    ensures boundary { IsCharBoundary text.now result }
{
    match text.chars().next_back() {
        Some(last) => text.len() - byte_len(last),
        None => 0,
    }
}

impl LineBuffer {
    /// The place of the character that a search finds.
    pub(crate) fn search_hit(&self, search: CharSearch, n: RepeatCount) -> Option<usize>
        ensures value { result ≡ Hits.hit search n self.now }
        ensures part { IfSome result (λ i. IsPart self.now.text i
            (length (encode_utf8 (Hits.searched_char search)))) }
    {
        match search {
            CharSearch::Forward(c) | CharSearch::ForwardBefore(c) => self.hit_forward(c, n),
            CharSearch::Backward(c) | CharSearch::BackwardAfter(c) => self.hit_backward(c, n),
        }
    }

    /// The n-th place of a character after the cluster at the cursor.
    pub(crate) fn hit_forward(&self, c: char, n: RepeatCount) -> Option<usize>
        ensures value { result ≡ Hits.hit_forward c n self.now }
        ensures part { IfSome result (λ i. IsPart self.now.text i (length (encode_utf8 c))) }
        ensures later { IfSome result (λ i. self.now.place ≤ i) }
    {
        let past = self.next_pos(1).unwrap_or(self.pos);
        match nth_hit(&self.buf[past..], c, n) {
            Some(i) => Some(past + i),
            None => None,
        }
    }

    /// The n-th place of a character before the cursor.
    pub(crate) fn hit_backward(&self, c: char, n: RepeatCount) -> Option<usize>
        ensures value { result ≡ Hits.hit_backward c n self.now }
        ensures part { IfSome result (λ i. IsPart self.now.text i (length (encode_utf8 c))) }
        ensures earlier { IfSome result (λ i. i + length (encode_utf8 c) ≤ self.now.place) }
    {
        nth_hit_back(&self.buf[..self.pos], c, n)
    }

    /// The place to which a search moves the cursor.
    pub(crate) fn search_pos(&self, search: CharSearch, n: RepeatCount) -> Option<usize>
        ensures value { result ≡ Hits.search_place search n self.now }
        ensures boundary { IfSome result (λ i. IsCharBoundary self.now.text i) }
    {
        let hit = self.search_hit(search, n)?;
        match search {
            CharSearch::Forward(_) | CharSearch::Backward(_) => Some(hit),
            CharSearch::ForwardBefore(_) => Some(last_char(&self.buf[..hit])),
            CharSearch::BackwardAfter(c) => Some(hit + byte_len(c)),
        }
    }

    /// Moves the cursor to the n-th place of a character, or to the last one if there are fewer.
    /// Returns false if there is none.
    pub fn move_to(&mut self, search: CharSearch, n: RepeatCount) -> bool
        ensures answer { result ≡ is_some (Hits.search_place search n self.old) }
        ensures line { self.new ≡ with_cursor_at (Hits.search_place search n self.old) self.old }
    {
        let found = self.search_pos(search, n);
        self.move_to_found(found)
    }
}
