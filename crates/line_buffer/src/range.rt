//! The part of the text that a movement names.

use crate::line_buffer::LineBuffer;
use crate::printable::Printable;
use crate::runs::are_all;
use crate::types::{CharSearch, Direction, Movement, RepeatCount};

/// A range of the text to delete, in bytes, with its direction.
#[derive(Clone, Copy, Debug, PartialEq, Eq)]
pub struct TextSpan {
    pub from: usize,
    pub upto: usize,
    pub direction: Direction,
}

impl LineBuffer {
    ghost use Rattle.std.specs.Prelude.{◌≡◌, ◌≤◌, length, drop, IfSome, IsCharBoundary, option_map};
    ghost use Rattle.std.specs.List.{list_all};
    ghost use Rattle.line_buffer.specs.Range.{IsSpanOf, FindsSpan, deletion_line, up_to_cursor, from_cursor, around_cursor, to_row_end, from_row_start, search_range, range_of, copied_range};
    ghost use Rattle.line_buffer.specs.Printable.{is_printable};

    /// The range from an earlier place to the cursor.
    fn back_to(&self, found: Option<usize>) -> Option<TextSpan>
        requires earlier { IfSome found (λ i. i ≤ self.now.place) }
        requires boundary { IfSome found (λ i. IsCharBoundary self.now.text i) }
        ensures { FindsSpan (option_map (λ i. up_to_cursor i self.now) found) self.now.text result }
    {
        match found {
            Some(from) => Some(TextSpan {
                from,
                upto: self.pos,
                direction: Direction::Backward,
            }),
            None => None,
        }
    }

    /// The range from the cursor to a later place.
    fn on_to(&self, found: Option<usize>) -> Option<TextSpan>
        requires later { IfSome found (λ i. self.now.place ≤ i) }
        requires boundary { IfSome found (λ i. IsCharBoundary self.now.text i) }
        ensures { FindsSpan (option_map (λ i. from_cursor i self.now) found) self.now.text result }
    {
        match found {
            Some(upto) => Some(TextSpan {
                from: self.pos,
                upto,
                direction: Direction::Forward,
            }),
            None => None,
        }
    }

    /// The range between two places. Its direction is backward if it ends at the cursor.
    fn around(&self, found: Option<(usize, usize)>) -> Option<TextSpan>
        requires order { IfSome found (λ r. r.0 ≤ r.1) }
        requires start { IfSome found (λ r. IsCharBoundary self.now.text r.0) }
        requires end { IfSome found (λ r. IsCharBoundary self.now.text r.1) }
        ensures { FindsSpan (option_map (λ r. around_cursor r.0 r.1 self.now) found)
            self.now.text result }
    {
        match found {
            Some((from, upto)) => Some(TextSpan {
                from,
                upto,
                direction: if upto == self.pos {
                    Direction::Backward
                } else {
                    Direction::Forward
                },
            }),
            None => None,
        }
    }

    /// From a place in the cursor's row to the row's end. At the row's end this is the newline, if
    /// there is one.
    fn to_row_end(&self, from: usize) -> Option<TextSpan>
        requires earlier { from ≤ self.now.place }
        requires boundary { IsCharBoundary self.now.text from }
        ensures { FindsSpan (to_row_end from self.now) self.now.text result }
    {
        // Its contract says that the text is UTF-8.
        let _text = self.as_str();
        let end = self.row_end();
        let upto = if from < end {
            end
        } else if end < self.len() {
            end + 1
        } else {
            return None;
        };
        Some(TextSpan {
            from,
            upto,
            direction: Direction::Forward,
        })
    }

    /// From the row's start to the cursor. At the row's start this is the newline before it, if
    /// there is one.
    fn from_row_start(&self) -> Option<TextSpan>
        ensures { FindsSpan (from_row_start self.now) self.now.text result }
    {
        let start = self.row_start();
        if start < self.pos {
            self.back_to(Some(start))
        } else if self.pos > 0 {
            self.back_to(Some(self.pos - 1))
        } else {
            None
        }
    }

    /// Up to the character that the search finds, including it or not.
    fn search_range(&self, search: CharSearch, n: RepeatCount) -> Option<TextSpan>
        ensures { FindsSpan (search_range search n self.now) self.now.text result }
    {
        // Its contract says that the length fits.
        let _longest = self.len();
        match search {
            CharSearch::Forward(c) => match self.hit_forward(c, n) {
                Some(i) => self.on_to(Some(i + c.len_utf8())),
                None => None,
            },
            CharSearch::ForwardBefore(c) => self.on_to(self.hit_forward(c, n)),
            CharSearch::Backward(c) => self.back_to(self.hit_backward(c, n)),
            CharSearch::BackwardAfter(c) => match self.hit_backward(c, n) {
                Some(i) => self.back_to(Some(i + c.len_utf8())),
                None => None,
            },
        }
    }

    /// The range that a kill by the movement deletes.
    pub fn range_of(&self, movement: &Movement) -> Option<TextSpan>
        ensures { FindsSpan (range_of movement.now self.now) self.now.text result }
    {
        // Its contract says that the text is UTF-8.
        let _text = self.as_str();
        let place = self.pos();
        match movement {
            Movement::WholeLine => self.to_row_end(self.row_start()),
            Movement::BeginningOfLine => self.from_row_start(),
            Movement::EndOfLine => self.to_row_end(place),
            Movement::BackwardWord(n, word) => self.back_to(self.prev_word_pos(*word, *n)),
            Movement::ForwardWord(n, at, word) => self.on_to(self.next_word_pos(*at, *word, *n)),
            Movement::ViCharSearch(n, search) => self.search_range(*search, *n),
            Movement::ViFirstPrint => None,
            Movement::BackwardChar(n) => self.back_to(self.prev_pos(*n)),
            Movement::ForwardChar(n) => self.on_to(self.next_pos(*n)),
            Movement::LineUp(n) => self.around(self.rows_above(*n)),
            Movement::LineDown(n) => self.around(self.rows_below(*n)),
            Movement::WholeBuffer if self.is_empty() => None,
            Movement::WholeBuffer => self.around(Some((0, self.len()))),
            Movement::BeginningOfBuffer if place == 0 => None,
            Movement::BeginningOfBuffer => self.back_to(Some(0)),
            Movement::EndOfBuffer if self.is_cursor_at_end() => None,
            Movement::EndOfBuffer => self.on_to(Some(self.len())),
        }
    }

    /// Whether the last bytes of the text, as many as the range has, are printable ASCII.
    pub fn has_printable_end(&self, span: Option<TextSpan>) -> bool
        requires { IfSome span (λ s. IsSpanOf self.now.text s) }
        ensures { result ≡ list_all is_printable
            (drop (length (deletion_line span self.now).text) self.now.text) }
    {
        match span {
            Some(span) => {
                let kept = self.len() - (span.upto - span.from);
                are_all::<Printable>(&self.buf.as_bytes()[kept..])
            }
            None => true,
        }
    }

    /// The range that a movement copies.
    pub(crate) fn copied_range(&self, movement: &Movement) -> Option<TextSpan>
        ensures { FindsSpan (copied_range movement.now self.now) self.now.text result }
    {
        let start = self.row_start();
        let end = self.row_end();
        match movement {
            Movement::WholeLine if start == end => None,
            Movement::BeginningOfLine if start == self.pos() => None,
            Movement::EndOfLine if self.pos() == end => None,
            movement => self.range_of(movement),
        }
    }
}
