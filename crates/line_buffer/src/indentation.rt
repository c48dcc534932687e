//! Indents and dedents rows with spaces.

ghost use Rattle.std.specs.Prelude.{◌≡◌, take, IsCharBoundary};
ghost use Rattle.line_buffer.specs.Indent.{front_whitespace};

use crate::gap_buffer::GapBuffer;
use crate::line_buffer::{LineBuffer, OutOfMemory};
use crate::listener::ChangeListener;
use crate::rows::{first_row_end, last_row_start};
use crate::types::Movement;
use std::alloc::Global;
use std::ops::Range;

/// The length in bytes of the whitespace at the front of a row, at most `count` characters of it.
fn leading_len(row: &str, count: usize) -> usize
    ensures value { take result row.now ≡ front_whitespace count row.now }
    ensures boundary { IsCharBoundary row.now result }
{
    let mut missing = count;
    for (i, c) in row.char_indices() {
        if missing == 0 || !c.is_whitespace() {
            return i;
        }
        missing -= 1;
    }
    row.len()
}

impl<'a> GapBuffer<'a> {
    ghost use Rattle.std.specs.Prelude.{◌≡◌, ◌+◌, ◌≤◌, [], length, slice_range, drop, IfOk, OnErr, IsCharBoundary};
    ghost use Rattle.std.specs.List.{prefix_len};
    ghost use Rattle.line_buffer.specs.Edit.{EditsLine, ChangesLine};
    ghost use Rattle.line_buffer.specs.Indent.{front_whitespace, row_event, row_len, change_rows};
    ghost use Rattle.line_buffer.specs.Event.{wants_or, line_after_event};
    ghost use Rattle.line_buffer.specs.Rows.{is_in_row};

    /// Indents the row between the gap and a place, or dedents it, and returns where the row ends
    /// then.
    fn change_row<C: ChangeListener>(
        &mut self,
        alloc: Global,
        end: usize,
        margin: &str,
        dedent: bool,
        cl: &mut C,
    ) -> Result<usize, OutOfMemory>
        requires order { self.old.1 ≤ end }
        requires end { IsCharBoundary self.old.0.text end }
        ensures answer { IfOk result (λ e. e ≡ self.old.1 + row_len margin.now dedent
            (slice_range self.old.0.text self.old.1 end)) }
        ensures gap { IfOk result (λ e. self.new.1 ≤ e) }
        ensures bound { IfOk result (λ e. e ≤ length self.new.0.text) }
        ensures rest { IfOk result (λ e. drop e self.new.0.text ≡ drop end self.old.0.text) }
        ensures edits { ChangesLine C.takes (wants_or C.refuses)
            (row_event margin.now dedent self.old.1 (slice_range self.old.0.text self.old.1 end))
            (line_after_event (row_event margin.now dedent self.old.1
            (slice_range self.old.0.text self.old.1 end)) self.old.0)
            cl.old cl.new self.old.0 self.new.0 result }
        ensures stays { OnErr result (self.new.1 ≡ self.old.1) }
    {
        let gap = self.gap();
        if dedent {
            let taken = self.margin_len(end, margin.len());
            self.remove(alloc, gap + taken, cl)?;
            return Ok(end - taken);
        }
        self.insert(alloc, margin, cl)?;
        // Its contract says that the new length fits.
        let _longer = self.len();
        Ok(end + margin.len())
    }

    /// `leading_len` of the row between the gap and a place.
    fn margin_len(&self, end: usize, count: usize) -> usize
        requires order { self.now.1 ≤ end }
        requires end { IsCharBoundary self.now.0.text end }
        ensures value { slice_range self.now.0.text self.now.1 (self.now.1 + result)
            ≡ front_whitespace
            count (slice_range self.now.0.text self.now.1 end) }
        ensures boundary { IsCharBoundary self.now.0.text (self.now.1 + result) }
        ensures bound { self.now.1 + result ≤ end }
    {
        // Its contract says that the text is UTF-8.
        let after = self.after();
        leading_len(&after[..end - self.gap()], count)
    }

    /// Where the row that starts at the gap ends, or where the last row does.
    fn row_end_before(&self, last: usize) -> usize
        requires order { self.now.1 ≤ last }
        requires end { IsCharBoundary self.now.0.text last }
        ensures value { result ≡ self.now.1 + prefix_len is_in_row (slice_range self.now.0.text
            self.now.1 last) }
        ensures boundary { IsCharBoundary self.now.0.text result }
        ensures later { self.now.1 ≤ result }
        ensures before { result ≤ last }
    {
        let gap = self.gap();
        let after = self.after();
        gap + first_row_end(&after[..last - gap])
    }

    /// `change_row` of each row between the gap and a place, the first row first.
    fn change_rows<C: ChangeListener>(
        &mut self,
        alloc: Global,
        upto: usize,
        margin: &str,
        dedent: bool,
        cl: &mut C,
    ) -> Result<(), OutOfMemory>
        requires order { self.old.1 ≤ upto }
        requires end { IsCharBoundary self.old.0.text upto }
        ensures { EditsLine C.takes (wants_or C.refuses) []
            (change_rows margin.now dedent self.old.1 upto self.old.0)
            cl.old cl.new self.old.0 self.new.0 result }
    {
        // Its contract says that it is a character boundary.
        let _gap = self.gap();
        let mut last = upto;
        'rows: loop {
            // Its contract says that the text is UTF-8.
            let _text = self.after();
            let end = self.row_end_before(last);
            let is_last = end == last;
            let changed = self.change_row(alloc, end, margin, dedent, cl)?;
            if is_last {
                return Ok(());
            }
            // Its contract says that the length fits.
            let _longest = self.len();
            last = last - end + changed;
            self.advance(changed + 1);
        }
    }
}

impl LineBuffer {
    ghost use Rattle.std.specs.Prelude.{◌≡◌, ◌≤◌, [], IsCharBoundary};
    ghost use Rattle.line_buffer.specs.Edit.{EditsLine};
    ghost use Rattle.line_buffer.specs.Indent.{rows_covered, change_rows, indent};
    ghost use Rattle.line_buffer.specs.Event.{wants_or};
    ghost use Rattle.line_buffer.specs.Rows.{row_start, row_end};

    /// Indents each row between two places, or dedents it, the first row first.
    fn change_rows<C: ChangeListener>(
        &mut self,
        alloc: Global,
        rows: Range<usize>,
        margin: &str,
        dedent: bool,
        cl: &mut C,
    ) -> Result<(), OutOfMemory>
        requires order { rows.start ≤ rows.end }
        requires start { IsCharBoundary self.old.text rows.start }
        requires end { IsCharBoundary self.old.text rows.end }
        ensures { EditsLine C.takes (wants_or C.refuses) []
            (change_rows margin.now dedent rows.start rows.end self.old)
            cl.old cl.new self.old self.new result }
    {
        let mut changed = GapBuffer::new(alloc, self)?;
        changed.advance(rows.start);
        let told = changed.change_rows(alloc, rows.end, margin, dedent, cl);
        *self = changed.into_line();
        told
    }

    /// Where the row of a place starts.
    fn row_start_of(&self, place: usize) -> usize
        requires { IsCharBoundary self.now.text place }
        ensures value { result ≡ row_start self.now.text place }
        ensures boundary { IsCharBoundary self.now.text result }
        ensures earlier { result ≤ place }
    {
        last_row_start(&self.buf[..place])
    }

    /// Where the row of a place ends, before its newline.
    fn row_end_of(&self, place: usize) -> usize
        requires { IsCharBoundary self.now.text place }
        ensures value { result ≡ row_end self.now.text place }
        ensures boundary { IsCharBoundary self.now.text result }
        ensures later { place ≤ result }
    {
        place + first_row_end(&self.buf[place..])
    }

    /// A place in the first row and a place in the last row that a movement covers.
    fn rows_covered(&self, movement: &Movement) -> (usize, usize)
        ensures value { result ≡ rows_covered movement.now self.now }
        ensures order { result.0 ≤ result.1 }
        ensures start { IsCharBoundary self.now.text result.0 }
        ensures end { IsCharBoundary self.now.text result.1 }
    {
        // Its contract says that the text is UTF-8.
        let _text = self.as_str();
        let place = self.pos();
        match movement {
            Movement::BackwardWord(n, word) => {
                (self.prev_word_pos(*word, *n).unwrap_or(place), place)
            }
            Movement::ForwardWord(n, at, word) => {
                (place, self.next_word_pos(*at, *word, *n).unwrap_or(place))
            }
            Movement::LineUp(n) => (self.start_above(*n).unwrap_or(place), place),
            Movement::LineDown(n) => (place, self.start_below(*n).unwrap_or(place)),
            Movement::WholeBuffer => (0, self.len()),
            Movement::BeginningOfBuffer => (0, place),
            Movement::EndOfBuffer => (place, self.len()),
            _ => (place, place),
        }
    }

    /// Adds `amount` spaces at the start of each row that a movement covers, or removes at most as
    /// much whitespace there. A movement within a row, or one that finds nothing, covers the
    /// cursor's row. The cursor stays before the text that follows it. Always returns true.
    pub fn indent<C: ChangeListener>(
        &mut self,
        alloc: Global,
        movement: &Movement,
        amount: u8,
        dedent: bool,
        cl: &mut C,
    ) -> Result<bool, OutOfMemory>
        ensures { EditsLine C.takes (wants_or C.refuses) []
            (indent movement.now amount dedent self.old) cl.old cl.new self.old self.new result }
    {
        let (from, upto) = self.rows_covered(movement);
        let rows = self.row_start_of(from)..self.row_end_of(upto);
        let margin = " ".repeat(alloc, usize::from(amount))?;
        self.change_rows(alloc, rows, margin.as_str(), dedent, cl)?;
        Ok(true)
    }
}
