//! Insertions at the cursor, and replacement of the whole text.

ghost use Rattle.std.specs.Prelude.{◌≡◌, ◌≤◌, ◌<◌, ◌+◌, length, string_bytes, string_len, string_capacity, encode_utf8, IsCharBoundary, OnOk, OnErr};
ghost use Rattle.std.specs.List.{insert_slice};
ghost use Rattle.std.specs.Fmt.Cut.{floor_char_boundary};

use crate::line_buffer::{LineBuffer, OutOfMemory};
use crate::listener::{ChangeListener, DeleteListener};
use crate::types::RepeatCount;
use std::alloc::{AllocError, Global};

/// The last character boundary of `text` up to `room`.
fn last_cut(text: &str, room: usize) -> usize
    requires { room ≤ length text.now }
    ensures value { result ≡ floor_char_boundary text.now room }
    ensures boundary { IsCharBoundary text.now result }
{
    let mut end = room;
    while !text.is_char_boundary(end) {
        end -= 1;
    }
    end
}

/// Inserts a character into a text. At the text's end no bytes are moved.
fn put_char(text: &mut String, at: usize, ch: char) -> Result<(), AllocError>
    requires { IsCharBoundary (string_bytes text.old) at }
    ensures bytes { OnOk result (string_bytes text.new
        ≡ insert_slice (string_bytes text.old) at (encode_utf8 ch)) }
    ensures full { OnErr result (string_capacity text.old
        < string_len text.old + length (encode_utf8 ch)) }
{
    if at == text.len() {
        return text.push(ch);
    }
    text.insert(at, ch)
}

impl LineBuffer {
    ghost use Rattle.std.specs.Prelude.{◌≡◌, ℕ, ◌≤◌, ◌-◌, ◌==◌, true, [], length, min, IsUtf8, IfOk, IsCharBoundary, encode_utf8};
    ghost use Rattle.std.specs.List.{repeat};
    ghost use Rattle.line_buffer.specs.declared.types.Direction.TheVariants.{Forward};
    ghost use Rattle.line_buffer.specs.Edit.{EditsLine, ChangesLine};
    ghost use Rattle.line_buffer.specs.Event.ChangeEvent.{InsertChar};
    ghost use Rattle.line_buffer.specs.Insertions.{has_room, text_that_fits, update, with_text_at_cursor, insertion_by, insertion_of, can_take_before, without_before, insert, yank, yank_pop};
    ghost use Rattle.line_buffer.specs.Event.{deletion, wants_or, InsertStr};

    /// Whether `count` more bytes fit, for the calls that respect the limit.
    fn has_room(&self, count: usize) -> bool
        ensures { result ≡ has_room count self.now }
    {
        match self.limit.checked_sub(self.buf.len()) {
            Some(free) => self.can_growth || count <= free,
            None => self.can_growth,
        }
    }

    /// `has_room` for n copies of a text.
    fn has_room_for(&self, text: &str, n: RepeatCount) -> bool
        ensures { result ≡ has_room (length (repeat n text.now)) self.now }
    {
        // Reading the limit shows that it fits.
        let _limit = self.limit;
        match text.len().checked_mul(usize::from(n)) {
            Some(count) => self.has_room(count),
            None => self.can_growth,
        }
    }

    /// The part of `text` that fits into an empty line.
    fn kept<'t>(&self, text: &'t str) -> &'t str
        ensures value { result.now ≡ text_that_fits text.now self.now }
        ensures utf8 { IsUtf8 result.now }
        ensures cursor { (pos : ℕ) → IsCharBoundary text.now pos → IsCharBoundary result.now
            (min pos (length result.now)) }
    {
        if self.can_growth || text.len() <= self.limit {
            return text;
        }
        &text[..last_cut(text, self.limit)]
    }

    /// `delete_range` of the whole text.
    fn delete_all<D: DeleteListener>(
        &mut self,
        alloc: Global,
        dl: &mut D,
    ) -> Result<(), OutOfMemory>
        ensures { ChangesLine D.takes D.refuses
            (deletion 0 (length self.old.text) Forward self.old.text)
            (record self.old { text = []; place = 0 }) dl.old dl.new self.old self.new result }
    {
        // Its contract says that the text is UTF-8.
        let _text = self.as_str();
        let end = self.len();
        self.delete_range(alloc, 0..end, dl)
    }

    /// `delete_range` of `count` bytes before the cursor.
    fn delete_before<D: DeleteListener>(
        &mut self,
        alloc: Global,
        count: usize,
        dl: &mut D,
    ) -> Result<(), OutOfMemory>
        requires count { count ≤ self.old.place }
        requires start { IsCharBoundary self.old.text (self.old.place - count) }
        ensures { ChangesLine D.takes D.refuses
            (deletion (self.old.place - count) self.old.place Forward self.old.text)
            (without_before count self.old) dl.old dl.new self.old self.new result }
    {
        let end = self.pos();
        self.delete_range(alloc, end - count..end, dl)
    }

    /// Replaces the whole text, with the cursor at `pos` of the new one. A line that can't grow
    /// keeps the longest prefix that fits the limit, with the cursor at most at its end.
    pub fn update<C: ChangeListener>(
        &mut self,
        alloc: Global,
        text: &str,
        pos: usize,
        cl: &mut C,
    ) -> Result<(), OutOfMemory>
        requires { IsCharBoundary text.now pos }
        ensures { EditsLine C.takes (wants_or C.refuses) [] (update text.now pos self.old)
            cl.old cl.new self.old self.new result }
    {
        // Its contract says that it is a character boundary.
        let _place = self.pos();
        let kept = self.kept(text);
        self.delete_all(alloc, cl)?;
        self.insert_str(alloc, 0, kept, cl)?;
        self.set_pos(pos.min(kept.len()));
        Ok(())
    }

    /// `insert_str` at the cursor, which moves behind the text.
    fn insert_at_cursor<C: ChangeListener>(
        &mut self,
        alloc: Global,
        text: &str,
        cl: &mut C,
    ) -> Result<bool, OutOfMemory>
        ensures answer { IfOk result (λ at_end. at_end ≡ (self.old.place == length self.old.text)) }
        ensures edits { ChangesLine C.takes (wants_or C.refuses)
            (InsertStr self.old.place text.now) (with_text_at_cursor text.now self.old)
            cl.old cl.new self.old self.new result }
    {
        // Its contract says that the text is UTF-8.
        let _text = self.as_str();
        let at = self.pos();
        let at_end = self.insert_str(alloc, at, text, cl)?;
        // Its contract says that the length fits.
        let _longest = self.len();
        self.set_pos(at + text.len());
        Ok(at_end)
    }

    /// Inserts a character at the cursor, which moves behind it.
    fn insert_char<C: ChangeListener>(
        &mut self,
        alloc: Global,
        ch: char,
        cl: &mut C,
    ) -> Result<(), OutOfMemory>
        ensures { ChangesLine C.takes (wants_or C.refuses) (InsertChar self.old.place ch)
            (with_text_at_cursor (encode_utf8 ch) self.old) cl.old cl.new self.old self.new result }
    {
        self.buf.reserve(ch.len_utf8())?;
        cl.insert_char(alloc, self.pos, ch)?;
        put_char(&mut self.buf, self.pos, ch)?;
        self.pos += ch.len_utf8();
        Ok(())
    }

    /// Inserts a text at the cursor if it fits.
    fn insert_where_room<C: ChangeListener>(
        &mut self,
        alloc: Global,
        text: &str,
        cl: &mut C,
    ) -> Result<Option<bool>, OutOfMemory>
        ensures { EditsLine C.takes (wants_or C.refuses) []
            (insertion_by (InsertStr self.old.place text.now) text.now self.old)
            cl.old cl.new self.old self.new result }
    {
        if !self.has_room(text.len()) {
            return Ok(None);
        }
        let at_end = self.insert_at_cursor(alloc, text, cl)?;
        Ok(Some(at_end))
    }

    /// Inserts n copies of a text at the cursor if they fit.
    fn insert_copies<C: ChangeListener>(
        &mut self,
        alloc: Global,
        text: &str,
        n: RepeatCount,
        cl: &mut C,
    ) -> Result<Option<bool>, OutOfMemory>
        ensures { EditsLine C.takes (wants_or C.refuses) [] (insertion_of text.now n self.old)
            cl.old cl.new self.old self.new result }
    {
        if n == 1 {
            return self.insert_where_room(alloc, text, cl);
        }
        if !self.has_room_for(text, n) {
            return Ok(None);
        }
        let Ok(added) = text.repeat(alloc, usize::from(n)) else {
            return Err(OutOfMemory);
        };
        self.insert_where_room(alloc, added.as_str(), cl)
    }

    /// Inserts n copies of a character at the cursor, which moves behind them. Returns whether they
    /// were inserted at the text's end, or `None` if they don't fit and the line can't grow.
    pub fn insert<C: ChangeListener>(
        &mut self,
        alloc: Global,
        ch: char,
        n: RepeatCount,
        cl: &mut C,
    ) -> Result<Option<bool>, OutOfMemory>
        ensures { EditsLine C.takes (wants_or C.refuses) [] (insert ch n self.old)
            cl.old cl.new self.old self.new result }
    {
        if n != 1 {
            let mut bytes = [0; 4];
            return self.insert_copies(alloc, ch.encode_utf8(&mut bytes), n, cl);
        }
        if !self.has_room(ch.len_utf8()) {
            return Ok(None);
        }
        let at_end = self.is_cursor_at_end();
        self.insert_char(alloc, ch, cl)?;
        Ok(Some(at_end))
    }

    /// Inserts n copies of a text at the cursor, which moves behind them. Returns whether they were
    /// inserted at the text's end. Returns `None` if the text is empty, or if it doesn't fit and
    /// the line can't grow.
    pub fn yank<C: ChangeListener>(
        &mut self,
        alloc: Global,
        text: &str,
        n: RepeatCount,
        cl: &mut C,
    ) -> Result<Option<bool>, OutOfMemory>
        ensures { EditsLine C.takes (wants_or C.refuses) [] (yank text.now n self.old)
            cl.old cl.new self.old self.new result }
    {
        if text.is_empty() {
            return Ok(None);
        }
        self.insert_copies(alloc, text, n, cl)
    }

    /// Whether `count` bytes precede the cursor and the first of them begins a character, as
    /// `yank_pop` requires.
    pub fn can_take_before(&self, count: usize) -> bool
        ensures value { result ≡ can_take_before count self.now }
        ensures size { result ≡ true → count ≤ self.now.place }
        ensures start { result ≡ true → IsCharBoundary self.now.text (self.now.place - count) }
    {
        let place = self.pos();
        count <= place && self.as_str().is_char_boundary(place - count)
    }

    /// Deletes the `yank_size` bytes before the cursor and then yanks one text; `None` if only the
    /// deletion was made.
    pub fn yank_pop<C: ChangeListener>(
        &mut self,
        alloc: Global,
        yank_size: usize,
        text: &str,
        cl: &mut C,
    ) -> Result<Option<bool>, OutOfMemory>
        requires size { yank_size ≤ self.old.place }
        requires start { IsCharBoundary self.old.text (self.old.place - yank_size) }
        ensures { EditsLine C.takes (wants_or C.refuses) []
            (yank_pop yank_size text.now self.old) cl.old cl.new self.old self.new result }
    {
        // Its contract says that it is a character boundary.
        let _place = self.pos();
        self.delete_before(alloc, yank_size, cl)?;
        let answer = self.yank(alloc, text, 1, cl)?;
        Ok(answer)
    }
}
