//! Deletions of the ranges that movements name, and kills.

ghost use Rattle.std.specs.Prelude.{◌≡◌};
ghost use Rattle.line_buffer.specs.Range as Range;

use crate::line_buffer::{LineBuffer, OutOfMemory};
use crate::listener::DeleteListener;
use crate::range::TextSpan;
use crate::types::{At, CharSearch, Movement, RepeatCount, Word};
use std::alloc::Global;

/// Whether the movement is one by clusters, which deletes and doesn't kill.
fn goes_by_clusters(movement: &Movement) -> bool
    ensures { result ≡ Range.goes_by_clusters movement.now }
{
    matches!(
        movement,
        Movement::BackwardChar(_) | Movement::ForwardChar(_)
    )
}

impl LineBuffer {
    ghost use Rattle.std.specs.Prelude.{◌≡◌, ◌≤◌, [], slice_range, IsCharBoundary, is_some, option_map, string_bytes, true, IfSome, IfOk, OnErr};
    ghost use Rattle.std.specs.Result.{result_map_both};
    ghost use Rattle.line_buffer.specs.declared.types.Movement.TheVariants.{BeginningOfLine, EndOfLine, BackwardWord, ForwardWord, ViCharSearch, BackwardChar, BeginningOfBuffer, EndOfBuffer};
    ghost use Rattle.line_buffer.specs.Edit.{CutsLine};
    ghost use Rattle.line_buffer.specs.Range.{IsSpanOf, FindsSpan, range_of, copied_range, span_text, deletion_of, deletion_by, delete, kill, kill_closing};
    ghost use Rattle.line_buffer.specs.Event.{wants_or};

    /// Deletes a range, if there is one.
    fn delete_span<D: DeleteListener>(
        &mut self,
        alloc: Global,
        span: Option<TextSpan>,
        dl: &mut D,
    ) -> Result<bool, OutOfMemory>
        requires { IfSome span (λ s. IsSpanOf self.old.text s) }
        ensures { CutsLine D.takes D.refuses [] (deletion_of span self.old)
            dl.old dl.new self.old self.new result }
    {
        let Some(span) = span else {
            return Ok(false);
        };
        self.delete_directed(alloc, span.from..span.upto, span.direction, dl)?;
        Ok(true)
    }

    /// Deletes the range that a movement names, and doesn't report a kill.
    fn delete_named<D: DeleteListener>(
        &mut self,
        alloc: Global,
        movement: &Movement,
        span: Option<TextSpan>,
        dl: &mut D,
    ) -> Result<bool, OutOfMemory>
        requires { FindsSpan (range_of movement.now self.old) self.old.text span }
        ensures { CutsLine D.takes D.refuses [] (deletion_by movement.now self.old)
            dl.old dl.new self.old self.new result }
    {
        self.delete_span(alloc, span, dl)
    }

    /// Deletes what a movement names, and doesn't report a kill.
    fn delete_by<D: DeleteListener>(
        &mut self,
        alloc: Global,
        movement: &Movement,
        dl: &mut D,
    ) -> Result<bool, OutOfMemory>
        ensures { CutsLine D.takes D.refuses [] (deletion_by movement.now self.old)
            dl.old dl.new self.old self.new result }
    {
        let span = self.range_of(movement);
        self.delete_span(alloc, span, dl)
    }

    /// Deletes the n clusters after the cursor, or as many as there are, and returns them; `None`
    /// at the text's end.
    pub fn delete<D: DeleteListener>(
        &mut self,
        alloc: Global,
        n: RepeatCount,
        dl: &mut D,
    ) -> Result<Option<String>, OutOfMemory>
        ensures { CutsLine D.takes (wants_or D.refuses) [] (delete n self.old) dl.old dl.new
            self.old self.new (result_map_both (option_map string_bytes) (λ e. e) result) }
    {
        let span = self.range_of(&Movement::ForwardChar(n));
        let text = self.copy_span(alloc, span)?;
        self.delete_span(alloc, span, dl)?;
        Ok(text)
    }

    /// Deletes the n clusters before the cursor, or as many as there are. Returns false at the
    /// text's start.
    pub fn backspace<D: DeleteListener>(
        &mut self,
        alloc: Global,
        n: RepeatCount,
        dl: &mut D,
    ) -> Result<bool, OutOfMemory>
        ensures { CutsLine D.takes D.refuses [] (deletion_by (BackwardChar n) self.old)
            dl.old dl.new self.old self.new result }
    {
        self.delete_by(alloc, &Movement::BackwardChar(n), dl)
    }

    /// Deletes the rest of the row, or the newline if the cursor is at the row's end. Returns false
    /// at the text's end.
    pub fn kill_line<D: DeleteListener>(
        &mut self,
        alloc: Global,
        dl: &mut D,
    ) -> Result<bool, OutOfMemory>
        ensures { CutsLine D.takes D.refuses [] (deletion_by EndOfLine self.old)
            dl.old dl.new self.old self.new result }
    {
        self.delete_by(alloc, &Movement::EndOfLine, dl)
    }

    /// Deletes the text after the cursor. Returns false if there is none.
    pub fn kill_buffer<D: DeleteListener>(
        &mut self,
        alloc: Global,
        dl: &mut D,
    ) -> Result<bool, OutOfMemory>
        ensures { CutsLine D.takes D.refuses [] (deletion_by EndOfBuffer self.old)
            dl.old dl.new self.old self.new result }
    {
        self.delete_by(alloc, &Movement::EndOfBuffer, dl)
    }

    /// Deletes the row up to the cursor, or the newline before it if the cursor is at the row's
    /// start. Returns false at the text's start.
    pub fn discard_line<D: DeleteListener>(
        &mut self,
        alloc: Global,
        dl: &mut D,
    ) -> Result<bool, OutOfMemory>
        ensures { CutsLine D.takes D.refuses [] (deletion_by BeginningOfLine self.old)
            dl.old dl.new self.old self.new result }
    {
        self.delete_by(alloc, &Movement::BeginningOfLine, dl)
    }

    /// Deletes the text before the cursor. Returns false if there is none.
    pub fn discard_buffer<D: DeleteListener>(
        &mut self,
        alloc: Global,
        dl: &mut D,
    ) -> Result<bool, OutOfMemory>
        ensures { CutsLine D.takes D.refuses [] (deletion_by BeginningOfBuffer self.old)
            dl.old dl.new self.old self.new result }
    {
        self.delete_by(alloc, &Movement::BeginningOfBuffer, dl)
    }

    /// Deletes back to the start of the n-th earlier word. Returns false at the text's start.
    pub fn delete_prev_word<D: DeleteListener>(
        &mut self,
        alloc: Global,
        word: Word,
        n: RepeatCount,
        dl: &mut D,
    ) -> Result<bool, OutOfMemory>
        ensures { CutsLine D.takes D.refuses [] (deletion_by (BackwardWord n word) self.old)
            dl.old dl.new self.old self.new result }
    {
        self.delete_by(alloc, &Movement::BackwardWord(n, word), dl)
    }

    /// Deletes up to the n-th later word. Returns false if there is none.
    pub fn delete_word<D: DeleteListener>(
        &mut self,
        alloc: Global,
        at: At,
        word: Word,
        n: RepeatCount,
        dl: &mut D,
    ) -> Result<bool, OutOfMemory>
        ensures { CutsLine D.takes D.refuses [] (deletion_by (ForwardWord n at word) self.old)
            dl.old dl.new self.old self.new result }
    {
        self.delete_by(alloc, &Movement::ForwardWord(n, at, word), dl)
    }

    /// Deletes up to the n-th occurrence of a character, including it or not, as the search says.
    /// Returns false if there is none.
    pub fn delete_to<D: DeleteListener>(
        &mut self,
        alloc: Global,
        search: CharSearch,
        n: RepeatCount,
        dl: &mut D,
    ) -> Result<bool, OutOfMemory>
        ensures { CutsLine D.takes D.refuses [] (deletion_by (ViCharSearch n search) self.old)
            dl.old dl.new self.old self.new result }
    {
        self.delete_by(alloc, &Movement::ViCharSearch(n, search), dl)
    }

    /// Deletes what a movement names and reports it as killed text, or as deleted text if the
    /// movement is by clusters. Returns false if the movement names nothing.
    pub fn kill<D: DeleteListener>(
        &mut self,
        alloc: Global,
        movement: &Movement,
        dl: &mut D,
    ) -> Result<bool, OutOfMemory>
        ensures { CutsLine D.takes D.refuses
            (kill_closing movement.now) (kill movement.now self.old)
            dl.old dl.new self.old self.new result }
    {
        let span = self.range_of(movement);
        self.kill_range(alloc, movement, span, dl)
    }

    /// `kill` of the range that the movement names, if it is known already.
    pub fn kill_range<D: DeleteListener>(
        &mut self,
        alloc: Global,
        movement: &Movement,
        span: Option<TextSpan>,
        dl: &mut D,
    ) -> Result<bool, OutOfMemory>
        requires { FindsSpan (range_of movement.now self.old) self.old.text span }
        ensures { CutsLine D.takes D.refuses
            (kill_closing movement.now) (kill movement.now self.old)
            dl.old dl.new self.old self.new result }
    {
        if goes_by_clusters(movement) {
            return self.delete_named(alloc, movement, span, dl);
        }
        dl.start_killing();
        let killed = self.delete_named(alloc, movement, span, dl);
        dl.stop_killing();
        killed
    }

    /// A copy of what a movement names. A row is copied without its newline. `None` if the movement
    /// names nothing, or only a newline at an end of the row.
    pub fn copy(&self, alloc: Global, movement: &Movement) -> Result<Option<String>, OutOfMemory>
        ensures text { IfOk result (λ t. option_map string_bytes t ≡ option_map
            (λ s. span_text s self.now) (copied_range movement.now self.now)) }
        ensures some { OnErr result (is_some (copied_range movement.now self.now) ≡ true) }
    {
        let span = self.copied_range(movement);
        self.copy_span(alloc, span)
    }

    /// A copy of a range, if there is one.
    fn copy_span(
        &self,
        alloc: Global,
        span: Option<TextSpan>,
    ) -> Result<Option<String>, OutOfMemory>
        requires { IfSome span (λ s. IsSpanOf self.now.text s) }
        ensures text { IfOk result (λ t. option_map string_bytes t ≡ option_map
            (λ s. span_text s self.now) span) }
        ensures some { OnErr result (is_some span ≡ true) }
    {
        let Some(span) = span else {
            return Ok(None);
        };
        let text = self.copy_part(alloc, span.from, span.upto)?;
        Ok(Some(text))
    }

    /// A copy of the text between two places.
    pub(crate) fn copy_part(
        &self,
        alloc: Global,
        from: usize,
        upto: usize,
    ) -> Result<String, OutOfMemory>
        requires order { from ≤ upto }
        requires start { IsCharBoundary self.now.text from }
        requires end { IsCharBoundary self.now.text upto }
        ensures { IfOk result (λ t. string_bytes t ≡ slice_range self.now.text from upto) }
    {
        let text = String::from_str(alloc, &self.buf[from..upto])?;
        Ok(text)
    }
}
