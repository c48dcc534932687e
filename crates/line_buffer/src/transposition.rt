//! Transposes clusters and words.

ghost use Rattle.std.specs.Prelude.{◌≡◌, ◌≤◌, IfOk, IsCharBoundary, string_bytes};
ghost use Rattle.line_buffer.specs.Transpositions.{later_first};

use crate::clusters::clusters_up_to;
use crate::line_buffer::{LineBuffer, OutOfMemory};
use crate::listener::ChangeListener;
use crate::types::{At, RepeatCount, Word};
use std::alloc::Global;
use std::ops::Range;

/// Two adjacent parts of a text, with the later one first.
fn later_first(
    alloc: Global,
    text: &str,
    from: usize,
    middle: usize,
    upto: usize,
) -> Result<String, OutOfMemory>
    requires first { from ≤ middle }
    requires second { middle ≤ upto }
    requires from { IsCharBoundary text.now from }
    requires middle { IsCharBoundary text.now middle }
    requires upto { IsCharBoundary text.now upto }
    ensures { IfOk result (λ t. string_bytes t ≡ later_first (from, middle, upto) text.now) }
{
    let mut made = String::with_capacity(alloc, upto - from)?;
    made.push_str(&text[middle..upto])?;
    made.push_str(&text[from..middle])?;
    Ok(made)
}

impl LineBuffer {
    ghost use Rattle.std.specs.Prelude.{◌≡◌, ◌≤◌, nat_lt, [], length, IsCharBoundary};
    ghost use Rattle.line_buffer.specs.Edit.{EditsLine};
    ghost use Rattle.line_buffer.specs.Event.{wants_or};
    ghost use Rattle.line_buffer.specs.Transpositions.{clusters_around, between_clusters, clusters_at, transpose_chars, after_words, before_words, swap, transpose_words, before_transposed};

    /// Whether there are at least two clusters before and after the cursor together.
    fn has_two_clusters(&self) -> bool
        ensures { result ≡ nat_lt 1 (clusters_around self.now) }
    {
        let before = clusters_up_to(&self.buf[..self.pos], 2);
        before > 1 || before + clusters_up_to(&self.buf[self.pos..], 2) > 1
    }

    /// Where the two clusters at the cursor start, meet and end. At the text's end these are the
    /// last two.
    fn clusters_at_cursor(&mut self) -> (usize, usize, usize)
        ensures value { result ≡ clusters_at (between_clusters self.old) }
        ensures line { self.new ≡ self.old }
        ensures first { result.0 ≤ result.1 }
        ensures second { result.1 ≤ result.2 }
        ensures from { IsCharBoundary self.old.text result.0 }
        ensures middle { IsCharBoundary self.old.text result.1 }
        ensures upto { IsCharBoundary self.old.text result.2 }
    {
        let place = self.pos();
        if self.is_cursor_at_end() {
            self.move_backward(1);
        }
        let middle = self.pos();
        let from = self.prev_pos(1).unwrap_or(middle);
        let upto = self.next_pos(1).unwrap_or(middle);
        self.set_pos(place);
        (from, middle, upto)
    }

    /// Moves the cluster at the cursor before the cluster that precedes it, and the cursor behind
    /// both. At the text's end the last two clusters are transposed. Returns false at the text's
    /// start, and if there are fewer than two clusters. A cursor inside a cluster splits it in two.
    pub fn transpose_chars<C: ChangeListener>(
        &mut self,
        alloc: Global,
        cl: &mut C,
    ) -> Result<bool, OutOfMemory>
        ensures edits { EditsLine C.takes (wants_or C.refuses) [] (transpose_chars self.old)
            cl.old cl.new self.old self.new result }
        ensures length { length self.new.text ≡ length self.old.text }
    {
        if self.pos() == 0 || !self.has_two_clusters() {
            return Ok(false);
        }
        let (from, middle, upto) = self.clusters_at_cursor();
        let swapped = later_first(alloc, self.as_str(), from, middle, upto)?;
        self.replace(alloc, from..upto, swapped.as_str(), cl)?;
        Ok(true)
    }

    /// Moves the cursor to the n-th later end of a word, if there is one, and returns its place.
    #[tactic(auto, unfolding(crate::specs::Transpositions::after_words))]
    fn on_by_words(&mut self, n: RepeatCount) -> usize
        ensures value { result ≡ (after_words n self.old).place }
        ensures line { self.new ≡ after_words n self.old }
        ensures same { self.new ≡ record self.old { place = result } }
        ensures later { self.old.place ≤ result }
        ensures boundary { IsCharBoundary self.old.text result }
    {
        let place = self.pos();
        let found = self
            .next_word_pos(At::AfterEnd, Word::Emacs, n)
            .unwrap_or(place);
        self.set_pos(found);
        found
    }

    /// Moves the cursor to the n-th earlier start of a word, if there is one, and returns its
    /// place.
    #[tactic(auto, unfolding(crate::specs::Transpositions::before_words))]
    fn back_by_words(&mut self, n: RepeatCount) -> usize
        ensures value { result ≡ (before_words n self.old).place }
        ensures line { self.new ≡ before_words n self.old }
        ensures same { self.new ≡ record self.old { place = result } }
        ensures earlier { result ≤ self.old.place }
        ensures boundary { IsCharBoundary self.old.text result }
    {
        let place = self.pos();
        let found = self.prev_word_pos(Word::Emacs, n).unwrap_or(place);
        self.set_pos(found);
        found
    }

    /// Swaps two ranges, the later one first, and puts the cursor after both.
    fn swap<C: ChangeListener>(
        &mut self,
        alloc: Global,
        first: Range<usize>,
        second: Range<usize>,
        cl: &mut C,
    ) -> Result<(), OutOfMemory>
        requires first { first.start ≤ first.end }
        requires apart { first.end ≤ second.start }
        requires second { second.start ≤ second.end }
        requires first_start { IsCharBoundary self.old.text first.start }
        requires first_end { IsCharBoundary self.old.text first.end }
        requires second_start { IsCharBoundary self.old.text second.start }
        requires second_end { IsCharBoundary self.old.text second.end }
        ensures { EditsLine C.takes (wants_or C.refuses) []
            (swap (record {
              first = (first.start, first.end);
              second = (second.start, second.end);
            }) self.old) cl.old cl.new self.old self.new result }
    {
        let earlier = self.copy_part(alloc, first.start, first.end)?;
        let later = self.copy_part(alloc, second.start, second.end)?;
        // Its contract says that the text is UTF-8.
        let _text = self.as_str();
        let end = second.end;
        self.replace(alloc, second, earlier.as_str(), cl)?;
        self.replace(alloc, first, later.as_str(), cl)?;
        self.set_pos(end);
        Ok(())
    }

    /// Swaps the n-th word at the cursor or after it with the word n words before, and puts the
    /// cursor after both. Returns false if these aren't two words; the cursor then stays after the
    /// earlier one.
    pub fn transpose_words<C: ChangeListener>(
        &mut self,
        alloc: Global,
        n: RepeatCount,
        cl: &mut C,
    ) -> Result<bool, OutOfMemory>
        ensures { EditsLine C.takes (wants_or C.refuses) [] (transpose_words n self.old)
            cl.old cl.new (before_transposed n self.old) self.new result }
    {
        let second_end = self.on_by_words(n);
        let second_start = self.back_by_words(1);
        let first_start = self.back_by_words(n);
        let first_end = self.on_by_words(1);
        if first_start == second_start || second_start < first_end {
            return Ok(false);
        }
        self.swap(alloc, first_start..first_end, second_start..second_end, cl)?;
        Ok(true)
    }
}
