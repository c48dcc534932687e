//! Changes the case of a word's letters.

ghost use Rattle.std.specs.Prelude.{◌≡◌, IfOk, IfSome, IsCharBoundary, option_map, find, string_bytes};
ghost use Rattle.line_buffer.specs.Clusters.{clusters};
ghost use Rattle.line_buffer.specs.LetterCase as LetterCase;
ghost use Rattle.line_buffer.specs.Words as Words;

use crate::line_buffer::{LineBuffer, OutOfMemory};
use crate::listener::ChangeListener;
use crate::motion::nth_cluster;
use crate::types::{At, Word, WordAction};
use crate::words::is_alphanumeric_cluster;
use std::alloc::Global;
use unicode_segmentation::UnicodeSegmentation;

/// The place of the first cluster of a word.
fn first_alphanumeric(text: &str) -> Option<usize>
    ensures value { result ≡ option_map (λ x. x.0) (find (λ x. Words.is_alphanumeric_cluster x.1)
        (clusters text.now)) }
    ensures boundary { IfSome result (λ i. IsCharBoundary text.now i) }
{
    for (i, cluster) in text.grapheme_indices(true) {
        if is_alphanumeric_cluster(cluster) {
            return Some(i);
        }
    }
    None
}

/// The length in bytes of the front of a word that becomes uppercase.
fn raised_len(action: WordAction, word: &str) -> usize
    ensures value { result ≡ LetterCase.uppercase_len action word.now }
    ensures boundary { IsCharBoundary word.now result }
{
    match action {
        WordAction::Capitalize => match nth_cluster(word, 1) {
            Some((i, cluster)) => i + cluster.len(),
            None => 0,
        },
        WordAction::Lowercase => 0,
        WordAction::Uppercase => word.len(),
    }
}

/// The word with its letters in the new case.
fn recased(alloc: Global, action: WordAction, word: &str) -> Result<String, OutOfMemory>
    ensures { IfOk result (λ t. string_bytes t ≡ LetterCase.word_in_case action word.now) }
{
    let raised = raised_len(action, word);
    let mut made = String::from_str(alloc, &word[..raised])?;
    made.make_ascii_uppercase();
    let mut lowered = String::from_str(alloc, &word[raised..])?;
    lowered.make_ascii_lowercase();
    made.push_str(lowered.as_str())?;
    Ok(made)
}

impl LineBuffer {
    ghost use Rattle.std.specs.Prelude.{◌≡◌, ◌≤◌, [], IfSome, IsCharBoundary};
    ghost use Rattle.line_buffer.specs.Edit.{EditsLine};
    ghost use Rattle.line_buffer.specs.LetterCase.{word_at_or_after, word_to_edit, edit_word};
    ghost use Rattle.line_buffer.specs.Event.{wants_or};

    /// The place of the first cluster of a word at the cursor or after it.
    fn word_at_or_after(&self) -> Option<usize>
        ensures value { result ≡ word_at_or_after self.now }
        ensures boundary { IfSome result (λ i. IsCharBoundary self.now.text i) }
    {
        match first_alphanumeric(&self.buf[self.pos..]) {
            Some(i) => Some(self.pos + i),
            None => None,
        }
    }

    /// Where the word at the cursor or after it starts and ends.
    fn word_to_edit(&mut self) -> Option<(usize, usize)>
        ensures value { result ≡ word_to_edit self.old }
        ensures line { self.new ≡ self.old }
        ensures order { IfSome result (λ r. r.0 ≤ r.1) }
        ensures start { IfSome result (λ r. IsCharBoundary self.old.text r.0) }
        ensures end { IfSome result (λ r. IsCharBoundary self.old.text r.1) }
    {
        let place = self.pos();
        let Some(start) = self.word_at_or_after() else {
            return None;
        };
        self.set_pos(start);
        let end = self
            .next_word_pos(At::AfterEnd, Word::Emacs, 1)
            .unwrap_or(start);
        self.set_pos(place);
        Some((start, end))
    }

    /// Changes the case of the word at the cursor or after it, and puts the cursor after the word.
    /// Only ASCII letters change. A capitalized word gets its first cluster in uppercase and the
    /// rest in lowercase. Returns false if there is no word.
    pub fn edit_word<C: ChangeListener>(
        &mut self,
        alloc: Global,
        action: WordAction,
        cl: &mut C,
    ) -> Result<bool, OutOfMemory>
        ensures { EditsLine C.takes (wants_or C.refuses) [] (edit_word action self.old)
            cl.old cl.new self.old self.new result }
    {
        let Some((start, end)) = self.word_to_edit() else {
            return Ok(false);
        };
        let word = self.copy_part(alloc, start, end)?;
        let edited = recased(alloc, action, word.as_str())?;
        self.replace(alloc, start..end, edited.as_str(), cl)?;
        Ok(true)
    }
}
