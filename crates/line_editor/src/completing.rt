//! Completion of the word before the cursor.
ghost use Rattle.std.specs.Prelude.{◌≡◌, ◌≤◌, false, true, is_some, map, IfErr, IfOk, IfSome, OnOk, OnErr, IsCharBoundary, IsTrue, option_copied};
ghost use Rattle.line_edits.specs.WriteSteps.{Writes, line_and_record, line_and_record_in};
ghost use Rattle.line_help.specs.Completion.{completion_by};
ghost use Rattle.line_keys.specs.Replies.{Replies, fails, itself};
ghost use Rattle.line_record.specs.Items.{ItemsStand};
ghost use Rattle.line_editor.specs.Completing.{common_text, common_text_among, begins_word, completion_from, word_put, word_replaced, CutWord};

use crate::faults::error_of;
use crate::renderer::Renderer;
use crate::state::State;
use line_buffer::LineBuffer;
use line_config::{HookFault, ReadlineError};
use line_edits::{RecordedLine, is_plain};
use line_help::{Candidate, Completer, Helper, History, longest_common_prefix};
use line_record::Changeset;
use std::alloc::Global;

/// The text that replaces a word of `len` bytes: the common prefix of all candidates, if it is
/// longer than the word or there is only one candidate.
fn elected_among<C: Candidate>(candidates: &[C], len: usize) -> Option<&str>
    ensures { option_copied result ≡ common_text_among len
        (map (λ c. (C.offers c).replacement) candidates.now) }
{
    let text = longest_common_prefix(candidates)?;
    if candidates.len() == 1 || len < text.len() {
        Some(text)
    } else {
        None
    }
}

/// Whether a word may begin at a place: a character boundary at or before the cursor.
pub(crate) fn begins_word(line: &LineBuffer, start: usize) -> bool
    ensures value { result ≡ begins_word start line.now }
    ensures order { IsTrue result → start ≤ line.now.place }
    ensures boundary { IsTrue result → IsCharBoundary line.now.text start }
{
    start <= line.pos() && line.as_str().is_char_boundary(start)
}

/// The text that replaces the word at a place, if any.
pub(crate) fn elected<'c, C: Candidate>(
    line: &LineBuffer,
    start: usize,
    candidates: &'c [C],
) -> Option<&'c str>
    ensures value { option_copied result ≡ common_text
        (completion_from C.offers start candidates.now) line.now }
    ensures order { IfSome result (λ _. start ≤ line.now.place) }
    ensures boundary { IfSome result (λ _. IsCharBoundary line.now.text start) }
{
    if begins_word(line, start) {
        elected_among(candidates, line.pos() - start)
    } else {
        None
    }
}

/// The completer replaces the line from a start to the cursor by a text.
fn put<C: Completer>(
    alloc: Global,
    completer: &C,
    line: &mut LineBuffer,
    changes: &mut Changeset,
    start: usize,
    text: &str,
) -> Result<(), HookFault>
    requires order { start ≤ line.old.place }
    requires boundary { IsCharBoundary line.old.text start }
    requires stand { ItemsStand changes.old line.old.text }
    ensures writes { Writes (word_put start text.now) tt
        line.old line.new changes.old changes.new result }
    ensures left { OnErr result
        ((line.new ≡ line.old) × (changes.new ≡ changes.old)) }
    ensures reply { Replies (C.update_of completer.now line.old start text.now) itself result }
{
    // for the proof: the text is UTF-8
    let _text = line.as_str();
    completer.update(alloc, line, start, text, changes)
}

/// The same in one group, which stays open if the completer fails.
fn put_in_group<C: Completer>(
    alloc: Global,
    completer: &C,
    line: &mut LineBuffer,
    changes: &mut Changeset,
    start: usize,
    text: &str,
) -> Result<(), HookFault>
    requires order { start ≤ line.old.place }
    requires boundary { IsCharBoundary line.old.text start }
    requires stand { ItemsStand changes.old line.old.text }
    ensures writes { Writes (word_replaced start text.now) tt
        line.old line.new changes.old changes.new result }
    ensures works { OnOk result
        (fails (C.update_of completer.now line.old start text.now) ≡ false) }
    ensures refused { IfErr result (CutWord (C.update_of completer.now line.old start text.now)
        (line_and_record line.old changes.old) (line_and_record line.new changes.new)) }
{
    changes.begin(alloc)?;
    put(alloc, completer, line, changes, start, text)?;
    changes.end(alloc)?;
    Ok(())
}

/// The same for a line with its record.
fn update<C: Completer>(
    alloc: Global,
    completer: &C,
    recorded: &mut RecordedLine,
    start: usize,
    text: &str,
) -> Result<(), HookFault>
    requires order { start ≤ recorded.old.line.place }
    requires boundary { IsCharBoundary recorded.old.line.text start }
    ensures writes { Writes (word_replaced start text.now) tt recorded.old.line recorded.new.line
        recorded.old.changes recorded.new.changes result }
    ensures works { OnOk result
        (fails (C.update_of completer.now recorded.old.line start text.now) ≡ false) }
    ensures refused { IfErr result
        (CutWord (C.update_of completer.now recorded.old.line start text.now)
        (line_and_record_in recorded.old) (line_and_record_in recorded.new)) }
{
    let line = &mut recorded.line;
    let done = put_in_group(alloc, completer, line, &mut recorded.changes, start, text);
    recorded.plain = is_plain(recorded.line.as_str());
    done
}

impl<'p, 'h, Out: Renderer, H: Helper + Drop, Hi: History> State<'p, 'h, Out, H, Hi> {
    ghost use Rattle.line_editor.specs.States.{value_of, setting_of, Does, Helps};
    ghost use Rattle.line_editor.specs.Values.{completion_reply};
    ghost use Rattle.line_editor.specs.Completing.{candidates_given, complete, word_updated, word_completed};

    /// The helper's candidates for the word before the cursor, and where the word starts.
    pub(crate) fn candidates(&self) -> Result<(usize, Vec<H::Candidate>), ReadlineError>
        requires { is_some self.now.helper ≡ true }
        ensures found { IfOk result (λ found. completion_by H.Candidate.offers found
            ≡ candidates_given (completion_reply (setting_of self.now) (value_of self.now))) }
        ensures helps { Helps (completion_reply (setting_of self.now) (value_of self.now))
            result }
    {
        let Some(helper) = &self.helper else {
            return Ok((0, Vec::new(self.alloc)));
        };
        let line = &self.recorded.line;
        helper
            .complete(self.alloc, line.as_str(), line.pos(), &self.ctx)
            .map_err(error_of)
    }

    /// The helper replaces the line from a start to the cursor by a text.
    fn update_word(&mut self, start: usize, text: &str) -> Result<(), ReadlineError>
        requires some { is_some self.old.helper ≡ true }
        requires order { start ≤ self.old.recorded.line.place }
        requires boundary { IsCharBoundary self.old.recorded.line.text start }
        ensures does { Does (word_updated start text.now) self.old self.new result }
    {
        let Some(helper) = &self.helper else {
            return Ok(());
        };
        self.known = None;
        match update(self.alloc, helper, &mut self.recorded, start, text) {
            Ok(()) => Ok(()),
            Err(fault) => Err(error_of(fault)),
        }
    }

    /// Replaces the word at a place, and draws the line.
    pub(crate) fn complete_word(&mut self, start: usize, text: &str) -> Result<(), ReadlineError>
        requires some { is_some self.old.helper ≡ true }
        requires order { start ≤ self.old.recorded.line.place }
        requires boundary { IsCharBoundary self.old.recorded.line.text start }
        ensures does { Does (word_completed start text.now) self.old self.new result }
    {
        self.update_word(start, text)?;
        self.refresh()
    }

    /// Replaces the word before the cursor by the common prefix of the helper's candidates, in one
    /// group of undo. Beeps if that adds nothing. If the helper fails to replace it, the group
    /// opened for it stays open.
    pub(crate) fn complete(&mut self) -> Result<(), ReadlineError>
        ensures does { Does complete self.old self.new result }
    {
        if self.helper.is_none() {
            return Ok(());
        }
        let (start, candidates) = self.candidates()?;
        match elected(&self.recorded.line, start, &candidates) {
            Some(text) => self.complete_word(start, text),
            None => self.beep(),
        }
    }
}
