//! What Tab makes of a line: its only candidate, one of several in turn, or a list of them.
ghost use Rattle.std.specs.Prelude.{◌≡◌, ◌≤◌, ◌++◌, true, is_some, map, take, option_copied, string_bytes, IfErr, IfSome, OnOk, IsCharBoundary, length, if◌then◌else◌};
ghost use Rattle.std.specs.Option.{option_map_or};
ghost use Rattle.line_config.specs.Refusals.{OrMemory};
ghost use Rattle.line_config.specs.declared.errors.ReadlineError.TheVariants.{Memory};
ghost use Rattle.line_editor.specs.Candidates.{only_put, rows_of, more_row, list_text, list_shown, list_effect, candidate_at, turn_effect, modal_after_turn, cycle_begun, cycle_first, cycle_back, ask_and_turn_effect, modal_after_ask, cycle_effect, cycle, several, several_modal, offer_effect, modal_after_offer, tab, cycle_at};
ghost use Rattle.line_editor.specs.Completing.{common_text, completion_from, candidates_asked, word_completed};
ghost use Rattle.line_editor.specs.Modal.{modal_of, next_of};
ghost use Rattle.line_editor.specs.declared.modal_state.Standing.TheVariants.{Tabbed, Lists};

use crate::completing::{begins_word, elected};
use crate::modal_state::{ModalState, Next, Standing, cycle_at};
use crate::renderer::Renderer;
use crate::state::State;
use line_buffer::LineBuffer;
use line_config::{CompletionType, ReadlineError};
use line_help::{Candidate, Helper, History, SearchDirection};
use line_keys::{Cmd, CmdKind};
use std::alloc::Global;

/// What replaces the word if there is only one candidate.
fn only_put<'c, C: Candidate>(
    line: &LineBuffer,
    start: usize,
    candidates: &'c [C],
) -> Option<&'c str>
    ensures value { option_copied result ≡ only_put
        (completion_from C.offers start candidates.now) line.now }
    ensures order { IfSome result (λ _. start ≤ line.now.place) }
    ensures boundary { IfSome result (λ _. IsCharBoundary line.now.text start) }
{
    match candidates {
        [only] if begins_word(line, start) => Some(only.alone()),
        _ => None,
    }
}

/// What replaces the word if the candidate at an index is put: none if there is none, or if it is
/// empty.
fn candidate_at<'c, C: Candidate>(
    line: &LineBuffer,
    start: usize,
    candidates: &'c [C],
    at: usize,
) -> Option<&'c str>
    ensures value { option_copied result ≡ candidate_at at
        (completion_from C.offers start candidates.now) line.now }
    ensures order { IfSome result (λ _. start ≤ line.now.place) }
    ensures boundary { IfSome result (λ _. IsCharBoundary line.now.text start) }
{
    if !begins_word(line, start) {
        return None;
    }
    let text = candidates.get(at)?.replacement();
    if text.is_empty() { None } else { Some(text) }
}

/// Appends each candidate on a row of its own.
fn push_rows<C: Candidate>(text: &mut String, candidates: &[C]) -> Result<(), ReadlineError>
    ensures rows { OnOk result (string_bytes text.new
        ≡ string_bytes text.old ++ rows_of (map C.offers candidates.now)) }
    ensures fault { IfErr result (λ e. e ≡ Memory) }
{
    for candidate in candidates {
        text.push('\n')?;
        text.push_str(candidate.display())?;
    }
    Ok(())
}

/// Appends how many candidates of `count` there are after the first ones.
fn push_more(
    text: &mut String,
    alloc: Global,
    limit: usize,
    count: usize,
) -> Result<(), ReadlineError>
    ensures more { OnOk result (string_bytes text.new
        ≡ string_bytes text.old ++ more_row limit count) }
    ensures fault { IfErr result (λ e. e ≡ Memory) }
{
    if limit < count {
        let more = count - limit;
        let row = format!(in alloc; "\n({more} more)")?;
        text.push_str(row.as_str())?;
    }
    Ok(())
}

/// The first candidates of a list.
fn first_of<C>(candidates: &[C], limit: usize) -> &[C]
    ensures { result.now ≡ take limit candidates.now }
{
    if limit < candidates.len() {
        &candidates[..limit]
    } else {
        candidates
    }
}

/// The first candidates, each on a row of its own, and how many more there are.
fn list_text<C: Candidate>(
    alloc: Global,
    candidates: &[C],
    limit: usize,
) -> Result<String, ReadlineError>
    ensures { OrMemory result (λ s. string_bytes s
        ≡ list_text limit (map C.offers candidates.now)) }
{
    let mut text = String::new(alloc);
    push_rows(&mut text, first_of(candidates, limit))?;
    push_more(&mut text, alloc, limit, candidates.len())?;
    Ok(text)
}

impl<'p, 'h, Out: Renderer, H: Helper + Drop, Hi: History> State<'p, 'h, Out, H, Hi> {
    ghost use Rattle.line_editor.specs.Completing.{candidates_given};
    ghost use Rattle.line_editor.specs.Drawing.{beep_effect, refresh_effect};
    ghost use Rattle.line_editor.specs.States.{value_of, setting_of, Does};
    ghost use Rattle.line_editor.specs.Values.{completion_reply, then_do};
    ghost use Rattle.line_editor.specs.States.{Meets};

    /// Replaces the word by the only candidate. Beeps if there is none.
    fn complete_only(
        &mut self,
        start: usize,
        candidates: &[H::Candidate],
    ) -> Result<(), ReadlineError>
        requires { is_some self.old.helper ≡ true }
        ensures { Does (λ s v. option_map_or (word_completed start) (only_put
            (completion_from H.Candidate.offers start candidates.now) v.line) beep_effect s v)
            self.old self.new result }
    {
        match only_put(&self.recorded.line, start, candidates) {
            Some(text) => self.complete_word(start, text),
            None => self.beep(),
        }
    }

    /// Draws the candidates below the line.
    fn show_list(&mut self, candidates: &[H::Candidate], limit: usize) -> Result<(), ReadlineError>
        ensures { Does (list_shown limit (map H.Candidate.offers candidates.now)) self.old self.new
            result }
    {
        let text = list_text(self.alloc, candidates, limit)?;
        self.tell(Some(text.as_str()), CmdKind::Other)
    }

    /// Replaces the word by the common prefix, if that adds something. Otherwise the candidates are
    /// listed, if they may be now, or it beeps.
    fn list(
        &mut self,
        modal: &mut ModalState,
        lists: bool,
        start: usize,
        candidates: &[H::Candidate],
    ) -> Result<(), ReadlineError>
        requires { is_some self.old.helper ≡ true }
        ensures does { Does (list_effect lists modal.old.limit
            (completion_from H.Candidate.offers start candidates.now))
            self.old self.new result }
        ensures modal { OnOk result (modal_of modal.new ≡ record (modal_of modal.old) {
          standing = option_map_or (λ text. Tabbed) (common_text
              (completion_from H.Candidate.offers start candidates.now)
              self.old.recorded.line) (if lists then Lists else Tabbed);
        }) }
    {
        match elected(&self.recorded.line, start, candidates) {
            Some(text) => {
                modal.standing = Standing::Tabbed;
                self.complete_word(start, text)
            }
            None if lists => {
                modal.standing = Standing::Lists;
                self.show_list(candidates, modal.limit)
            }
            None => {
                modal.standing = Standing::Tabbed;
                self.beep()
            }
        }
    }

    /// Draws the word as it was, with a beep.
    fn show_own_word(&mut self) -> Result<(), ReadlineError>
        ensures { Does (then_do refresh_effect beep_effect) self.old self.new result }
    {
        self.refresh()?;
        self.beep()
    }

    /// Puts the candidate at an index in place of the word.
    fn turn_to(
        &mut self,
        modal: &mut ModalState,
        at: usize,
        start: usize,
        candidates: &[H::Candidate],
    ) -> Result<(), ReadlineError>
        requires { is_some self.old.helper ≡ true }
        ensures does { Does (turn_effect at
            (completion_from H.Candidate.offers start candidates.now))
            self.old self.new result }
        ensures modal { OnOk result (modal_of modal.new ≡ modal_after_turn at
            (completion_from H.Candidate.offers start candidates.now)
            self.old.recorded.line (modal_of modal.old)) }
    {
        modal.candidate = at;
        match candidate_at(&self.recorded.line, start, candidates, at) {
            Some(text) => {
                modal.put = true;
                self.complete_word(start, text)
            }
            None => {
                modal.put = false;
                self.show_own_word()
            }
        }
    }

    /// Puts the first one of several candidates in place of the word.
    fn begin_cycle(
        &mut self,
        modal: &mut ModalState,
        start: usize,
        candidates: &[H::Candidate],
    ) -> Result<(), ReadlineError>
        requires { is_some self.old.helper ≡ true }
        ensures does { Does (cycle_begun
            (completion_from H.Candidate.offers start candidates.now))
            self.old self.new result }
        ensures modal { OnOk result (modal_of modal.new ≡ cycle_first
            (completion_from H.Candidate.offers start candidates.now)
            self.old.recorded.line (modal_of modal.old)) }
    {
        modal.standing = Standing::Cycles;
        modal.place = self.recorded.line.pos();
        self.close_groups()?;
        self.turn_to(modal, 0, start, candidates)
    }

    /// What becomes of several candidates, by the setting.
    fn offer_several(
        &mut self,
        modal: &mut ModalState,
        lists: bool,
        start: usize,
        candidates: &[H::Candidate],
    ) -> Result<(), ReadlineError>
        requires { is_some self.old.helper ≡ true }
        ensures does { Does (several modal.old.completion_type lists (modal_of modal.old)
            (completion_from H.Candidate.offers start candidates.now))
            self.old self.new result }
        ensures modal { OnOk result (modal_of modal.new
            ≡ several_modal modal.old.completion_type lists
            (completion_from H.Candidate.offers start candidates.now)
            self.old.recorded.line (modal_of modal.old)) }
    {
        match modal.completion_type {
            CompletionType::Circular => self.begin_cycle(modal, start, candidates),
            CompletionType::List => self.list(modal, lists, start, candidates),
        }
    }

    /// What becomes of the helper's candidates.
    fn offer(
        &mut self,
        modal: &mut ModalState,
        lists: bool,
        start: usize,
        candidates: &[H::Candidate],
    ) -> Result<(), ReadlineError>
        requires { is_some self.old.helper ≡ true }
        ensures does { Does (offer_effect lists (modal_of modal.old)
            (completion_from H.Candidate.offers start candidates.now))
            self.old self.new result }
        ensures modal { OnOk result (modal_of modal.new ≡ modal_after_offer lists
            (completion_from H.Candidate.offers start candidates.now)
            self.old.recorded.line (modal_of modal.old)) }
    {
        if candidates.len() > 1 && begins_word(&self.recorded.line, start) {
            return self.offer_several(modal, lists, start, candidates);
        }
        modal.standing = Standing::Rests;
        self.complete_only(start, candidates)
    }

    /// Asks the helper for candidates, and shows what becomes of them.
    fn ask_and_offer(&mut self, modal: &mut ModalState, lists: bool) -> Result<(), ReadlineError>
        requires { is_some self.old.helper ≡ true }
        ensures does { Does (λ s v. then_do candidates_asked (offer_effect lists
            (modal_of modal.old) (candidates_given (completion_reply s v))) s v)
            self.old self.new result }
        ensures modal { OnOk result (modal_of modal.new ≡ modal_after_offer lists
            (candidates_given (completion_reply (setting_of self.old) (value_of self.old)))
            self.old.recorded.line (modal_of modal.old)) }
    {
        let (start, candidates) = self.candidates()?;
        self.offer(modal, lists, start, &candidates)
    }

    /// What Tab makes of the line; `lists`: several candidates may be listed now.
    pub(crate) fn tab(
        &mut self,
        modal: &mut ModalState,
        lists: bool,
        cmd: &Cmd,
    ) -> Result<Next, ReadlineError>
        ensures { Meets (tab lists (modal_of modal.old) cmd.now) (next_of cmd.now) self.old self.new
            (modal_of modal.new) result }
    {
        if self.helper.is_none() {
            return Ok(Next::Same);
        }
        self.ask_and_offer(modal, lists)?;
        Ok(Next::Nothing)
    }

    /// Undoes what was put, and puts the cursor where it was.
    fn take_candidate_back(&mut self, modal: &ModalState) -> Result<(), ReadlineError>
        ensures { Does (cycle_back (modal_of modal.now)) self.old self.new result }
    {
        self.take_hit_back(modal.put)?;
        self.put_cursor(modal.place);
        Ok(())
    }

    /// Puts the next one of several candidates in a direction.
    fn turn_next(
        &mut self,
        modal: &mut ModalState,
        dir: SearchDirection,
        start: usize,
        candidates: &[H::Candidate],
    ) -> Result<(), ReadlineError>
        requires { is_some self.old.helper ≡ true }
        ensures does { let found = completion_from H.Candidate.offers start candidates.now in
            Does (turn_effect (cycle_at dir modal.old.candidate (length found.candidates)) found)
            self.old self.new result }
        ensures modal { OnOk result (
            let found = completion_from H.Candidate.offers start candidates.now in
            modal_of modal.new ≡ modal_after_turn
            (cycle_at dir modal.old.candidate (length found.candidates)) found
            self.old.recorded.line (modal_of modal.old)) }
    {
        let at = cycle_at(dir, modal.candidate, candidates.len());
        self.turn_to(modal, at, start, candidates)
    }

    /// Calls the helper for the candidates again, and inserts the next one in a direction.
    fn ask_and_turn(
        &mut self,
        modal: &mut ModalState,
        dir: SearchDirection,
    ) -> Result<(), ReadlineError>
        requires { is_some self.old.helper ≡ true }
        ensures does { Does (ask_and_turn_effect dir (modal_of modal.old)) self.old self.new
            result }
        ensures modal { OnOk result (modal_of modal.new ≡ modal_after_ask dir (modal_of modal.old)
            (setting_of self.old) (value_of self.old)) }
    {
        let (start, candidates) = self.candidates()?;
        self.turn_next(modal, dir, start, &candidates)
    }

    /// The next candidate in a direction.
    fn turn_on(&mut self, modal: &mut ModalState, dir: SearchDirection) -> Result<(), ReadlineError>
        requires { is_some self.old.helper ≡ true }
        ensures does { Does (cycle_effect dir (modal_of modal.old)) self.old self.new result }
        ensures modal { OnOk result (modal_of modal.new ≡ modal_after_ask dir (modal_of modal.old)
            (setting_of self.old)
            (cycle_back (modal_of modal.old) (setting_of self.old) (value_of self.old)).value) }
    {
        self.take_candidate_back(modal)?;
        self.ask_and_turn(modal, dir)
    }

    /// What Tab, or Shift-Tab, makes of a candidate that stands in place of the word.
    pub(crate) fn cycle(
        &mut self,
        modal: &mut ModalState,
        dir: SearchDirection,
        cmd: &Cmd,
    ) -> Result<Next, ReadlineError>
        ensures { Meets (cycle dir (modal_of modal.old) cmd.now) (next_of cmd.now) self.old self.new
            (modal_of modal.new) result }
    {
        if self.helper.is_none() {
            return Ok(Next::Same);
        }
        self.turn_on(modal, dir)?;
        Ok(Next::Nothing)
    }
}
