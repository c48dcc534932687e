//! Yanks texts from the ring, and replaces yanked texts.
ghost use Rattle.std.specs.Prelude.{◌≡◌, ◌-◌, slice_get};
ghost use Rattle.line_editor.specs.Yanking.{line_at_anchor, steps_over, behind_yank};

use crate::measured::known_within;
use crate::renderer::Renderer;
use crate::shared_styles::FirstSpans;
use crate::state::State;
use line_buffer::{Anchor, LineBuffer, RepeatCount};
use line_config::ReadlineError;
use line_help::{Helper, History};
use line_keys::{Decides, InputState};
use line_record::KillRing;

/// The place after the cluster at the cursor if a text is to go there, else the cursor's.
fn place_at(line: &LineBuffer, anchor: Anchor) -> usize
    ensures { result ≡ (line_at_anchor anchor line.now).place }
{
    match anchor {
        Anchor::After => line.next_pos(1).unwrap_or(line.pos()),
        Anchor::Before => line.pos(),
    }
}

/// Steps over the cluster at the cursor if a text is to go after it. Returns whether there is one.
fn step_on(line: &mut LineBuffer, anchor: Anchor) -> bool
    ensures line { line.new ≡ line_at_anchor anchor line.old }
    ensures text { line.new.text ≡ line.old.text }
    ensures stepped { result ≡ steps_over anchor line.old }
{
    match anchor {
        Anchor::After => line.move_forward(1),
        Anchor::Before => false,
    }
}

/// Steps back onto the last cluster, as Vi's command mode does.
fn step_back(line: &mut LineBuffer, vi_command: bool)
    ensures line { line.new ≡ behind_yank vi_command line.old }
    ensures text { line.new.text ≡ line.old.text }
{
    if vi_command {
        line.move_backward(1);
    }
}

impl<'p, 'h, Out: Renderer, H: Helper + Drop, Hi: History> State<'p, 'h, Out, H, Hi> {
    ghost use Rattle.line_editor.specs.States.{value_of, setting_of, Does};
    ghost use Rattle.line_editor.specs.Drawing.{AreNoted};
    ghost use Rattle.line_editor.specs.Yanking.{yank_text, pop_text, yank_lent, pop_lent};
    ghost use Rattle.line_keys.specs.PhraseScripts.{is_vi_command};
    ghost use Rattle.line_record.specs.Ring.{ring_after_yank, ring_after_turn, yank_exchange};

    /// Inserts a text `n` times, at the cursor or after the cluster at it.
    pub fn edit_yank<D: Decides>(
        &mut self,
        input_state: &InputState<'_, D>,
        text: &str,
        anchor: Anchor,
        n: RepeatCount,
    ) -> Result<(), ReadlineError>
        ensures does { Does
            (yank_text (is_vi_command input_state.now.mode input_state.now.input_mode)
            text.now anchor n) self.old self.new result }
    {
        if self.highlight_char {
            return self.yank_in_styles(input_state, text, anchor, n);
        }
        self.yank_noted(input_state, text, anchor, n, None)
    }

    /// The same in a line with styles, whose first spans are noted. Not inlined, so that other
    /// lines need no frame for them.
    #[inline(never)]
    fn yank_in_styles<D: Decides>(
        &mut self,
        input_state: &InputState<'_, D>,
        text: &str,
        anchor: Anchor,
        n: RepeatCount,
    ) -> Result<(), ReadlineError>
        ensures does { Does
            (yank_text (is_vi_command input_state.now.mode input_state.now.input_mode)
            text.now anchor n) self.old self.new result }
    {
        let noted = self.line_spans(place_at(&self.recorded.line, anchor));
        self.yank_noted(input_state, text, anchor, n, noted.as_ref())
    }

    /// The same by the first spans of the line, if it has styles.
    #[inline]
    fn yank_noted<D: Decides>(
        &mut self,
        input_state: &InputState<'_, D>,
        text: &str,
        anchor: Anchor,
        n: RepeatCount,
        noted: Option<&FirstSpans>,
    ) -> Result<(), ReadlineError>
        requires noted { let line = line_at_anchor anchor self.old.recorded.line in
            AreNoted (setting_of self.old) line.place (value_of self.old) noted }
        ensures does { Does
            (yank_text (is_vi_command input_state.now.mode input_state.now.input_mode)
            text.now anchor n) self.old self.new result }
    {
        let from = place_at(&self.recorded.line, anchor);
        let since = self.since(from, noted);
        let known = self.known;
        self.known = None;
        let recorded = &mut self.recorded;
        let stepped = step_on(&mut recorded.line, anchor);
        let pos = recorded.line.pos();
        let put = recorded.yank(self.alloc, text, n)?;
        if put.is_some() {
            step_back(&mut recorded.line, input_state.is_vi_cmd_mode());
            self.known = known_within(pos, known);
            return self.refresh_since(&since);
        }
        if stepped {
            self.refresh_since(&since)
        } else {
            Ok(())
        }
    }

    /// Replaces the `yank_size` bytes before the cursor by a text, if there are as many.
    pub fn edit_yank_pop(&mut self, yank_size: usize, text: &str) -> Result<(), ReadlineError>
        ensures does { Does (pop_text yank_size text.now) self.old self.new result }
    {
        if self.highlight_char {
            return self.yank_pop_in_styles(yank_size, text);
        }
        self.yank_pop_noted(yank_size, text, None)
    }

    /// The same in a line with styles, whose first spans are noted. Not inlined, so that other
    /// lines need no frame for them.
    #[inline(never)]
    fn yank_pop_in_styles(&mut self, yank_size: usize, text: &str) -> Result<(), ReadlineError>
        ensures does { Does (pop_text yank_size text.now) self.old self.new result }
    {
        let from = self.recorded.line.pos().saturating_sub(yank_size);
        let noted = self.line_spans(from);
        self.yank_pop_noted(yank_size, text, noted.as_ref())
    }

    /// The same by the first spans of the line, if it has styles.
    #[inline]
    fn yank_pop_noted(
        &mut self,
        yank_size: usize,
        text: &str,
        noted: Option<&FirstSpans>,
    ) -> Result<(), ReadlineError>
        requires noted { let line = self.old.recorded.line in
            AreNoted (setting_of self.old) (line.place - yank_size) (value_of self.old) noted }
        ensures does { Does (pop_text yank_size text.now) self.old self.new result }
    {
        if !self.recorded.line.can_take_before(yank_size) {
            return Ok(());
        }
        let from = self.recorded.line.pos() - yank_size;
        let since = self.since(from, noted);
        let known = known_within(from, self.known);
        self.known = None;
        self.recorded.yank_pop(self.alloc, yank_size, text)?;
        self.known = known;
        self.refresh_since(&since)
    }

    /// Yanks the ring's text.
    pub(crate) fn yank_from<D: Decides>(
        &mut self,
        ring: &mut KillRing,
        input_state: &InputState<'_, D>,
        anchor: Anchor,
        n: RepeatCount,
    ) -> Result<(), ReadlineError>
        ensures does { Does (yank_lent
            (is_vi_command input_state.now.mode input_state.now.input_mode) anchor n
            (slice_get ring.old.slots ring.old.place)) self.old self.new result }
        ensures ring { ring.new ≡ ring_after_yank ring.old }
    {
        match ring.yank() {
            Some(text) => self.edit_yank(input_state, text, anchor, n),
            None => Ok(()),
        }
    }

    /// Replaces the yanked text by that of the turned slot.
    pub(crate) fn pop_from(&mut self, ring: &mut KillRing) -> Result<(), ReadlineError>
        ensures does { Does (pop_lent (yank_exchange ring.old)) self.old self.new result }
        ensures ring { ring.new ≡ ring_after_turn ring.old }
    {
        match ring.yank_pop() {
            Some((size, text)) => self.edit_yank_pop(size, text),
            None => Ok(()),
        }
    }
}
