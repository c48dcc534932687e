//! Up and Down through the entries that begin with the line.
ghost use Rattle.std.specs.Prelude.{◌≡◌, is_some};
ghost use Rattle.line_editor.specs.declared.modal_state.Wish.TheVariants.{Up};
ghost use Rattle.line_editor.specs.Modal.{modal_of, next_of};
ghost use Rattle.line_editor.specs.ModalCommands.{is_prefix, earlier, later, rises, falls, meeting_at_rest};

use crate::modal_state::{ModalState, Next, Standing};
use crate::renderer::Renderer;
use crate::state::State;
use line_buffer::LineBuffer;
use line_config::ReadlineError;
use line_help::{Helper, History, SearchDirection};
use line_keys::Cmd;

/// Whether a line is one row that isn't empty, with the cursor at its end.
fn is_prefix(line: &LineBuffer) -> bool
    ensures { result ≡ is_prefix line.now }
{
    !line.is_empty() && line.is_cursor_at_end() && !line.as_str().as_bytes().contains(&b'\n')
}

impl<'p, 'h, Out: Renderer, H: Helper + Drop, Hi: History> State<'p, 'h, Out, H, Hi> {
    ghost use Rattle.line_editor.specs.States.{value_of, setting_of};
    ghost use Rattle.line_editor.specs.States.{Meets};

    /// Whether an earlier entry begins with the text before the cursor.
    fn has_earlier(&self) -> bool
        ensures { result ≡ is_some (earlier (setting_of self.now) (value_of self.now)) }
    {
        let place = self.ctx.history_index();
        if place == 0 {
            return false;
        }
        let term = &self.recorded.line.as_str()[..self.recorded.line.pos()];
        self.ctx
            .history()
            .starts_with(term, place - 1, SearchDirection::Reverse)
            .is_some()
    }

    /// Whether a later entry begins with it.
    fn has_later(&self) -> bool
        ensures { result ≡ is_some (later (setting_of self.now) (value_of self.now)) }
    {
        let place = self.ctx.history_index();
        if place == self.ctx.history().len() {
            return false;
        }
        let term = &self.recorded.line.as_str()[..self.recorded.line.pos()];
        self.ctx
            .history()
            .starts_with(term, place + 1, SearchDirection::Forward)
            .is_some()
    }

    /// Up to the earlier entry. The line is saved, to come back to it. Beeps if there is none.
    pub(crate) fn rise(&mut self, modal: &mut ModalState, cmd: &Cmd) -> Result<Next, ReadlineError>
        ensures { Meets (rises (modal_of modal.old)) (next_of cmd.now) self.old self.new
            (modal_of modal.new) result }
    {
        if !self.has_earlier() {
            self.beep()?;
            return Ok(Next::Nothing);
        }
        self.backup_on_leaving()?;
        modal.standing = Standing::Prefixes;
        Ok(Next::Earlier)
    }

    /// Up at rest: by the line, if it is one row with the cursor at its end.
    pub(crate) fn met_up(
        &mut self,
        modal: &mut ModalState,
        cmd: &Cmd,
    ) -> Result<Next, ReadlineError>
        ensures { Meets (meeting_at_rest Up (modal_of modal.old) cmd.now) (next_of cmd.now)
            self.old self.new (modal_of modal.new) result }
    {
        let own = self.ctx.history_index() == self.ctx.history().len();
        if own && is_prefix(&self.recorded.line) {
            self.rise(modal, cmd)
        } else {
            Ok(Next::Same)
        }
    }

    /// Down to the later entry, or to the line itself.
    pub(crate) fn fall(&mut self, modal: &mut ModalState, cmd: &Cmd) -> Result<Next, ReadlineError>
        ensures { Meets (falls (modal_of modal.old)) (next_of cmd.now) self.old self.new
            (modal_of modal.new) result }
    {
        if self.has_later() {
            Ok(Next::Later)
        } else {
            modal.standing = Standing::Rests;
            Ok(Next::Own)
        }
    }
}
