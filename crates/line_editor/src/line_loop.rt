//! A line: its first drawing, then turns until one ends it.
ghost use Rattle.std.specs.Prelude.{◌≡◌, Ok};
ghost use Rattle.std.specs.Result.{result_and};
ghost use Rattle.line_keys.specs.InputStates.{input_of, custom_in};
ghost use Rattle.line_editor.specs.LineScripts.{turns_script, line_script};
ghost use Rattle.line_editor.specs.Modal.{modal_of};
ghost use Rattle.line_editor.specs.States.{RunsScript};

use crate::commands::Status;
use crate::modal_state::ModalState;
use crate::renderer::Renderer;
use crate::state::State;
use line_config::ReadlineError;
use line_help::{Helper, History};
use line_keys::{Decides, InputState, RawReader};
use line_record::KillRing;

impl<'p, 'h, Out: Renderer, H: Helper + Drop, Hi: History> State<'p, 'h, Out, H, Hi> {
    /// Turns until one ends the line. If one accepts it, the cursor goes to its end.
    fn turns<R: RawReader, D: Decides>(
        &mut self,
        input_state: &mut InputState<'_, D>,
        rdr: &mut R,
        kill_ring: &mut KillRing,
        modal: &mut ModalState,
    ) -> Result<(), ReadlineError>
        ensures { let custom = custom_in input_state.old D.decides in
            RunsScript turns_script custom
            self.old (input_of input_state.old) kill_ring.old (modal_of modal.old)
            (R.feed rdr.old) self.new (input_of input_state.new) kill_ring.new
            (modal_of modal.new) (R.feed rdr.new)
            (result_and result (Ok self.new.recorded.line.text)) }
    {
        'turns: loop {
            match self.turn(input_state, rdr, kill_ring, modal)? {
                Status::Proceed => {}
                Status::Submit => return self.submit(),
            }
        }
    }

    /// A line: its first drawing, then its turns.
    pub(crate) fn read_line<R: RawReader, D: Decides>(
        &mut self,
        input_state: &mut InputState<'_, D>,
        rdr: &mut R,
        kill_ring: &mut KillRing,
        modal: &mut ModalState,
    ) -> Result<(), ReadlineError>
        ensures { let custom = custom_in input_state.old D.decides in
            RunsScript line_script custom
            self.old (input_of input_state.old) kill_ring.old (modal_of modal.old)
            (R.feed rdr.old) self.new (input_of input_state.new) kill_ring.new
            (modal_of modal.new) (R.feed rdr.new)
            (result_and result (Ok self.new.recorded.line.text)) }
    {
        self.refresh()?;
        self.turns(input_state, rdr, kill_ring, modal)
    }
}
