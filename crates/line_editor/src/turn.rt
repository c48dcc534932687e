//! A turn of a line.
ghost use Rattle.std.specs.Prelude.{◌≡◌, false};
ghost use Rattle.line_keys.specs.InputStates.{input_of, custom_in};
ghost use Rattle.line_keys.specs.Requests.{Begins, IsLater, WaitForInput};

use crate::commands::{Status, execute};
use crate::modal_state::ModalState;
use crate::next_command::reset_for;
use crate::renderer::Renderer;
use crate::state::State;
use line_config::ReadlineError;
use line_help::{Helper, History};
use line_keys::{Decides, InputState, RawReader};
use line_record::KillRing;

impl<'p, 'h, Out: Renderer, H: Helper + Drop, Hi: History> State<'p, 'h, Out, H, Hi> {
    ghost use Rattle.line_editor.specs.LineScripts.{turn_script};
    ghost use Rattle.line_editor.specs.Modal.{modal_of};
    ghost use Rattle.line_editor.specs.States.{RunsScript};

    /// One turn: the next command and its effect. It is inlined into the loop over the turns.
    #[inline(always)]
    pub(crate) fn turn<R: RawReader, D: Decides>(
        &mut self,
        input_state: &mut InputState<'_, D>,
        rdr: &mut R,
        kill_ring: &mut KillRing,
        modal: &mut ModalState,
    ) -> Result<Status, ReadlineError>
        ensures turn { let custom = custom_in input_state.old D.decides in
            RunsScript turn_script custom
            self.old (input_of input_state.old) kill_ring.old (modal_of modal.old)
            (R.feed rdr.old) self.new (input_of input_state.new) kill_ring.new
            (modal_of modal.new) (R.feed rdr.new) result }
        ensures asks { Begins R.asked (WaitForInput false) IsLater rdr.old rdr.new }
        ensures bindings { input_state.new.custom_bindings ≡ input_state.old.custom_bindings }
    {
        let mut cmd = self.next_cmd(input_state, rdr, false, false)?;
        self.meet(modal, &mut cmd)?;
        reset_for(kill_ring, &cmd);
        execute(cmd, self, input_state, kill_ring)
    }
}
