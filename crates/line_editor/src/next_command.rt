//! The next command of a line.
ghost use Rattle.std.specs.Prelude.{◌≡◌, ◌<◌, OnOk};
ghost use Rattle.line_keys.specs.InputStates.{input_of, custom_in, Follows};
ghost use Rattle.line_keys.specs.Requests.{Begins, IsLater, abort_in, first_request};
ghost use Rattle.line_editor.specs.NextCommand.{line_phrase, begins_group, ring_after_reset};

use crate::renderer::Renderer;
use crate::state::State;
use line_config::ReadlineError;
use line_help::{Helper, History};
use line_keys::{Cmd, Decides, InputState, RawReader, Refresher};
use line_record::KillRing;

/// Whether a command changes a range by the text typed next, all of which is undone as one.
fn begins_group(cmd: &Cmd) -> bool
    ensures { result ≡ begins_group cmd.now }
{
    matches!(cmd, Cmd::Replace(..))
}

/// Ends a run of kills before a command that doesn't continue it.
pub(crate) fn reset_for(ring: &mut KillRing, cmd: &Cmd)
    ensures { ring.new ≡ ring_after_reset cmd.now ring.old }
{
    if cmd.should_reset_kill_ring() {
        ring.reset();
    }
}

impl<'p, 'h, Out: Renderer, H: Helper + Drop, Hi: History> State<'p, 'h, Out, H, Hi> {
    ghost use Rattle.line_editor.specs.Drawing.{shown_in};
    ghost use Rattle.line_editor.specs.States.{value_of, display_of};

    /// The next command. Only its own keys and pastes are read. A group begins if the command
    /// changes a range by the text typed next.
    pub fn next_cmd<R: RawReader, D: Decides>(
        &mut self,
        input_state: &mut InputState<'_, D>,
        rdr: &mut R,
        single_esc_abort: bool,
        ignore_external_print: bool,
    ) -> Result<Cmd, ReadlineError>
        ensures phrase { let custom = custom_in input_state.old D.decides in
            let input = input_of input_state.old in
            Follows display_of custom (line_phrase custom input (shown_in (value_of self.old)))
            self.old input self.new (input_of input_state.new)
            (R.feed rdr.old) (R.feed rdr.new) result }
        ensures bindings { input_state.new.custom_bindings ≡ input_state.old.custom_bindings }
        ensures asks { let flag = abort_in (input_of input_state.old).mode single_esc_abort in
            let first = first_request flag ignore_external_print in
            Begins R.asked first IsLater rdr.old rdr.new }
        ensures falls { OnOk result ((R.feed rdr.new).bound < (R.feed rdr.old).bound) }
    {
        let alloc = self.alloc;
        let cmd = input_state.next_cmd(alloc, rdr, self, single_esc_abort, ignore_external_print)?;
        if begins_group(&cmd) {
            self.doing_insert()?;
            return Ok(cmd);
        }
        Ok(cmd)
    }
}
