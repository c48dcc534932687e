//! Accepts hints.
ghost use Rattle.std.specs.Prelude.{◌≡◌, option_map, option_copied, IfOk};

use crate::renderer::Renderer;
use crate::state::State;
use line_config::ReadlineError;
use line_help::{Helper, Hint, History};

impl<'p, 'h, Out: Renderer, H: Helper + Drop, Hi: History> State<'p, 'h, Out, H, Hi> {
    ghost use Rattle.line_editor.specs.States.{value_of, setting_of, Does};
    ghost use Rattle.line_editor.specs.Drawing.{beep_effect, refresh_effect};
    ghost use Rattle.line_editor.specs.Completing.{complete_hint};
    ghost use Rattle.line_editor.specs.Values.{then_do};

    /// Beeps, and draws the line with a new hint.
    fn beep_and_refresh(&mut self) -> Result<(), ReadlineError>
        ensures does { Does (then_do beep_effect refresh_effect) self.old self.new result }
    {
        self.beep()?;
        self.refresh()
    }

    /// Inserts the hint into the line at the row's end.
    pub(crate) fn complete_hint(&mut self) -> Result<(), ReadlineError>
        ensures does { Does complete_hint self.old self.new result }
    {
        let Some(hint) = &self.hint else {
            return Ok(());
        };
        self.known = None;
        let recorded = &mut self.recorded;
        recorded.line.move_end();
        let Some(text) = hint.completion() else {
            return self.beep_and_refresh();
        };
        let put = recorded.yank(self.alloc, text, 1)?;
        if put.is_none() {
            return self.beep_and_refresh();
        }
        self.refresh()
    }
}
