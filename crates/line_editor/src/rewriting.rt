//! Shows characters that are replaced by as many others.
ghost use Rattle.std.specs.Prelude.{◌≡◌, ◌≤◌};

use crate::renderer::{RefreshKind, Renderer};
use crate::state::State;
use line_buffer::is_printable_text;
use line_config::ReadlineError;
use line_help::{Helper, History};

impl<'p, 'h, Out: Renderer, H: Helper + Drop, Hi: History> State<'p, 'h, Out, H, Hi> {
    ghost use Rattle.line_editor.specs.States.{value_of, setting_of, Does};
    ghost use Rattle.line_editor.specs.Transforms.{has_letters, may_be_rewritten, refresh_over_effect};

    /// Whether printable characters stand from one place up to another, in a line that is bare and
    /// plain.
    fn has_letters(&self, from: usize, upto: usize) -> bool
        requires order { from ≤ upto }
        ensures { result ≡ has_letters from upto (value_of self.now) }
    {
        self.is_bare()
            && self.recorded.plain
            && upto <= self.recorded.line.len()
            && is_printable_text(&self.recorded.line.as_str()[from..upto])
    }

    /// Whether other letters written over them may show a change, if lines may be drawn in part.
    pub(crate) fn may_be_rewritten(&self, from: usize, upto: usize) -> bool
        requires order { from ≤ upto }
        ensures { result ≡ may_be_rewritten (setting_of self.now) from upto (value_of self.now) }
    {
        self.config.partial_redraw() && self.has_letters(from, upto)
    }

    /// Draws the line with a new hint. Only the letters between two places are written, if they may
    /// be.
    pub(crate) fn refresh_over(
        &mut self,
        over: bool,
        from: usize,
        upto: usize,
    ) -> Result<(), ReadlineError>
        requires order { from ≤ upto }
        ensures does { Does (refresh_over_effect over from upto) self.old self.new result }
    {
        self.ask_anew()?;
        if over && self.has_letters(from, upto) {
            self.show_rewritten(from, upto)
        } else {
            self.repaint(RefreshKind::All)
        }
    }
}
