//! Accepts lines.
ghost use Rattle.std.specs.Prelude.{◌||◌, ◌≡◌, IfOk, OnOk, option_copied, is_some};
ghost use Rattle.line_editor.specs.Drawing.{effect_if, message_effect};

use crate::faults::error_of;
use crate::renderer::Renderer;
use crate::state::State;
use line_config::ReadlineError;
use line_help::{Helper, History, ValidationContext, ValidationResult, Validator};
use line_keys::{CmdKind, Text};

impl<'p, 'h, Out: Renderer, H: Helper + Drop, Hi: History> State<'p, 'h, Out, H, Hi> {
    ghost use Rattle.line_editor.specs.States.{value_of, setting_of, Does, Renders, Helps, Stays};
    ghost use Rattle.line_editor.specs.Values.{verdict_reply};
    ghost use Rattle.line_editor.specs.Accepting.{bare, verdict, verdict_told, verdict_effect, group_and_verdict_effect, validate, accepts, newline, accept, newline_if, accept_or_insert, submit_effect};

    /// Draws the line as it was typed, without hint and highlighted character. Draws nothing if
    /// there is neither and the session's own prompt is shown.
    pub(crate) fn bare_line(&mut self) -> Result<(), ReadlineError>
        ensures does { Does bare self.old self.new result }
    {
        let stood = self.hint.is_some() || self.highlight_char;
        self.hint = None;
        self.mark(CmdKind::ForcedRefresh);
        if stood || self.highlight_char {
            self.draw_with(None)
        } else {
            self.show_bare()
        }
    }

    /// The helper's verdict on the line.
    fn judge(&self) -> Result<ValidationResult, ReadlineError>
        ensures verdict { IfOk result
            (λ found. found ≡ verdict (setting_of self.now) (value_of self.now)) }
        ensures helps { Helps (verdict_reply (setting_of self.now) (value_of self.now)) result }
    {
        let Some(helper) = &self.helper else {
            return Ok(ValidationResult::Valid(None));
        };
        let text = self.recorded.line.as_str();
        helper
            .validate(self.alloc, &ValidationContext::new(text))
            .map_err(error_of)
    }

    /// Shows the verdict on a line that isn't incomplete, if something must be redrawn or there is
    /// a message.
    fn tell_verdict(&mut self, found: &ValidationResult, draws: bool) -> Result<(), ReadlineError>
        ensures { Renders (verdict_told found.now draws) self.old self.new result }
    {
        match found {
            ValidationResult::Incomplete => Ok(()),
            ValidationResult::Invalid(text) => self.tell_if(draws, text, CmdKind::Other),
            ValidationResult::Valid(text) => self.tell_if(draws, text, CmdKind::ForcedRefresh),
        }
    }

    /// Shows a message, if there is one or something must be redrawn.
    fn tell_if(
        &mut self,
        draws: bool,
        text: &Option<Text>,
        kind: CmdKind,
    ) -> Result<(), ReadlineError>
        ensures { Renders (effect_if (draws || is_some text.now) (message_effect text.now kind))
            self.old self.new result }
    {
        if draws || text.is_some() {
            self.tell(text_of(text), kind)
        } else {
            Ok(())
        }
    }

    /// Closes the groups, and shows the verdict.
    fn close_and_tell(&mut self, found: &ValidationResult) -> Result<(), ReadlineError>
        ensures { Renders (verdict_effect found.now) self.old self.new result }
    {
        let recorded = &mut self.recorded;
        let ended = recorded.changes.end(self.alloc)?;
        let draws = ended || self.hint.is_some();
        self.tell_verdict(found, draws)
    }

    /// Opens a group, and calls the helper to validate the line.
    fn open_and_ask(&mut self) -> Result<ValidationResult, ReadlineError>
        ensures does { Does group_and_verdict_effect self.old self.new result }
        ensures verdict { IfOk result
            (λ found. found ≡ verdict (setting_of self.old) (value_of self.old)) }
    {
        let recorded = &mut self.recorded;
        recorded.changes.begin(self.alloc)?;
        let found = self.judge()?;
        Ok(found)
    }

    /// Calls the helper to validate the line. If there is a message, if a group was closed, or if a
    /// hint is shown, the line is drawn without hint and with the message. If the helper fails, the
    /// group opened for it stays open.
    pub fn validate(&mut self) -> Result<ValidationResult, ReadlineError>
        ensures does { Does validate self.old self.new result }
        ensures verdict { IfOk result
            (λ found. found ≡ verdict (setting_of self.old) (value_of self.old)) }
    {
        if self.helper.is_none() {
            return Ok(ValidationResult::Valid(None));
        }
        let found = self.open_and_ask()?;
        self.close_and_tell(&found)?;
        Ok(found)
    }

    /// Draws the line as it was typed, and calls the helper to validate it.
    pub(crate) fn accept(&mut self) -> Result<ValidationResult, ReadlineError>
        ensures does { Does accept self.old self.new result }
        ensures verdict { IfOk result
            (λ found. found ≡ verdict (setting_of self.old) (value_of self.old)) }
        ensures line { OnOk result (self.new.recorded.line ≡ self.old.recorded.line) }
    {
        self.bare_line()?;
        let found = self.validate()?;
        Ok(found)
    }

    /// Whether a line with this verdict is accepted.
    fn accepts_line(&self, found: &ValidationResult, middle: bool) -> bool
        ensures { result ≡ accepts middle found.now self.now.recorded.line }
    {
        found.is_valid() && (middle || self.recorded.line.is_end_of_input())
    }

    /// Inserts a newline if the line isn't accepted and no message is shown.
    fn insert_newline(
        &mut self,
        accepted: bool,
        found: &ValidationResult,
    ) -> Result<(), ReadlineError>
        ensures does { Does (newline_if accepted found.now) self.old self.new result }
    {
        if !accepted && (found.is_valid() || !found.has_message()) {
            self.edit_insert('\n', 1)
        } else {
            Ok(())
        }
    }

    /// Accepts a valid line, or inserts a newline into any other line. Returns whether it is
    /// accepted.
    pub(crate) fn accept_or_insert(&mut self, middle: bool) -> Result<bool, ReadlineError>
        ensures does { Does (accept_or_insert middle) self.old self.new result }
        ensures accepted { IfOk result
            (λ b. b ≡ accepts middle (verdict (setting_of self.old) (value_of self.old))
            self.old.recorded.line) }
    {
        let found = self.accept()?;
        let accepted = self.accepts_line(&found, middle);
        self.insert_newline(accepted, &found)?;
        Ok(accepted)
    }

    /// Inserts a newline into a line that is drawn as it was typed.
    pub(crate) fn newline(&mut self) -> Result<(), ReadlineError>
        ensures does { Does newline self.old self.new result }
    {
        self.bare_line()?;
        self.edit_insert('\n', 1)
    }

    /// Ends an accepted line: moves the cursor to the text's end, then the display's cursor behind
    /// the drawing.
    pub(crate) fn submit(&mut self) -> Result<(), ReadlineError>
        ensures { Renders submit_effect self.old self.new result }
    {
        self.edit_move_buffer_end(CmdKind::ForcedRefresh)?;
        self.move_cursor_to_end()
    }
}

/// The text, if there is one.
fn text_of(text: &Option<Text>) -> Option<&str>
    ensures { option_copied result ≡ text.now }
{
    match text {
        Some(text) => Some(text.as_str()),
        None => None,
    }
}
