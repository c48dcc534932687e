//! A state as the key tables see it.
ghost use Rattle.std.specs.Prelude.{◌≡◌, IfErr, OnOk, Ok, Err};

use crate::renderer::Renderer;
use crate::state::State;
use line_config::ReadlineError;
use line_help::{Helper, Hint, History};
use line_keys::{CmdKind, Invoke, Refresher, Text};

impl<'p, 'h, Out: Renderer, H: Helper + Drop, Hi: History> State<'p, 'h, Out, H, Hi> {
    ghost use Rattle.line_editor.specs.States.{Does};
    ghost use Rattle.line_editor.specs.Values.{open_group, close_groups};

    /// Opens a group: all changes until it is closed are undone as one.
    pub(crate) fn open_group(&mut self) -> Result<(), ReadlineError>
        ensures does { Does open_group self.old self.new result }
    {
        let recorded = &mut self.recorded;
        recorded.changes.begin(self.alloc)?;
        Ok(())
    }

    /// Closes all groups.
    pub(crate) fn close_groups(&mut self) -> Result<(), ReadlineError>
        ensures does { Does close_groups self.old self.new result }
    {
        let recorded = &mut self.recorded;
        recorded.changes.end(self.alloc)?;
        Ok(())
    }
}

impl<'p, 'h, Out: Renderer, H: Helper + Drop, Hi: History> Invoke for State<'p, 'h, Out, H, Hi> {
    ghost typed = { λ s. s.recorded.line.text };

    fn input(&self) -> &str {
        self.recorded.line.as_str()
    }
}

impl<'p, 'h, Out: Renderer, H: Helper + Drop, Hi: History> Refresher for State<'p, 'h, Out, H, Hi> {
    ghost use Rattle.line_editor.specs.States.{display_of};

    ghost display = { display_of };

    fn refresh_line(&mut self) -> Result<(), ReadlineError> {
        self.refresh()
    }

    fn refresh_line_with_msg(
        &mut self,
        msg: Option<&str>,
        kind: CmdKind,
    ) -> Result<(), ReadlineError> {
        self.tell(msg, kind)
    }

    fn refresh_prompt_and_line(&mut self, prompt: &str) -> Result<(), ReadlineError> {
        self.refresh_behind(prompt)
    }

    fn doing_insert(&mut self) -> Result<(), ReadlineError> {
        self.open_group()
    }

    fn done_inserting(&mut self) -> Result<(), ReadlineError> {
        self.close_groups()
    }

    fn last_insert(&self) -> Result<Option<Text>, ReadlineError> {
        match self.recorded.changes.last_insert_text() {
            Some(text) => Ok(Some(Text::try_from_str(self.alloc, text)?)),
            None => Ok(None),
        }
    }

    fn is_cursor_at_end(&self) -> bool {
        self.recorded.line.is_cursor_at_end()
    }

    fn has_hint(&self) -> bool {
        self.hint.is_some()
    }

    fn hint_text(&self) -> Option<&str> {
        match &self.hint {
            Some(hint) => hint.completion(),
            None => None,
        }
    }

    fn line(&self) -> &str {
        self.recorded.line.as_str()
    }

    fn pos(&self) -> usize {
        self.recorded.line.pos()
    }
}
