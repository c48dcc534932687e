//! A line without a display, which records the requests to it.

ghost use Rattle.std.specs.Prelude.{◌≡◌};

use line_config::ReadlineError;
use line_keys::{CmdKind, Refresher, Text};
use std::alloc::Global;

/// A request to the display.
#[derive(Debug, Drop, PartialEq, Eq)]
pub enum Request {
    Line,
    Message(Option<Text>, CmdKind),
    Prompt(Text),
    DoingInsert,
    DoneInserting,
}

/// A text with a cursor and perhaps a hint. A message replaces the hint.
#[derive(Drop)]
pub struct PlainLine {
    alloc: Global,
    /// How many more requests succeed before the display fails; `None` for all.
    pub answered: Option<u32>,
    pub text: Text,
    /// The cursor's place, in bytes.
    pub pos: usize,
    pub hint: Option<Text>,
    pub inserted: Option<Text>,
    pub requests: Vec<Request>,
}

impl PlainLine {
    ghost use Rattle.std.specs.Prelude.{◌++◌, ◌∷◌, [], IfOk, IfErr, OnOk, length, false, None};
    ghost use Rattle.stand_ins.specs.Reading.{shown_of, MakesRequest, request_made, HasReason};

    pub fn new(alloc: Global, text: Text) -> Self
        ensures { shown_of result ≡ record {
          line = text;
          place = length text;
          hinted = false;
          completion = None;
          last_insert = None;
        } }
    {
        let pos = text.as_str().len();
        PlainLine {
            alloc,
            answered: None,
            text,
            pos,
            hint: None,
            inserted: None,
            requests: Vec::new(alloc),
        }
    }

    // Records a request.
    fn keep(&mut self, request: Request) -> Result<(), ReadlineError>
        ensures ok { OnOk result (MakesRequest self.old (request_made request) self.new) }
        ensures shows { OnOk result (shown_of self.new ≡ shown_of self.old) }
        ensures err { IfErr result (HasReason self.new) }
    {
        match self.answered {
            None => {}
            Some(0) => return Err(ReadlineError::Display),
            Some(n) => self.answered = Some(n - 1),
        }
        match self.requests.push(request) {
            Ok(()) => Ok(()),
            Err(_) => Err(ReadlineError::Memory),
        }
    }
}

impl Refresher for PlainLine {
    ghost use Rattle.stand_ins.specs.Reading.{plain_line_display};

    ghost display = { plain_line_display };

    fn refresh_line(&mut self) -> Result<(), ReadlineError> {
        self.keep(Request::Line)
    }

    fn refresh_line_with_msg(
        &mut self,
        msg: Option<&str>,
        kind: CmdKind,
    ) -> Result<(), ReadlineError> {
        let kept = match msg {
            Some(text) => Some(Text::try_from_str(self.alloc, text)?),
            None => None,
        };
        self.keep(Request::Message(kept, kind))?;
        self.hint = None;
        Ok(())
    }

    fn refresh_prompt_and_line(&mut self, prompt: &str) -> Result<(), ReadlineError> {
        let kept = Text::try_from_str(self.alloc, prompt)?;
        self.keep(Request::Prompt(kept))
    }

    fn doing_insert(&mut self) -> Result<(), ReadlineError> {
        self.keep(Request::DoingInsert)
    }

    fn done_inserting(&mut self) -> Result<(), ReadlineError> {
        self.keep(Request::DoneInserting)
    }

    fn last_insert(&self) -> Result<Option<Text>, ReadlineError> {
        match &self.inserted {
            Some(text) => Ok(Some(text.try_clone(self.alloc)?)),
            None => Ok(None),
        }
    }

    fn is_cursor_at_end(&self) -> bool {
        self.pos == self.text.as_str().len()
    }

    fn has_hint(&self) -> bool {
        self.hint.is_some()
    }

    fn hint_text(&self) -> Option<&str> {
        match &self.hint {
            Some(text) => Some(text.as_str()),
            None => None,
        }
    }

    fn line(&self) -> &str {
        self.text.as_str()
    }

    fn pos(&self) -> usize {
        self.pos
    }
}
