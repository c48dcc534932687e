//! The commands of typed keys, in words.

use crate::keys::tables::Desk;
use line_config::{Config, ReadlineError};
use line_keys::{Cmd, InputState, Text};
use stand_ins::readers::KeyList;
use stand_ins::refreshers::{PlainLine, Request};
use stand_ins::rows::raised;
use stand_ins::tables::line_and_place;
use stand_ins::typing::{Input, typed};
use std::alloc::{AllocError, Global};

/// A line with its cursor, marked by a bar.
pub(crate) fn line_marked(alloc: Global, marked: &str) -> Result<PlainLine, ReadlineError> {
    let (text, pos) = line_and_place(alloc, marked)?;
    let mut line = PlainLine::new(alloc, Text::from(text));
    line.pos = pos;
    Ok(line)
}

// Puts the texts of a desk at a line.
fn put_texts(line: &mut PlainLine, desk: &Desk<'_>) -> Result<(), ReadlineError> {
    line.hint = copied(desk.alloc, desk.hint)?;
    line.inserted = copied(desk.alloc, desk.inserted)?;
    Ok(())
}

fn copied(alloc: Global, text: Option<&str>) -> Result<Option<Text>, ReadlineError> {
    match text {
        Some(text) => Ok(Some(Text::try_from_str(alloc, text)?)),
        None => Ok(None),
    }
}

/// Keys typed at a desk.
#[derive(Drop)]
struct Typing<'d> {
    desk: &'d Desk<'d>,
    first_by_key: bool,
    state: InputState<'d>,
    reader: KeyList<'d>,
}

impl<'d> Typing<'d> {
    fn new(
        desk: &'d Desk<'d>,
        first_by_key: bool,
        input: &'d Input,
    ) -> Result<Self, ReadlineError> {
        let config = Config::builder()
            .edit_mode(desk.mode)
            .modal_commands(desk.modal)
            .build();
        Ok(Typing {
            desk,
            first_by_key,
            state: InputState::new(desk.alloc, &config, &desk.bindings)?,
            reader: KeyList::new(&input.typed, input.cut, input.after),
        })
    }

    // Writes each phrase.
    fn tell(&mut self, line: &mut PlainLine, said: &mut String) -> Result<(), ReadlineError> {
        for _ in 0..100 {
            if self.tell_phrase(line, said)? {
                break;
            }
        }
        Ok(())
    }

    // Writes one phrase, and returns whether it was the last.
    fn tell_phrase(
        &mut self,
        line: &mut PlainLine,
        said: &mut String,
    ) -> Result<bool, ReadlineError> {
        let alloc = self.desk.alloc;
        let answer = self
            .state
            .next_cmd(alloc, &mut self.reader, line, false, self.first_by_key);
        raised(self.tell_all(line, said, &answer))
    }

    // Writes the requests to the display, and then the answer.
    fn tell_all(
        &self,
        line: &mut PlainLine,
        said: &mut String,
        answer: &Result<Cmd, ReadlineError>,
    ) -> Result<bool, AllocError> {
        tell_requests(said, line)?;
        self.tell_answer(said, answer)
    }

    fn tell_answer(
        &self,
        said: &mut String,
        answer: &Result<Cmd, ReadlineError>,
    ) -> Result<bool, AllocError> {
        let left = self.reader.left().len();
        match answer {
            Ok(cmd) => self.tell_command(said, cmd, left == 0),
            Err(why) => {
                write!(said, "{why:?} left {left}")?;
                Ok(true)
            }
        }
    }

    fn tell_command(&self, said: &mut String, cmd: &Cmd, last: bool) -> Result<bool, AllocError> {
        let mode = self.mode();
        let end = if last { "" } else { "; " };
        write!(said, "{cmd:?}{mode}{end}")?;
        Ok(last)
    }

    // The mode that a command leaves, if it is to be written.
    fn mode(&self) -> &'static str {
        if !self.desk.modes {
            ""
        } else if self.state.is_emacs_mode() {
            " in Emacs mode"
        } else if self.state.is_vi_cmd_mode() {
            " in command mode"
        } else {
            " in insert mode"
        }
    }
}

/// The commands of the input, separated by `; `. Before each command come the requests to the
/// display for it, as `<line>`, or `<7>` for the prompt of the count 7. An error is the last, with
/// the number of keys and pastes that remain.
pub(crate) fn told(
    desk: &Desk<'_>,
    first_by_key: bool,
    words: &str,
) -> Result<String, ReadlineError> {
    let input = typed(desk.alloc, words)?;
    let mut said = String::new(desk.alloc);
    tell_input(desk, first_by_key, &input, &mut said)?;
    Ok(said)
}

fn tell_input(
    desk: &Desk<'_>,
    first_by_key: bool,
    input: &Input,
    said: &mut String,
) -> Result<(), ReadlineError> {
    let mut line = line_marked(desk.alloc, desk.line)?;
    tell_typed(desk, first_by_key, input, &mut line, said)
}

fn tell_typed(
    desk: &Desk<'_>,
    first_by_key: bool,
    input: &Input,
    line: &mut PlainLine,
    said: &mut String,
) -> Result<(), ReadlineError> {
    line.answered = desk.answered;
    put_texts(line, desk)?;
    let mut typing = Typing::new(desk, first_by_key, input)?;
    typing.tell(line, said)
}

// Writes the requests to the display, and forgets them.
fn tell_requests(said: &mut String, line: &mut PlainLine) -> Result<(), AllocError> {
    for request in &line.requests {
        tell_request(said, request)?;
    }
    line.requests.clear();
    Ok(())
}

fn tell_request(said: &mut String, request: &Request) -> Result<(), AllocError> {
    match request {
        Request::Line => said.push_str("<line> "),
        Request::Message(..) => said.push_str("<message> "),
        Request::Prompt(prompt) => tell_prompt(said, prompt.as_str()),
        Request::DoingInsert => said.push_str("<insert> "),
        Request::DoneInserting => said.push_str("<done> "),
    }
}

// The prompt of a count by only the count, any other in full.
fn tell_prompt(said: &mut String, prompt: &str) -> Result<(), AllocError> {
    match count_in(prompt) {
        Some(n) => write!(said, "<{n}> "),
        None => write!(said, "<{prompt:?}> "),
    }
}

fn count_in(prompt: &str) -> Option<&str> {
    prompt.strip_prefix("(arg: ")?.strip_suffix(") ")
}

/// More characters than a count can name.
pub(crate) fn long_text(alloc: Global) -> Result<String, AllocError> {
    "x".repeat(alloc, 70_000)
}
