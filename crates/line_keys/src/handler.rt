//! What bindings do.

ghost use Rattle.std.specs.Prelude.{◌≡◌, option_copied};
ghost use Rattle.line_keys.specs.CustomBindings.{Meaning};
ghost use Rattle.line_keys.specs.Replies.{Replies, itself};

use crate::command::{Cmd, InputMode};
use crate::events::Event;
use crate::refresh::Refresher;
use line_buffer::RepeatCount;
use line_config::{EditMode, HookFault, ReadlineError};
use std::alloc::Global;

/// The state of the editor that a handler can read.
#[derive(Clone, Copy)]
pub struct EventContext<'r> {
    mode: EditMode,
    input_mode: InputMode,
    has_hint: bool,
    hint_text: Option<&'r str>,
    line: &'r str,
    pos: usize,
}

impl<'r> EventContext<'r> {
    ghost use Rattle.line_keys.specs.CustomBindings.{handler_view_in, handler_view_of};

    /// The state of a line, in these modes.
    pub fn new<W: Refresher>(mode: EditMode, input_mode: InputMode, wrt: &'r W) -> Self
        ensures { handler_view_in result ≡ handler_view_of mode input_mode
            (W.display.shown wrt.now) }
    {
        EventContext {
            mode,
            input_mode,
            has_hint: wrt.has_hint(),
            hint_text: wrt.hint_text(),
            line: wrt.line(),
            pos: wrt.pos(),
        }
    }

    /// The keymap.
    pub fn mode(&self) -> EditMode
        ensures { result ≡ self.now.mode }
    {
        self.mode
    }

    /// Vi's mode; meaningless in Emacs mode.
    pub fn input_mode(&self) -> InputMode
        ensures { result ≡ self.now.input_mode }
    {
        self.input_mode
    }

    /// Whether a hint is shown after the line.
    pub fn has_hint(&self) -> bool
        ensures { result ≡ self.now.has_hint }
    {
        self.has_hint
    }

    /// The text that the hint would add to the line, if it would add any.
    pub fn hint_text(&self) -> Option<&str>
        ensures { option_copied result ≡ option_copied self.now.hint_text }
    {
        self.hint_text
    }

    /// The line's text.
    pub fn line(&self) -> &str
        ensures { result.now ≡ self.now.line.now }
    {
        self.line
    }

    /// The cursor's place, in bytes.
    pub fn pos(&self) -> usize
        ensures { result ≡ self.now.pos }
    {
        self.pos
    }
}

/// A binding whose command depends on the editor's state.
pub trait ConditionalEventHandler: Drop {
    ghost use Rattle.line_keys.specs.CustomBindings.{handler_arguments};

    ghost meaning: { Self → Meaning };

    /// The command for the event `evt`, or `None` for the key's unbound meaning. `n` is the typed
    /// count: 1 if none was typed, and 0 for a key in Vi's insert mode. `positive` is its sign.
    ///
    /// The answer depends only on the arguments, and so does a failure. It may run out of memory
    /// only if its meaning takes memory.
    fn handle(
        &self,
        alloc: Global,
        evt: &Event,
        n: RepeatCount,
        positive: bool,
        ctx: &EventContext<'_>,
    ) -> Result<Option<Cmd>, HookFault>
        ensures { Replies (meaning self.now (handler_arguments evt.now n positive ctx.now)) itself
            result };
}

/// The binding of an event.
#[derive(Drop)]
pub enum EventHandler {
    /// Always this command.
    Simple(Cmd),
    /// The command depends on the editor's state.
    Conditional(Box<dyn ConditionalEventHandler>),
}

/// A type that decides on a command: an `EventHandler`, or a stand-in for one.
pub trait Decides: Drop {
    ghost use Rattle.line_keys.specs.CustomBindings.{BindingAnswers as Decision, handler_arguments};

    ghost decides: { Self → Meaning };

    /// The command for the event `evt`, or `None` for the key's unbound meaning: the handler's
    /// answer to its arguments. The handler's failure is the error `Handler`.
    fn decide(
        &self,
        alloc: Global,
        evt: &Event,
        n: RepeatCount,
        positive: bool,
        ctx: &EventContext<'_>,
    ) -> Result<Option<Cmd>, ReadlineError>
        ensures { Decision (decides self.now (handler_arguments evt.now n positive ctx.now))
            result };
}

impl Decides for EventHandler {
    ghost use Rattle.line_keys.specs.CustomBindings.{handler_meaning};

    ghost decides = { handler_meaning (λ b. (ConditionalEventHandler-box b).meaning b.value) };

    fn decide(
        &self,
        alloc: Global,
        evt: &Event,
        n: RepeatCount,
        positive: bool,
        ctx: &EventContext<'_>,
    ) -> Result<Option<Cmd>, ReadlineError> {
        match self {
            EventHandler::Simple(cmd) => Ok(Some(cmd.try_clone(alloc)?)),
            EventHandler::Conditional(handler) => {
                match handler.handle(alloc, evt, n, positive, ctx) {
                    Ok(cmd) => Ok(cmd),
                    Err(HookFault::Failed) => Err(ReadlineError::Handler),
                    Err(HookFault::Memory) => Err(ReadlineError::Memory),
                }
            }
        }
    }
}

impl From<Cmd> for EventHandler {
    ghost use Rattle.line_keys.specs.declared.handler.EventHandler.TheVariants.{Simple};

    ghost from_gives = { λ cmd h. h ≡ Simple cmd };

    fn from(cmd: Cmd) -> Self {
        EventHandler::Simple(cmd)
    }
}
