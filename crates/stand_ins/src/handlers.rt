//! Handlers of keys.

ghost use Rattle.std.specs.Prelude.{◌≡◌};

use line_buffer::{Movement, RepeatCount};
use line_config::HookFault;
use line_keys::{Cmd, ConditionalEventHandler, Event, EventContext};
use std::alloc::Global;

/// Always answers in the same way.
#[derive(Drop)]
pub enum OneWay {
    /// The count that it is shown: `Undo` of it, or `TransposeWords` if it is negative.
    Count,
    /// No command.
    Nothing,
    /// A failure.
    Fails,
    /// Out of memory.
    WantsMemory,
}

impl ConditionalEventHandler for OneWay {
    ghost use Rattle.stand_ins.specs.Handlers.{one_way};

    ghost meaning = { one_way };

    fn handle(
        &self,
        _: Global,
        _: &Event,
        n: RepeatCount,
        positive: bool,
        _: &EventContext<'_>,
    ) -> Result<Option<Cmd>, HookFault> {
        match self {
            OneWay::Count if positive => Ok(Some(Cmd::Undo(n))),
            OneWay::Count => Ok(Some(Cmd::TransposeWords(n))),
            OneWay::Nothing => Ok(None),
            OneWay::Fails => Err(HookFault::Failed),
            OneWay::WantsMemory => Err(HookFault::Memory),
        }
    }
}

/// Accepts the hint at the end of the line, elsewhere kills the rest, and fails in an empty line.
#[derive(Drop)]
pub struct HintOrKill {
    /// Answers nothing if the count is greater.
    pub most: RepeatCount,
}

impl ConditionalEventHandler for HintOrKill {
    ghost use Rattle.stand_ins.specs.Handlers.{hint_or_kill};

    ghost meaning = { λ h. hint_or_kill h.most };

    fn handle(
        &self,
        _: Global,
        _: &Event,
        n: RepeatCount,
        positive: bool,
        ctx: &EventContext<'_>,
    ) -> Result<Option<Cmd>, HookFault> {
        if ctx.line().is_empty() {
            return Err(HookFault::Failed);
        }
        if n > self.most {
            return Ok(None);
        }
        if ctx.has_hint() && ctx.pos() == ctx.line().len() {
            return Ok(Some(Cmd::CompleteHint));
        }
        let movement = if positive {
            Movement::ForwardChar(n)
        } else {
            Movement::BackwardChar(n)
        };
        Ok(Some(Cmd::Kill(movement)))
    }
}
