//! Repeats commands, as Vi's `.` does.

ghost use Rattle.std.specs.Prelude.{◌≡◌, length, min, unwrap_or, None, []};
ghost use Rattle.line_keys.specs.declared.command.Cmd.TheVariants.{Noop, Replace, SelfInsert};
ghost use Rattle.line_keys.specs.Commands.{Copied, anew, command_anew, range_anew};

use crate::command::{Cmd, recounted};
use crate::refresh::Refresher;
use crate::texts::Text;
use line_buffer::{Movement, RepeatCount};
use line_config::ReadlineError;
use std::alloc::Global;

impl Cmd {
    /// The command as it is repeated, with another count if one is given; the command itself if it
    /// can't be repeated.
    pub(crate) fn made_anew<W: Refresher>(
        self,
        alloc: Global,
        wrt: &W,
        new: Option<RepeatCount>,
    ) -> Result<Self, ReadlineError>
        ensures { Copied (anew self new (W.display.shown wrt.now) self) result }
    {
        if self.is_repeatable() {
            self.redo(alloc, new, wrt)
        } else {
            Ok(self)
        }
    }

    /// The command as it is repeated, with another count if one is given; `Noop` if it can't be
    /// repeated.
    pub(crate) fn repeated<W: Refresher>(
        &self,
        alloc: Global,
        wrt: &W,
        new: Option<RepeatCount>,
    ) -> Result<Self, ReadlineError>
        ensures { Copied (anew Noop new (W.display.shown wrt.now) self.now) result }
    {
        if self.is_repeatable() {
            self.redo(alloc, new, wrt)
        } else {
            Ok(Cmd::Noop)
        }
    }

    /// The command as it is repeated, with another count if one is given.
    ///
    /// Typed characters are repeated as the text that was inserted last. A replacement whose text
    /// wasn't known gets that text; if it covered no characters, it covers as many as the text has
    /// bytes, at most 65,535. Other commands stay as they are. Only the text of the result takes
    /// memory.
    pub fn redo<W: Refresher>(
        &self,
        alloc: Global,
        new: Option<RepeatCount>,
        wrt: &W,
    ) -> Result<Self, ReadlineError>
        ensures { let last = (W.display.shown wrt.now).last_insert in
            Copied (command_anew new last self.now) result }
    {
        let anew = match self {
            Cmd::Dedent(movement) => Cmd::Dedent(recounted(movement, new)),
            Cmd::Indent(movement) => Cmd::Indent(recounted(movement, new)),
            Cmd::Insert(n, text) => Cmd::Insert(new.unwrap_or(*n), text.try_clone(alloc)?),
            Cmd::Kill(movement) => Cmd::Kill(recounted(movement, new)),
            Cmd::Move(movement) => Cmd::Move(recounted(movement, new)),
            Cmd::ReplaceChar(n, c) => Cmd::ReplaceChar(new.unwrap_or(*n), *c),
            Cmd::Replace(movement, Some(text)) => {
                Cmd::Replace(recounted(movement, new), Some(text.try_clone(alloc)?))
            }
            Cmd::Replace(movement, None) => typed_over(movement, new, wrt.last_insert()?),
            Cmd::SelfInsert(n, c) => typed(new.unwrap_or(*n), *c, wrt.last_insert()?),
            Cmd::ViYankTo(movement) => Cmd::ViYankTo(recounted(movement, new)),
            Cmd::Yank(n, anchor) => Cmd::Yank(new.unwrap_or(*n), *anchor),
            other => other.try_clone(alloc)?,
        };
        Ok(anew)
    }
}

/// The typed character, with the text typed after it.
fn typed(n: RepeatCount, c: char, last: Option<Text>) -> Cmd
    ensures { result ≡ command_anew None last (SelfInsert n c) }
{
    match last {
        Some(text) => Cmd::Insert(n, text),
        None => Cmd::SelfInsert(n, c),
    }
}

/// A replacement by the text that was typed over it.
fn typed_over(movement: &Movement, new: Option<RepeatCount>, last: Option<Text>) -> Cmd
    ensures { result ≡ Replace (range_anew new last movement.now) last }
{
    let covered = match movement {
        Movement::ForwardChar(0) => Movement::ForwardChar(bytes_in(&last)),
        other => recounted(other, new),
    };
    Cmd::Replace(covered, last)
}

/// The number of bytes of the text, at most the greatest count.
fn bytes_in(last: &Option<Text>) -> RepeatCount
    ensures { result ≡ min (length (unwrap_or last.now [])) 65535 }
{
    match last {
        Some(text) => text.as_str().len().min(65535) as RepeatCount,
        None => 0,
    }
}
