//! Hints: texts shown after a line.
ghost use Rattle.std.specs.Prelude.{◌≡◌, ◌≤◌, ℕ, List, Option, Some, None, option_map, option_copied, length};
ghost use Rattle.line_help.specs.Hints.{Hinted, text_hint, hint_of_history};
ghost use Rattle.line_keys.specs.Replies.{Reply, Replies, gives_at_once};

use crate::helpers::context::Context;
use crate::history::History;
use crate::history::search::SearchDirection;
use line_config::HookFault;
use std::alloc::Global;
use std::convert::AsStr;

/// A hint.
pub trait Hint: Drop {
    // Its two texts.
    ghost says: { Self → Hinted };

    /// The text to show.
    fn display(&self) -> &str
        ensures { result.now ≡ (says self.now).display };

    /// The text to insert into the line when the hint is accepted; `None` if the hint can't be
    /// accepted.
    fn completion(&self) -> Option<&str>
        ensures { option_copied result ≡ (says self.now).completion };
}

impl<T: AsStr + Drop> Hint for T {
    ghost says = { λ text. text_hint (T.text text) };

    fn display(&self) -> &str {
        self.as_str()
    }

    fn completion(&self) -> Option<&str> {
        Some(self.as_str())
    }
}

/// A source of hints.
pub trait Hinter {
    /// The type of its hints.
    type Hint: Hint;

    // Its reply, depending on the line, the place, the history's entries and the place in the
    // history.
    ghost hint_of: { Self → List ℕ → ℕ → List (List ℕ) → ℕ → Reply (Option Hinted) };

    /// The hint for a line with the cursor at `pos`, in bytes. It depends only on the line, the
    /// place, the history's entries and the place in the history.
    fn hint<Hi: History>(
        &self,
        alloc: Global,
        line: &str,
        pos: usize,
        ctx: &Context<'_, Hi>,
    ) -> Result<Option<Self::Hint>, HookFault>
        requires { pos ≤ length line.now }
        ensures { Replies (hint_of self.now line.now pos (Hi.entries ctx.now.history.now)
            ctx.now.place) (option_map Self.Hint.says) result };
}

/// No hints.
impl Hinter for () {
    type Hint = String;

    ghost hint_of = { λ self line pos entries place. gives_at_once None };

    fn hint<Hi: History>(
        &self,
        _alloc: Global,
        _line: &str,
        _pos: usize,
        _ctx: &Context<'_, Hi>,
    ) -> Result<Option<String>, HookFault> {
        Ok(None)
    }
}

/// Hints from the history: the rest of the nearest entry that begins with the line, at or before
/// the place in the history. There is a hint only if the cursor is at the end of a line that isn't
/// empty, and the nearest entry is longer than the line.
#[derive(Clone, Copy, Debug, Default)]
pub struct HistoryHinter;

impl HistoryHinter {
    /// A hinter. It has no state.
    pub fn new() -> Self
        ensures { result ≡ record {} }
    {
        HistoryHinter
    }
}

impl Hinter for HistoryHinter {
    type Hint = String;

    ghost hint_of = { λ self. hint_of_history };

    fn hint<Hi: History>(
        &self,
        alloc: Global,
        line: &str,
        pos: usize,
        ctx: &Context<'_, Hi>,
    ) -> Result<Option<String>, HookFault> {
        if line.is_empty() || pos != line.len() {
            return Ok(None);
        }
        let place = ctx.history_index();
        let start = if place == ctx.history().len() {
            place.saturating_sub(1)
        } else {
            place
        };
        match ctx
            .history()
            .starts_with(line, start, SearchDirection::Reverse)
        {
            Some(found) if found.entry != line => match found.entry.strip_prefix(line) {
                Some(rest) => Ok(Some(String::from_str(alloc, rest)?)),
                None => Ok(None),
            },
            _ => Ok(None),
        }
    }
}
