//! Draws the statement that is typed in colours.

ghost use Rattle.std.specs.Prelude.{◌≡◌, ◌==◌, length, not};
ghost use Rattle.line_keys.specs.Replies.{gives_at_once};
ghost use Rattle.sql_console.specs.Tokens.{statement_paints};

use crate::tokens::next_token;
use keyline::{
    CmdKind, CompletionType, Highlighter, HookFault, Mark, Part, Span, StandardHighlighter,
};
use std::alloc::Global;
use std::borrow::CowStr;

/// Draws each token of a statement in its style, hints faint, and messages red.
#[derive(Clone, Copy, Debug, Drop)]
pub(crate) struct StatementHighlighter;

#[tactic(auto, using(line_help::proofs::HighlightLemmas::plain))]
impl Highlighter for StatementHighlighter {
    ghost marks = { λ self. record {
      marked = λ line pos kind. not (length line == 0);
      paints = statement_paints;
    } };

    ghost kept = { λ before after. before ≡ after };

    ghost shown_as = { λ self part text. gives_at_once text };

    ghost shown_after = { λ self line pos kind part text. gives_at_once text };

    fn highlight<'l>(
        &self,
        _alloc: Global,
        line: &'l str,
        _pos: usize,
    ) -> Result<CowStr<'l>, HookFault> {
        Ok(CowStr::Borrowed(line))
    }

    fn highlight_prompt<'p>(
        &self,
        _alloc: Global,
        prompt: &'p str,
        _default: bool,
    ) -> Result<CowStr<'p>, HookFault> {
        Ok(CowStr::Borrowed(prompt))
    }

    fn highlight_hint<'h>(&self, _alloc: Global, hint: &'h str) -> Result<CowStr<'h>, HookFault> {
        Ok(CowStr::Borrowed(hint))
    }

    fn highlight_candidate<'c>(
        &self,
        _alloc: Global,
        candidate: &'c str,
        _completion: CompletionType,
    ) -> Result<CowStr<'c>, HookFault> {
        Ok(CowStr::Borrowed(candidate))
    }

    /// Whether the line has a token to draw.
    fn highlight_char(&mut self, line: &str, _pos: usize, _kind: CmdKind) -> bool {
        !line.is_empty()
    }

    fn next_span(&self, part: Part, text: &str, from: Mark) -> Option<(Span, Mark)> {
        match part {
            Part::Line(_) => next_token(text.as_bytes(), from),
            Part::Prompt(_) | Part::Hint | Part::Message => {
                StandardHighlighter::new().next_span(part, text, from)
            }
        }
    }
}
