//! A helper made of parts, one for each task.
ghost use Rattle.std.specs.Prelude.{◌≡◌, ℕ, List};
ghost use Rattle.std.proofs.Common.{ap};

use crate::completion::Completer;
use crate::helpers::context::Context;
use crate::helpers::helper::Helper;
use crate::helpers::highlight::Highlighter;
use crate::helpers::hint::Hinter;
use crate::helpers::style::{Mark, Part, Span};
use crate::helpers::validate::{ValidationContext, ValidationResult, Validator};
use crate::history::History;
use line_buffer::{ChangeListener, LineBuffer};
use line_config::{CompletionType, HookFault};
use line_keys::CmdKind;
use std::alloc::Global;
use std::borrow::CowStr;

/// A helper with a part for each task; `()` for a task without a part.
#[derive(Debug, Drop)]
pub struct HelperParts<C, I, L, V> {
    /// Completes words.
    pub completer: C,
    /// Gives hints.
    pub hinter: I,
    /// Highlights texts.
    pub highlighter: L,
    /// Validates lines.
    pub validator: V,
}

impl<C: Completer, I, L, V> Completer for HelperParts<C, I, L, V> {
    type Candidate = C::Candidate;

    ghost completion_of = { λ parts. C.completion_of parts.completer };

    ghost update_of = { λ parts. C.update_of parts.completer };

    fn complete<Hi: History>(
        &self,
        alloc: Global,
        line: &str,
        pos: usize,
        ctx: &Context<'_, Hi>,
    ) -> Result<(usize, Vec<C::Candidate>), HookFault> {
        self.completer.complete(alloc, line, pos, ctx)
    }

    fn update<Li: ChangeListener>(
        &self,
        alloc: Global,
        line: &mut LineBuffer,
        start: usize,
        elected: &str,
        cl: &mut Li,
    ) -> Result<(), HookFault> {
        self.completer.update(alloc, line, start, elected, cl)
    }
}

impl<C, I: Hinter, L, V> Hinter for HelperParts<C, I, L, V> {
    type Hint = I::Hint;

    ghost hint_of = { λ parts. I.hint_of parts.hinter };

    fn hint<Hi: History>(
        &self,
        alloc: Global,
        line: &str,
        pos: usize,
        ctx: &Context<'_, Hi>,
    ) -> Result<Option<I::Hint>, HookFault> {
        self.hinter.hint(alloc, line, pos, ctx)
    }
}

impl<C, I, L: Highlighter, V> Highlighter for HelperParts<C, I, L, V> {
    ghost marks = { λ parts. L.marks parts.highlighter };

    // only the highlighter may change
    ghost kept = { λ before after. (after.completer ≡ before.completer)
        × (after.hinter ≡ before.hinter) × (after.validator ≡ before.validator)
        × L.kept before.highlighter after.highlighter };

    ghost shown_as = { λ parts. L.shown_as parts.highlighter };

    ghost shown_after = { λ parts. L.shown_after parts.highlighter };

    fn highlight<'l>(
        &self,
        alloc: Global,
        line: &'l str,
        pos: usize,
    ) -> Result<CowStr<'l>, HookFault> {
        self.highlighter.highlight(alloc, line, pos)
    }

    fn highlight_prompt<'p>(
        &self,
        alloc: Global,
        prompt: &'p str,
        default: bool,
    ) -> Result<CowStr<'p>, HookFault> {
        self.highlighter.highlight_prompt(alloc, prompt, default)
    }

    fn highlight_hint<'h>(&self, alloc: Global, hint: &'h str) -> Result<CowStr<'h>, HookFault> {
        self.highlighter.highlight_hint(alloc, hint)
    }

    fn highlight_candidate<'c>(
        &self,
        alloc: Global,
        candidate: &'c str,
        completion: CompletionType,
    ) -> Result<CowStr<'c>, HookFault> {
        self.highlighter
            .highlight_candidate(alloc, candidate, completion)
    }

    fn highlight_char(&mut self, line: &str, pos: usize, kind: CmdKind) -> bool {
        self.highlighter.highlight_char(line, pos, kind)
    }

    fn next_span(&self, part: Part, text: &str, from: Mark) -> Option<(Span, Mark)> {
        self.highlighter.next_span(part, text, from)
    }
}

impl<C, I, L, V: Validator> Validator for HelperParts<C, I, L, V> {
    ghost verdict_of = { λ parts. V.verdict_of parts.validator };

    ghost while_typing = { λ parts. V.while_typing parts.validator };

    fn validate(
        &self,
        alloc: Global,
        ctx: &ValidationContext<'_>,
    ) -> Result<ValidationResult, HookFault> {
        self.validator.validate(alloc, ctx)
    }

    fn validate_while_typing(&self) -> bool {
        self.validator.validate_while_typing()
    }
}

impl<C: Completer, I: Hinter, L: Highlighter, V: Validator> Helper for HelperParts<C, I, L, V> {
    ghost same_completions = { λ before after kept. ap C.completion_of kept.0 };

    ghost same_updates = { λ before after kept. ap C.update_of kept.0 };

    ghost same_hints = { λ before after kept. ap I.hint_of kept.1 };

    ghost same_verdicts = { λ before after kept. ap V.verdict_of kept.2 };
}
