//! A highlighter with the styles of a prompt.
ghost use Rattle.std.specs.Prelude.{◌≡◌, drop};
ghost use Rattle.line_help.specs.Paints.{IsNextSpan, prompt_marks};

use crate::helpers::highlight::Highlighter;
use crate::helpers::style::{Mark, Part, Span};
use line_config::{CompletionType, HookFault};
use line_keys::CmdKind;
use std::alloc::Global;
use std::borrow::CowStr;
use std::marker::Model;

/// Draws the line's own prompt by the spans that [`split_styles`](crate::split_styles) returned
/// with it, and everything else as another highlighter does.
#[derive(Debug, Drop)]
pub struct PromptHighlighter<'s, H> {
    spans: &'s [Span],
    others: H,
}

impl<'s, H> Model for PromptHighlighter<'s, H> {
    ghost use Rattle.line_help.specs.Paints.{Prompted};

    ghost Value = { Prompted H };

    ghost view = { λ h. record { spans = h.spans.now; others = h.others } };
}

impl<'s, H> PromptHighlighter<'s, H> {
    /// A highlighter with these spans of the prompt, and with another highlighter for the rest.
    pub fn new(spans: &'s [Span], others: H) -> Self
        ensures { result ≡ record { spans = spans.entry.now; others = others } }
    {
        PromptHighlighter { spans, others }
    }
}

/// The next of these spans: the mark's state is the number of those before it.
fn next_of(spans: &[Span], from: Mark) -> Option<(Span, Mark)>
    ensures { IsNextSpan (λ mark. drop mark.state spans.now) from result }
{
    let span = *spans.get(from.state)?;
    let behind = Mark {
        at: from.at.saturating_add(span.len),
        state: from.state + 1,
    };
    Some((span, behind))
}

impl<'s, H: Highlighter> Highlighter for PromptHighlighter<'s, H> {
    ghost marks = { λ self. prompt_marks self.spans (H.marks self.others) };

    ghost kept = { λ before after. (after.spans ≡ before.spans)
        × H.kept before.others after.others };

    ghost shown_as = { λ self. H.shown_as self.others };

    ghost shown_after = { λ self. H.shown_after self.others };

    fn highlight<'l>(
        &self,
        alloc: Global,
        line: &'l str,
        pos: usize,
    ) -> Result<CowStr<'l>, HookFault> {
        self.others.highlight(alloc, line, pos)
    }

    fn highlight_prompt<'p>(
        &self,
        alloc: Global,
        prompt: &'p str,
        default: bool,
    ) -> Result<CowStr<'p>, HookFault> {
        self.others.highlight_prompt(alloc, prompt, default)
    }

    fn highlight_hint<'h>(&self, alloc: Global, hint: &'h str) -> Result<CowStr<'h>, HookFault> {
        self.others.highlight_hint(alloc, hint)
    }

    fn highlight_candidate<'c>(
        &self,
        alloc: Global,
        candidate: &'c str,
        completion: CompletionType,
    ) -> Result<CowStr<'c>, HookFault> {
        self.others
            .highlight_candidate(alloc, candidate, completion)
    }

    fn highlight_char(&mut self, line: &str, pos: usize, kind: CmdKind) -> bool {
        self.others.highlight_char(line, pos, kind)
    }

    fn next_span(&self, part: Part, text: &str, from: Mark) -> Option<(Span, Mark)> {
        match part {
            Part::Prompt(true) => next_of(self.spans, from),
            Part::Prompt(false) | Part::Line(_) | Part::Hint | Part::Message => {
                self.others.next_span(part, text, from)
            }
        }
    }
}
