//! Highlighting: lines, prompts, hints and candidates with styles.
ghost use Rattle.std.specs.Prelude.{◌≡◌, ℕ, List, [], box_value};
ghost use Rattle.std.specs.Cow.{cow_str_bytes};
ghost use Rattle.line_keys.specs.declared.command.CmdKind.{CmdKind};
ghost use Rattle.line_help.specs.Highlights.{DisplayPart, Highlights};
ghost use Rattle.line_help.specs.Highlights.DisplayPart.{OfLine, OfPrompt, OfHint, OfCandidate};
ghost use Rattle.line_help.specs.Paints.{Marks, no_marks, IsNextSpan};
ghost use Rattle.line_keys.specs.Replies.{Reply, gives_at_once};

use crate::helpers::style::{Mark, Part, Span};
use line_config::{CompletionType, HookFault};
use line_keys::CmdKind;
use std::alloc::{Allocator, Global};
use std::borrow::CowStr;

/// Highlights a line and the texts shown with it, for a display with colours.
///
/// A display with colours is drawn by `highlight_char` and `next_span`. The calls `highlight` to
/// `highlight_candidate` return a text with inserted control sequences that change how characters
/// are drawn. So it takes the same number of columns. No session makes these calls.
pub trait Highlighter {
    // Whether something in a line is highlighted, depending on the line, the place and the reason
    // for the drawing; and the spans of each text after a mark.
    ghost marks: { Self → Marks };

    // How `highlight_char` may change the highlighter.
    ghost kept: { Self → Self → Type 0 };

    // How a text is shown in a part of the display.
    ghost shown_as: { Self → DisplayPart → List ℕ → Reply (List ℕ) };

    // The same after a call of `highlight_char` about this line, place and reason.
    ghost shown_after: { Self → List ℕ → ℕ → CmdKind → DisplayPart → List ℕ → Reply (List ℕ) };

    /// The line, with the cursor at `pos`.
    fn highlight<'l>(
        &self,
        alloc: Global,
        line: &'l str,
        pos: usize,
    ) -> Result<CowStr<'l>, HookFault>
        ensures { Highlights cow_str_bytes line.now
            (shown_as self.now (OfLine pos) line.now) result };

    /// The prompt: the line's own, or another one.
    fn highlight_prompt<'p>(
        &self,
        alloc: Global,
        prompt: &'p str,
        default: bool,
    ) -> Result<CowStr<'p>, HookFault>
        ensures { Highlights cow_str_bytes prompt.now
            (shown_as self.now (OfPrompt default) prompt.now) result };

    /// The hint.
    fn highlight_hint<'h>(&self, alloc: Global, hint: &'h str) -> Result<CowStr<'h>, HookFault>
        ensures { Highlights cow_str_bytes hint.now (shown_as self.now OfHint hint.now) result };

    /// A candidate of a completion.
    fn highlight_candidate<'c>(
        &self,
        alloc: Global,
        candidate: &'c str,
        completion: CompletionType,
    ) -> Result<CowStr<'c>, HookFault>
        ensures { Highlights cow_str_bytes candidate.now
            (shown_as self.now (OfCandidate completion) candidate.now) result };

    /// Whether something is highlighted in the line to draw, with the cursor at `pos`. The answer
    /// depends only on the line, the place and the reason. No call changes later answers.
    fn highlight_char(&mut self, line: &str, pos: usize, kind: CmdKind) -> bool
        ensures marks { result ≡ (marks self.old).marked line.now pos kind }
        ensures same { marks self.new ≡ marks self.old }
        ensures shown { shown_as self.new ≡ shown_after self.old line.now pos kind }
        ensures kept { kept self.old self.new };

    /// The next span of a text in a part of a drawing, and the mark after it; `None` if the rest of
    /// the text has no style. `from` is `Mark::first()`, or the mark that came with the span
    /// before. The answer depends only on the part, the text and the mark. A line in which
    /// `highlight_char` highlights nothing is drawn without its spans.
    fn next_span(&self, part: Part, text: &str, from: Mark) -> Option<(Span, Mark)>
        ensures { IsNextSpan ((marks self.now).paints part text.now) from result };
}

/// Highlights nothing: every text stays as it is.
#[tactic(auto, using(crate::proofs::HighlightLemmas::plain))]
impl Highlighter for () {
    ghost marks = { λ self. no_marks };

    ghost kept = { λ before after. before ≡ after };

    ghost shown_as = { λ self part text. gives_at_once text };

    ghost shown_after = { λ self line pos kind part text. gives_at_once text };

    fn highlight<'l>(
        &self,
        _alloc: Global,
        line: &'l str,
        _pos: usize,
    ) -> Result<CowStr<'l>, HookFault> {
        Ok(CowStr::Borrowed(line))
    }

    fn highlight_prompt<'p>(
        &self,
        _alloc: Global,
        prompt: &'p str,
        _default: bool,
    ) -> Result<CowStr<'p>, HookFault> {
        Ok(CowStr::Borrowed(prompt))
    }

    fn highlight_hint<'h>(&self, _alloc: Global, hint: &'h str) -> Result<CowStr<'h>, HookFault> {
        Ok(CowStr::Borrowed(hint))
    }

    fn highlight_candidate<'c>(
        &self,
        _alloc: Global,
        candidate: &'c str,
        _completion: CompletionType,
    ) -> Result<CowStr<'c>, HookFault> {
        Ok(CowStr::Borrowed(candidate))
    }

    fn highlight_char(&mut self, _line: &str, _pos: usize, _kind: CmdKind) -> bool {
        false
    }

    fn next_span(&self, _part: Part, _text: &str, _from: Mark) -> Option<(Span, Mark)> {
        None
    }
}

/// Calls the highlighter inside.
impl<H: Highlighter, A: Allocator> Highlighter for Box<H, A> {
    ghost marks = { λ held. H.marks (box_value held) };

    ghost kept = { λ before after. H.kept (box_value before) (box_value after) };

    ghost shown_as = { λ held. H.shown_as (box_value held) };

    ghost shown_after = { λ held. H.shown_after (box_value held) };

    fn highlight<'l>(
        &self,
        alloc: Global,
        line: &'l str,
        pos: usize,
    ) -> Result<CowStr<'l>, HookFault> {
        (**self).highlight(alloc, line, pos)
    }

    fn highlight_prompt<'p>(
        &self,
        alloc: Global,
        prompt: &'p str,
        default: bool,
    ) -> Result<CowStr<'p>, HookFault> {
        (**self).highlight_prompt(alloc, prompt, default)
    }

    fn highlight_hint<'h>(&self, alloc: Global, hint: &'h str) -> Result<CowStr<'h>, HookFault> {
        (**self).highlight_hint(alloc, hint)
    }

    fn highlight_candidate<'c>(
        &self,
        alloc: Global,
        candidate: &'c str,
        completion: CompletionType,
    ) -> Result<CowStr<'c>, HookFault> {
        (**self).highlight_candidate(alloc, candidate, completion)
    }

    fn highlight_char(&mut self, line: &str, pos: usize, kind: CmdKind) -> bool {
        self.as_mut().highlight_char(line, pos, kind)
    }

    fn next_span(&self, part: Part, text: &str, from: Mark) -> Option<(Span, Mark)> {
        (**self).next_span(part, text, from)
    }
}
