//! The highlighter of `--extended` and of a standard editor: brackets, hints and messages.
ghost use Rattle.std.specs.Prelude.{◌≡◌, ⊤, None};
ghost use Rattle.line_help.specs.Highlights.{part_with_match, kept_bracket};
ghost use Rattle.line_help.specs.Paints.{standard_marks, IsNextSpan, first_bytes, hint_style, message_style};

use crate::helpers::bracket_highlighter::MatchingBracketHighlighter;
use crate::helpers::highlight::Highlighter;
use crate::helpers::style::{Colour, Hue, Mark, Part, Span, Style};
use crate::history::rows::row_len;
use line_config::{CompletionType, HookFault};
use line_keys::CmdKind;
use std::alloc::Global;
use std::borrow::CowStr;

/// Draws hints faint, the first row of a message red, and the bracket that matches the one at the
/// cursor bold and blue. Prompts stay plain.
#[derive(Clone, Copy, Debug)]
pub struct StandardHighlighter {
    brackets: MatchingBracketHighlighter,
}

impl StandardHighlighter {
    /// A highlighter without a kept bracket.
    pub fn new() -> Self
        ensures { result ≡ record { brackets = None } }
    {
        StandardHighlighter {
            brackets: MatchingBracketHighlighter::new(),
        }
    }
}

impl Default for StandardHighlighter {
    ghost is_default = { λ h. h ≡ record { brackets = None } };

    fn default() -> Self {
        StandardHighlighter::new()
    }
}

impl Highlighter for StandardHighlighter {
    ghost marks = { λ self. standard_marks };

    ghost kept = { λ before after. ⊤ };

    ghost shown_as = { λ self. part_with_match self.brackets };

    ghost shown_after = { λ self line pos kind. part_with_match (kept_bracket line pos kind) };

    fn highlight<'l>(
        &self,
        alloc: Global,
        line: &'l str,
        pos: usize,
    ) -> Result<CowStr<'l>, HookFault> {
        self.brackets.highlight(alloc, line, pos)
    }

    fn highlight_prompt<'p>(
        &self,
        alloc: Global,
        prompt: &'p str,
        default: bool,
    ) -> Result<CowStr<'p>, HookFault> {
        self.brackets.highlight_prompt(alloc, prompt, default)
    }

    fn highlight_hint<'h>(&self, alloc: Global, hint: &'h str) -> Result<CowStr<'h>, HookFault> {
        self.brackets.highlight_hint(alloc, hint)
    }

    fn highlight_candidate<'c>(
        &self,
        alloc: Global,
        candidate: &'c str,
        completion: CompletionType,
    ) -> Result<CowStr<'c>, HookFault> {
        self.brackets
            .highlight_candidate(alloc, candidate, completion)
    }

    fn highlight_char(&mut self, line: &str, pos: usize, kind: CmdKind) -> bool {
        self.brackets.highlight_char(line, pos, kind)
    }

    /// A hint has one span, and so has a message up to its first newline. A message that begins
    /// with a newline, as a list of candidates does, has none.
    fn next_span(&self, part: Part, text: &str, from: Mark) -> Option<(Span, Mark)> {
        match part {
            Part::Line(_) => self.brackets.next_span(part, text, from),
            Part::Hint => first_bytes(hint_style(), text.len(), from),
            Part::Message => first_bytes(message_style(), row_len(text.as_bytes()), from),
            Part::Prompt(_) => None,
        }
    }
}

/// One span over the first bytes of a text, if there are any.
fn first_bytes(style: Style, len: usize, from: Mark) -> Option<(Span, Mark)>
    ensures { IsNextSpan (first_bytes style len) from result }
{
    if from.state != 0 || len == 0 {
        return None;
    }
    let behind = Mark { at: len, state: 1 };
    Some((Span { len, style }, behind))
}

/// Faint.
fn hint_style() -> Style
    ensures { result ≡ hint_style }
{
    Style {
        faint: true,
        ..Style::plain()
    }
}

/// Red.
fn message_style() -> Style
    ensures { result ≡ message_style }
{
    Style {
        text: Colour::Basic(Hue::Red),
        ..Style::plain()
    }
}
