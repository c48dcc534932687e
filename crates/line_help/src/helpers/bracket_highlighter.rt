//! Highlights the bracket that matches the one at the cursor.
ghost use Rattle.std.specs.Prelude.{◌≡◌, ◌<◌, ⊤, IfOk, IfSome, is_some, string_bytes, slice_get, Some, None};
ghost use Rattle.line_help.specs.declared.helpers.style.Part.TheVariants.{Line};
ghost use Rattle.line_help.specs.Paints.{paints_match, IsNextSpan, match_style, match_place};
ghost use Rattle.line_help.specs.Highlights.{kept_bracket, match_to_show, part_with_match, with_bold_byte};

use crate::helpers::brackets::{check_bracket, find_matching_bracket};
use crate::helpers::highlight::Highlighter;
use crate::helpers::style::{Colour, Hue, Mark, Part, Span, Style};
use line_config::{CompletionType, HookFault};
use line_keys::CmdKind;
use std::alloc::{AllocError, Global};
use std::borrow::CowStr;
use std::marker::Model;

/// Bold and blue. It is copied as a whole, which costs less than making it field by field.
const MATCH: &Style = &Style {
    text: Colour::Basic(Hue::Blue),
    background: Colour::Terminal,
    bold: true,
    faint: false,
    italic: false,
    underline: false,
    reverse: false,
};

/// Shows the bracket that matches the one at the cursor in bold and blue. It keeps the bracket at
/// the cursor from `highlight_char` to the next drawing.
#[derive(Clone, Copy, Debug)]
pub struct MatchingBracketHighlighter {
    bracket: Option<(u8, usize)>,
}

impl Model for MatchingBracketHighlighter {
    ghost use Rattle.std.specs.Prelude.{ℕ, Option};

    ghost Value = { Option (ℕ × ℕ) };

    ghost view = { λ h. h.bracket };

    ghost inverse = { λ found. record { bracket = found } };
}

impl MatchingBracketHighlighter {
    /// A highlighter without a kept bracket.
    pub fn new() -> Self
        ensures { result ≡ None }
    {
        MatchingBracketHighlighter { bracket: None }
    }

    /// The matching bracket to show, and its place.
    fn match_in(&self, line: &str) -> Option<(u8, usize)>
        ensures found { result ≡ match_to_show line.now self.now }
        ensures stands { IfSome result (λ found. slice_get line.now found.1 ≡ Some found.0) }
        ensures ascii { IfSome result (λ found. found.0 < 128) }
    {
        let (bracket, pos) = self.bracket?;
        if line.len() < 2 || pos >= line.len() {
            return None;
        }
        find_matching_bracket(line, pos, bracket)
    }
}

impl Default for MatchingBracketHighlighter {
    ghost is_default = { λ h. h ≡ None };

    fn default() -> Self {
        MatchingBracketHighlighter::new()
    }
}

#[tactic(auto, using(crate::proofs::HighlightLemmas::plain))]
impl Highlighter for MatchingBracketHighlighter {
    ghost marks = { λ self. record {
      marked = λ line pos kind. is_some (kept_bracket line pos kind);
      paints = paints_match;
    } };

    ghost kept = { λ before after. ⊤ };

    ghost shown_as = { part_with_match };

    ghost shown_after = { λ self line pos kind. part_with_match (kept_bracket line pos kind) };

    /// The line with the match of the kept bracket in bold and blue, if there is one.
    fn highlight<'l>(
        &self,
        alloc: Global,
        line: &'l str,
        _pos: usize,
    ) -> Result<CowStr<'l>, HookFault> {
        match self.match_in(line) {
            None => Ok(CowStr::Borrowed(line)),
            Some((matching, place)) => {
                let shown = with_bold(alloc, line, matching, place)?;
                Ok(CowStr::Owned(shown))
            }
        }
    }

    fn highlight_prompt<'p>(
        &self,
        _alloc: Global,
        prompt: &'p str,
        _default: bool,
    ) -> Result<CowStr<'p>, HookFault> {
        Ok(CowStr::Borrowed(prompt))
    }

    fn highlight_hint<'h>(&self, _alloc: Global, hint: &'h str) -> Result<CowStr<'h>, HookFault> {
        Ok(CowStr::Borrowed(hint))
    }

    fn highlight_candidate<'c>(
        &self,
        _alloc: Global,
        candidate: &'c str,
        _completion: CompletionType,
    ) -> Result<CowStr<'c>, HookFault> {
        Ok(CowStr::Borrowed(candidate))
    }

    /// Keeps the bracket whose match is to be shown, and returns whether there is one. The last
    /// drawing of a line shows none.
    fn highlight_char(&mut self, line: &str, pos: usize, kind: CmdKind) -> bool
        ensures bracket { self.new ≡ kept_bracket line.now pos kind }
        ensures marks { result ≡ is_some (kept_bracket line.now pos kind) }
    {
        self.bracket = match kind {
            CmdKind::ForcedRefresh => None,
            CmdKind::MoveCursor | CmdKind::Other => check_bracket(line, pos),
        };
        self.bracket.is_some()
    }

    /// Up to the match of the bracket at the cursor a span is plain, and the match is bold and
    /// blue. A kept bracket changes no span.
    fn next_span(&self, part: Part, text: &str, from: Mark) -> Option<(Span, Mark)> {
        match part {
            Part::Line(pos) => match_span(text, pos, from),
            Part::Prompt(_) | Part::Hint | Part::Message => None,
        }
    }
}

/// The place of the match of the bracket at the cursor.
fn match_place(text: &str, pos: usize) -> Option<usize>
    ensures { result ≡ match_place text.now pos }
{
    let kept = MatchingBracketHighlighter {
        bracket: check_bracket(text, pos),
    };
    let (_, place) = kept.match_in(text)?;
    Some(place)
}

/// The next span of a line: the text before the match, or the match.
fn match_span(text: &str, pos: usize, from: Mark) -> Option<(Span, Mark)>
    ensures { IsNextSpan (paints_match (Line pos) text.now) from result }
{
    match from.state {
        0 => match match_place(text, pos) {
            Some(place) => Some((
                Span {
                    len: place,
                    style: Style::plain(),
                },
                Mark {
                    at: place,
                    state: 1,
                },
            )),
            None => None,
        },
        1 => Some((
            Span {
                len: 1,
                style: match_style(),
            },
            Mark {
                at: from.at.saturating_add(1),
                state: 2,
            },
        )),
        _ => None,
    }
}

/// Bold and blue.
fn match_style() -> Style
    ensures { result ≡ match_style }
{
    *MATCH
}

/// The line with the byte `bracket` at a place in bold and blue.
#[tactic(auto, using(crate::proofs::HighlightLemmas::bold))]
fn with_bold(alloc: Global, line: &str, bracket: u8, place: usize) -> Result<String, AllocError>
    requires stands { slice_get line.now place ≡ Some bracket }
    requires ascii { bracket < 128 }
    ensures { IfOk result (λ shown. string_bytes shown
        ≡ with_bold_byte line.now (Some (bracket, place))) }
{
    let mut shown = String::from_str(alloc, &line[..place])?;
    shown.push_str("\x1b[1;34m")?;
    shown.push(bracket as char)?;
    shown.push_str("\x1b[0m")?;
    shown.push_str(&line[place + 1..])?;
    Ok(shown)
}
