//! Styles of drawn texts: the spans that a highlighter gives, one after another. A bar marks the
//! cursor in a line.

use crate::help::style_split::push_span;
use line_help::{
    HelperParts, Highlighter, Mark, MatchingBracketHighlighter, Part, StandardHighlighter,
};
use stand_ins::rows::{Player, raised, rows_hold};
use stand_ins::tables::{line_and_place, named, word_and_rest};
use std::alloc::{AllocError, Global};
use std::test::Fail;

// A part of a drawing and its text; of each span its length in bytes and its style.
const MATCHES: &str = "
    line |(a)       = 2, 1 bold Basic(Blue)
    line (|a)       = 2, 1 bold Basic(Blue)
    line (a)|       = 0, 1 bold Basic(Blue)
    line (a|)       = 0, 1 bold Basic(Blue)
    line x|[é漢]y   = 7, 1 bold Basic(Blue)
    line é{[}]|     = 3, 1 bold Basic(Blue)
    line (␊|)       = 0, 1 bold Basic(Blue)
    line |(a        = nothing
    line a)|        = nothing
    line a|b        = nothing
    line |          = nothing
    line )|         = nothing
    line ()|+5      = 0, 1 bold Basic(Blue)
    prompt (a)      = nothing
    count (a)       = nothing
";

const NO_OTHER_PART: &str = "
    hint (a)        = nothing
    message (a)     = nothing
";

const HINTS_AND_MESSAGES: &str = "
    hint llo        = 3 faint
    hint é漢        = 5 faint
    hint a␊b        = 3 faint
    hint            = nothing
    message bad     = 3 Basic(Red)
    message é␊      = 2 Basic(Red)
    message a␊b␊c   = 1 Basic(Red)
    message ␊a␊b    = nothing
    message         = nothing
";

const NOTHING: &str = "
    line |(a)       = nothing
    hint llo        = nothing
    message bad     = nothing
    prompt >        = nothing
";

// The parts of a drawing that have no cursor.
const PARTS: [(&str, Part); 4] = [
    ("prompt", Part::Prompt(true)),
    ("count", Part::Prompt(false)),
    ("hint", Part::Hint),
    ("message", Part::Message),
];

// The spans of a text, at most four.
fn spans_told<H: Highlighter>(
    alloc: Global,
    highlighter: &H,
    part: Part,
    text: &str,
) -> Result<String, AllocError> {
    let mut told = String::new(alloc);
    let mut from = Mark::first();
    for _ in 0..4 {
        let Some((span, mark)) = highlighter.next_span(part, text, from) else {
            break;
        };
        let before = if told.is_empty() { "" } else { ", " };
        push_span(&mut told, before, &span)?;
        from = mark;
    }
    Ok(told)
}

/// A highlighter that gives the spans of each row's text.
#[derive(Drop)]
struct Painting<H> {
    highlighter: H,
}

impl<H: Highlighter> Painting<H> {
    fn answer(&self, alloc: Global, part: &str, text: &str) -> Result<String, AllocError> {
        let (text, place) = line_and_place(alloc, text)?;
        let part = named(&PARTS, part).unwrap_or(Part::Line(place));
        spans_told(alloc, &self.highlighter, part, text.as_str())
    }
}

impl<H: Highlighter> Player for Painting<H> {
    fn play(&mut self, alloc: Global, call: &str) -> Result<String, Fail> {
        let (part, text) = word_and_rest(call);
        raised(self.answer(alloc, part, text))
    }
}

pub(crate) fn paints<H: Highlighter + Drop>(
    alloc: Global,
    highlighter: H,
    tables: &[&str],
) -> Result<(), Fail> {
    let mut painting = Painting { highlighter };
    for table in tables {
        rows_hold(alloc, &mut painting, table)?;
    }
    Ok(())
}

fn parts_of<L>(highlighter: L) -> HelperParts<(), (), L, ()> {
    HelperParts {
        completer: (),
        hinter: (),
        highlighter,
        validator: (),
    }
}

#[test]
fn spans_of_highlighters(rt: HostRuntime) -> Result<(), Fail> {
    let brackets = MatchingBracketHighlighter::new();
    paints(rt.alloc(), brackets, &[MATCHES, NO_OTHER_PART])?;
    let standard = StandardHighlighter::default();
    paints(rt.alloc(), standard, &[MATCHES, HINTS_AND_MESSAGES])?;
    paints(rt.alloc(), (), &[NOTHING])?;
    let parts = parts_of(StandardHighlighter::new());
    paints(
        rt.alloc(),
        Box::new(rt.alloc(), parts)?,
        &[MATCHES, HINTS_AND_MESSAGES],
    )?;
    paints(rt.alloc(), parts_of(()), &[NOTHING])
}
