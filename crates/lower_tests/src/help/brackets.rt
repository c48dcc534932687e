//! Brackets: their matches, the line with a match shown, and the verdicts of validation. A bar
//! marks a place in a line.

use crate::help::asks::Ask;
use line_config::{CompletionType, HookFault};
use line_help::{
    HelperParts, Highlighter, MatchingBracketHighlighter, MatchingBracketValidator,
    ValidationContext, ValidationResult, Validator, check_bracket, find_matching_bracket,
};
use line_keys::CmdKind;
use stand_ins::rows::{Player, raised, rows_hold};
use stand_ins::tables::{line_and_place, marked, meant, named, pictured, word_and_rest};
use std::alloc::{AllocError, Global};
use std::borrow::CowStr;
use std::test::Fail;

// A bracket and its line; the bracket that matches it, and where.
const MATCHES: &str = "
    ( |(...     = none
    ( |(..)     = ) (..|)
    ) ..(|)     = ( ..|()
    ) (()|)     = ( |(())
    ( |(())     = ) (()|)
    ( (|())     = ) ((|))
    ( |([)]     = ) ([|)]
    ] ([)|]     = [ (|[)]
    } {[(]|}    = { |{[(]}
    [ {}|[]     = ] {}[|]
    [ |[é漢]    = ] [é漢|]
    ) ...|)     = none
    ( )|(       = none
    ) |)(       = none
    ( |         = none
    ( ()|+5     = none
    x (|x)      = none
";

// A line and the cursor; the bracket at it or before it, and where.
const AT_THE_CURSOR: &str = "
    |)...       = none
    (.|..       = none
    ...|(       = none
    ..).|       = none
    (|...       = ( |(...
    ...)|       = ) ...|)
    |           = none
    |+3         = none
    )|          = ) |)
    |(          = none
    (|          = none
    x|)y        = ) x|)y
    x)|y        = ) x|)y
    |()         = ( |()
    (|)         = ) (|)
    a{b|+6      = none
";

// A bracket found in a line, and where.
fn place_told(alloc: Global, line: &str, found: Option<(u8, usize)>) -> Result<String, AllocError> {
    let Some((bracket, place)) = found else {
        return String::from_str(alloc, "none");
    };
    let bracket = char::from(bracket);
    let place = marked(alloc, line, place)?;
    format!(in alloc; "{bracket} {place}")
}

/// The bracket that matches a row's.
pub(crate) fn match_told(alloc: Global, call: &str) -> Result<String, AllocError> {
    let (bracket, line) = word_and_rest(call);
    let bracket = bracket.bytes().next().unwrap_or(b' ');
    let (line, place) = line_and_place(alloc, line)?;
    let found = find_matching_bracket(line.as_str(), place, bracket);
    place_told(alloc, line.as_str(), found)
}

/// The bracket at the cursor of a row's line, or before it.
pub(crate) fn bracket_at_the_cursor(alloc: Global, line: &str) -> Result<String, AllocError> {
    let (line, place) = line_and_place(alloc, line)?;
    place_told(alloc, line.as_str(), check_bracket(line.as_str(), place))
}

// The calls of a highlighter for a line, whether it marks something in it, and the line as it is
// drawn. First come brackets that were found in one line while other lines are drawn, then texts
// that stay as they are.
const HIGHLIGHTED: &str = r#"
    drawn  |()     = "()"
    told   (ab|)   = marks ""
    drawn  (|)     = "()"
    drawn  (|cd)   = "␛[1;34m(␛[0mcd)"
    denied (ab|)   = leaves ""
    drawn  (ab|)   = "(ab)"
    prompt     (>) = "(>)"
    hint_shown (>) = "(>)"
    listed     (>) = "(>)"
    move   |(a)    = marks "(a␛[1;34m)␛[0m"
    other  (a)|    = marks "␛[1;34m(␛[0ma)"
    other  x|[é]y  = marks "x[é␛[1;34m]␛[0my"
    forced |(a)    = leaves "(a)"
    move   |(a     = marks "(a"
    move   a|b     = leaves "ab"
    other  )|      = marks ")"
    other  |       = leaves ""
"#;

// A helper that highlights nothing.
const NOTHING_HIGHLIGHTED: &str = r#"
    other     |(a) = leaves "(a)"
    prompt     (>) = "(>)"
    hint_shown (>) = "(>)"
    listed     (>) = "(>)"
"#;

// How a highlighter shows a text; nothing if it only gets a line.
fn shown<'t, H: Highlighter>(
    alloc: Global,
    highlighter: &H,
    call: &str,
    text: &'t str,
    place: usize,
) -> Result<CowStr<'t>, HookFault> {
    match call {
        "told" | "denied" => Ok(CowStr::Borrowed("")),
        "prompt" => highlighter.highlight_prompt(alloc, text, true),
        "hint_shown" => highlighter.highlight_hint(alloc, text),
        "listed" => highlighter.highlight_candidate(alloc, text, CompletionType::List),
        _ => highlighter.highlight(alloc, text, place),
    }
}

// The reason for the drawing, in a call for a line.
const KINDS: [(&str, CmdKind); 5] = [
    ("move", CmdKind::MoveCursor),
    ("told", CmdKind::MoveCursor),
    ("other", CmdKind::Other),
    ("forced", CmdKind::ForcedRefresh),
    ("denied", CmdKind::ForcedRefresh),
];

// What a highlighter says and shows, with pictures and in quotes, or its fault.
fn shown_told(
    alloc: Global,
    said: &str,
    answer: Result<CowStr<'_>, HookFault>,
) -> Result<String, AllocError> {
    match answer {
        Ok(shown) => {
            let shown = pictured(alloc, shown.as_str())?;
            format!(in alloc; "{said}\"{shown}\"")
        }
        Err(fault) => format!(in alloc; "{fault:?}"),
    }
}

/// A highlighter on which each row's calls are made.
#[derive(Drop)]
struct Asked<H> {
    highlighter: H,
}

impl<H: Highlighter> Asked<H> {
    // Whether the highlighter says that it marks something, if the call is for a line.
    fn marks(&mut self, call: &str, line: &str, place: usize) -> &'static str {
        let Some(kind) = named(&KINDS, call) else {
            return "";
        };
        if self.highlighter.highlight_char(line, place, kind) {
            "marks "
        } else {
            "leaves "
        }
    }

    fn answer(&mut self, alloc: Global, call: &str, line: &str) -> Result<String, AllocError> {
        let (line, place) = line_and_place(alloc, line)?;
        let line = line.as_str();
        let marks = self.marks(call, line, place);
        let shown = shown(alloc, &self.highlighter, call, line, place);
        shown_told(alloc, marks, shown)
    }
}

impl<H: Highlighter> Player for Asked<H> {
    fn play(&mut self, alloc: Global, call: &str) -> Result<String, Fail> {
        let (call, line) = word_and_rest(call);
        raised(self.answer(alloc, call, line))
    }
}

#[test]
fn texts_highlighted(rt: HostRuntime) -> Result<(), Fail> {
    let highlighter = HelperParts {
        completer: (),
        hinter: (),
        highlighter: MatchingBracketHighlighter::default(),
        validator: (),
    };
    rows_hold(rt.alloc(), &mut Asked { highlighter }, HIGHLIGHTED)?;
    let highlighter = Box::new(rt.alloc(), ())?;
    rows_hold(rt.alloc(), &mut Asked { highlighter }, NOTHING_HIGHLIGHTED)
}

const VERDICTS: &str = "
    [x{(x)x]    = invalid, for Mismatched brackets: '{' is not properly closed
    ([)]        = invalid, for Mismatched brackets: '[' is not properly closed
    (]          = invalid, for Mismatched brackets: '(' is not properly closed
    [)          = invalid, for Mismatched brackets: '[' is not properly closed
    ]           = invalid, for Mismatched brackets: ']' is unpaired
    ()) (       = invalid, for Mismatched brackets: ')' is unpaired
    é}          = invalid, for Mismatched brackets: '}' is unpaired
    [x{(x)x}x   = incomplete
    (           = incomplete
    ()(         = incomplete
    (a␊         = incomplete
                = valid
    漢          = valid
    ([]{()})    = valid
    (a␊b)       = valid

    abcdefghijklmno)    = invalid, for Mismatched brackets: ')' is unpaired
    abcdefghijklmnop}   = invalid, for Mismatched brackets: '}' is unpaired
    [abcdefghijklmnopq} = invalid, for Mismatched brackets: '[' is not properly closed
    abcdefghijklmno{    = incomplete
    漢漢漢漢漢漢(漢漢漢漢漢[漢] = incomplete
    '*Z^z~'*Z^z~'*Z^z~  = valid
    (abcdefghij[klmn{opqrstuvwxy}zabcdefghijk]lmnopqrstuvw)xyz = valid
";

// A validator's verdict on a text, in a word.
fn verdict_word(found: &ValidationResult) -> &'static str {
    match found {
        ValidationResult::Incomplete => "incomplete",
        _ if found.is_valid() => "valid",
        _ => "invalid",
    }
}

fn message_of(found: &ValidationResult) -> &str {
    match found {
        ValidationResult::Invalid(Some(message)) | ValidationResult::Valid(Some(message)) => {
            message.as_str()
        }
        _ => "",
    }
}

// A validator's verdict on a text, in words.
fn verdict_told(
    alloc: Global,
    found: Result<ValidationResult, HookFault>,
) -> Result<String, AllocError> {
    let Ok(found) = found else {
        return String::from_str(alloc, "a fault");
    };
    let (word, message) = (verdict_word(&found), message_of(&found));
    let mark = if found.has_message() { ", for " } else { "" };
    format!(in alloc; "{word}{mark}{message}")
}

/// The verdict on a row's text, in words.
pub(crate) fn validated(alloc: Global, text: &str) -> Result<String, AllocError> {
    let text = meant(alloc, text)?;
    let context = ValidationContext::new(text.as_str());
    let verdict = MatchingBracketValidator::new().validate(alloc, &context);
    verdict_told(alloc, verdict)
}

#[test]
fn brackets_matched_and_texts_validated(rt: HostRuntime) -> Result<(), Fail> {
    rows_hold(rt.alloc(), &mut Ask::Match, MATCHES)?;
    rows_hold(rt.alloc(), &mut Ask::AtTheCursor, AT_THE_CURSOR)?;
    rows_hold(rt.alloc(), &mut Ask::Verdict, VERDICTS)
}
