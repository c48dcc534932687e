//! Texts with control sequences: each split into a text and its spans, and a prompt that is split
//! once, whose spans a highlighter returns.
use crate::help::asks::Ask;
use crate::help::styles::paints;
use line_help::{Colour, PromptHighlighter, Span, StandardHighlighter, Style, split_styles};
use stand_ins::rows::{each_holds, same};
use stand_ins::tables::{meant, pictured};
use std::alloc::{AllocError, Global};
use std::test::Fail;

// A text; the text without its control sequences, and of each span its length in bytes and its
// style.
const SPLIT: &str = r#"
                                = ""
    abc                         = "abc"
    ␛[32m>␛[m␠                  = "> " 1 Basic(Green)
    a␛[1;31mbc␛[0md             = "abcd" 1, 2 bold Basic(Red)
    é␛[2m漢␛[mb                 = "é漢b" 2, 3 faint
    a␛[4mb␛[24mc␛[4md           = "abcd" 1, 1 underline, 1, 1 underline
    ␛[31ma␛[32m␛[31mb           = "ab" 2 Basic(Red)
    ␛[31m␛[32mx                 = "x" 1 Basic(Green)
    ␛[31m                       = ""
    ␛[3;7mx␛[23my␛[27mz         = "xyz" 1 italic reverse, 1 reverse
    ␛[1;2;4mx␛[22my             = "xy" 1 bold faint underline, 1 underline
    ␛[1;3mx␛[;4my               = "xy" 1 bold italic, 1 underline
    ␛[1;4mx␛[my                 = "xy" 1 bold underline
    ␛[30;47mx␛[39my␛[49mz       = "xyz" 1 Basic(Black) on Basic(White), 1 on Basic(White)
    ␛[37;40mx                   = "x" 1 Basic(White) on Basic(Black)
    ␛[97;100mx␛[90;107my        = "xy" 1 Bright(White) on Bright(Black), 1 Bright(Black) on Bright(White)
    ␛[38;5;200mx                = "x" 1 Palette(200)
    ␛[1;38;5;9;4mx              = "x" 1 bold underline Palette(9)
    ␛[48;2;1;2;255;1mx          = "x" 1 bold on Rgb(1, 2, 255)
    ␛[38;5;0;48;5;255mx         = "x" 1 Palette(0) on Palette(255)
"#;

// Numbers that aren't known, and colours that aren't whole.
const DROPPED: &str = r#"
    ␛[1;99;5;2;108;29mx         = "x" 1 bold faint
    ␛[98;99;109mx               = "x"
    ␛[01;00000000000000000031mx = "x" 1 bold Basic(Red)
    ␛[65537;4294967297;257mx    = "x"
    ␛[38;5;256;4mx              = "x" 1 underline
    ␛[38;2;1;2;256;4mx          = "x" 1 underline
    ␛[4;38mx                    = "x" 1 underline
    ␛[4;38;5mx                  = "x" 1 underline
    ␛[4;48;2;1;2mx              = "x" 1 underline
    ␛[4;38;7;1mx                = "x" 1 underline
"#;

// Other sequences, and an ESC without one.
const OTHERS: &str = r#"
    a␛[2Kb␛[10Cc                = "abc"
    ␛[?25lx␛[Hy                 = "xy"
    ␛[>4;1mx                    = "x"
    ␛[4:3mx                     = "x"
    ␛[1␠mx                      = "x"
    ␛[1$mx                      = "x"
    ␛[1~␛[1@y                   = "y"
    ␛x                          = "␛x"
    ab␛                         = "ab␛"
    a␛[                         = "a␛["
    a␛[1;31                     = "a␛[1;31"
    ␛[1é␛[4mx                   = "␛[1éx" 5, 1 underline
    ␛␛[1mx                      = "␛x" 1, 1 bold
    ␛[1␛[4mx                    = "␛[1x" 3, 1 underline
    ␛]0;t␇x                     = "␛]0;t␇x"
    ␛[4ma␛b                     = "a␛b" 3 underline
"#;

fn word(is: bool, word: &'static str) -> &'static str {
    if is { word } else { "" }
}

fn push_colour(told: &mut String, before: &str, colour: Colour) -> Result<(), AllocError> {
    match colour {
        Colour::Terminal => Ok(()),
        other => write!(told, "{before}{other:?}"),
    }
}

/// Writes a span in words, behind a mark: its length in bytes and its style.
pub(crate) fn push_span(told: &mut String, mark: &str, span: &Span) -> Result<(), AllocError> {
    let style = span.style;
    let (bold, faint) = (word(style.bold, " bold"), word(style.faint, " faint"));
    let italic = word(style.italic, " italic");
    let underline = word(style.underline, " underline");
    let reverse = word(style.reverse, " reverse");
    let len = span.len;
    write!(told, "{mark}{len}{bold}{faint}{italic}{underline}{reverse}")?;
    push_colour(told, " ", style.text)?;
    push_colour(told, " on ", style.background)
}

fn push_spans(told: &mut String, spans: &[Span]) -> Result<(), AllocError> {
    for (place, span) in spans.iter().enumerate() {
        push_span(told, if place == 0 { " " } else { ", " }, span)?;
    }
    Ok(())
}

fn in_words(alloc: Global, text: &str, spans: &[Span]) -> Result<String, AllocError> {
    let text = pictured(alloc, text)?;
    let mut told = format!(in alloc; "\"{text}\"")?;
    push_spans(&mut told, spans)?;
    Ok(told)
}

/// A row's text, split.
pub(crate) fn split_told(alloc: Global, call: &str) -> Result<String, AllocError> {
    let (text, spans) = split_styles(alloc, meant(alloc, call)?.as_str())?;
    in_words(alloc, text.as_str(), spans.as_slice())
}

const TABLES: [(Ask, &str); 3] = [
    (Ask::Split, SPLIT),
    (Ask::Split, DROPPED),
    (Ask::Split, OTHERS),
];

#[test]
fn texts_are_split(rt: HostRuntime) -> Result<(), Fail> {
    each_holds(rt.alloc(), &TABLES)
}

// The spans are the first three bytes in faint and the fourth in red.
const PROMPTED: &str = "
    prompt sql>␠   = 3 faint, 1 Basic(Red)
    prompt other   = 3 faint, 1 Basic(Red)
    count sql>␠    = nothing
    line (a|)      = 0, 1 bold Basic(Blue)
    hint llo       = 3 faint
    message a␊b    = 1 Basic(Red)
";

const NOT_PROMPTED: &str = "
    prompt sql>␠   = nothing
    hint llo       = 3 faint
";

#[test]
fn prompt_split_once(rt: HostRuntime) -> Result<(), Fail> {
    let alloc = rt.alloc();
    let (prompt, spans) = split_styles(alloc, "\u{1b}[2msql\u{1b}[22;31m>\u{1b}[m ")?;
    same(prompt.as_str(), "sql> ")?;
    let styled = PromptHighlighter::new(spans.as_slice(), StandardHighlighter::new());
    paints(alloc, styled, &[PROMPTED])?;
    let plain = PromptHighlighter::new(&[], StandardHighlighter::new());
    paints(alloc, plain, &[NOT_PROMPTED])
}
