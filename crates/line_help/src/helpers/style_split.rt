//! Splits a text with control sequences into the text without them and its styles.
ghost use Rattle.std.specs.Prelude.{◌≡◌, ◌≤◌, ◌≢◌, ℕ, ⊤, List, ◌∷◌, ◌++◌, ◌<◌, IfErr, IfOk, OnOk, length, replicate, string_bytes, IsTrue};
ghost use Rattle.std.specs.Bool.{Decides};
ghost use Rattle.line_help.specs.SplitStyles.{Splits, pieces_after, text_of, TextStays, SpansFit, SplitsSequence, SpansStand, Differ, final_len, hue_at, colour_at, bright_at, with_colour, with_colour_number, with_number, palette, rgb, style_after_numbers, open_numbers, style_after, styles_so_far};

use crate::helpers::style::{Colour, Hue, Span, Style};
use std::alloc::{AllocError, Global};

/// The text with what was read of a control sequence's colour.
#[derive(Clone, Copy, Debug)]
enum Open {
    /// No colour has begun.
    Nothing,
    /// 38, or 48 for the background.
    Kind(bool),
    /// 5 followed.
    Index(bool),
    /// 2 followed.
    Parts(bool),
    /// Then red.
    OnePart(bool, u16),
    /// Then green.
    TwoParts(bool, u16, u16),
    /// Something else followed.
    Dropped,
}

fn hue_at(number: u16) -> Option<Hue>
    ensures { result ≡ hue_at number }
{
    match number {
        0 => Some(Hue::Black),
        1 => Some(Hue::Red),
        2 => Some(Hue::Green),
        3 => Some(Hue::Yellow),
        4 => Some(Hue::Blue),
        5 => Some(Hue::Magenta),
        6 => Some(Hue::Cyan),
        7 => Some(Hue::White),
        _ => None,
    }
}

fn colour_at(number: u16) -> Option<Colour>
    ensures { result ≡ colour_at number }
{
    if number == 9 {
        return Some(Colour::Terminal);
    }
    match hue_at(number) {
        Some(hue) => Some(Colour::Basic(hue)),
        None => None,
    }
}

fn bright_at(number: u16) -> Option<Colour>
    ensures { result ≡ bright_at number }
{
    match hue_at(number) {
        Some(hue) => Some(Colour::Bright(hue)),
        None => None,
    }
}

/// The style with this colour, if there is one, for its background or for its text.
fn with_colour(back: bool, colour: Option<Colour>, style: Style) -> Style
    ensures { result ≡ with_colour back colour style }
{
    match colour {
        None => style,
        Some(background) if back => Style {
            background,
            ..style
        },
        Some(text) => Style { text, ..style },
    }
}

/// The style after the number of a colour.
fn with_colour_number(number: u16, style: Style) -> Style
    ensures { result ≡ with_colour_number number style }
{
    match number {
        30..=39 => with_colour(false, colour_at(number - 30), style),
        40..=49 => with_colour(true, colour_at(number - 40), style),
        90..=97 => with_colour(false, bright_at(number - 90), style),
        100..=107 => with_colour(true, bright_at(number - 100), style),
        _ => style,
    }
}

/// The style after a number by itself.
fn with_number(number: u16, style: Style) -> Style
    ensures { result ≡ with_number number style }
{
    match number {
        0 => Style::plain(),
        1 => Style {
            bold: true,
            ..style
        },
        2 => Style {
            faint: true,
            ..style
        },
        3 => Style {
            italic: true,
            ..style
        },
        4 => Style {
            underline: true,
            ..style
        },
        7 => Style {
            reverse: true,
            ..style
        },
        22 => Style {
            bold: false,
            faint: false,
            ..style
        },
        23 => Style {
            italic: false,
            ..style
        },
        24 => Style {
            underline: false,
            ..style
        },
        27 => Style {
            reverse: false,
            ..style
        },
        _ => with_colour_number(number, style),
    }
}

/// One of 256 colours, if the number is one.
fn palette(number: u16) -> Option<Colour>
    ensures { result ≡ palette number }
{
    if number < 256 {
        Some(Colour::Palette(number as u8))
    } else {
        None
    }
}

/// A colour by its parts, if each is a byte.
fn rgb(red: u16, green: u16, blue: u16) -> Option<Colour>
    ensures { result ≡ rgb red green blue }
{
    if red < 256 && green < 256 && blue < 256 {
        Some(Colour::Rgb(red as u8, green as u8, blue as u8))
    } else {
        None
    }
}

/// Takes the next number of a sequence: the style then, and what has begun of a colour.
fn take_number(style: Style, begun: Open, number: u16) -> (Style, Open)
    ensures { (ns : List ℕ) → style_after_numbers 0 (open_numbers begun ++ (number ∷ ns)) style
        ≡ style_after_numbers 0 (open_numbers result.1 ++ ns) result.0 }
{
    match begun {
        Open::Nothing => match number {
            38 => (style, Open::Kind(false)),
            48 => (style, Open::Kind(true)),
            _ => (with_number(number, style), Open::Nothing),
        },
        Open::Kind(back) => match number {
            5 => (style, Open::Index(back)),
            2 => (style, Open::Parts(back)),
            _ => (style, Open::Dropped),
        },
        Open::Index(back) => (with_colour(back, palette(number), style), Open::Nothing),
        Open::Parts(back) => (style, Open::OnePart(back, number)),
        Open::OnePart(back, red) => (style, Open::TwoParts(back, red, number)),
        Open::TwoParts(back, red, green) => {
            (
                with_colour(back, rgb(red, green, number), style),
                Open::Nothing,
            )
        }
        Open::Dropped => (style, Open::Dropped),
    }
}

/// The style after a control sequence, of which these bytes follow `ESC [`.
fn style_after(sequence: &[u8], style: Style) -> Style
    ensures { result ≡ style_after sequence.now style }
{
    let mut changed = style;
    let mut begun = Open::Nothing;
    let mut number: u16 = 0;
    for byte in sequence {
        match *byte {
            b'm' => return take_number(changed, begun, number).0,
            b';' => {
                let after = take_number(changed, begun, number);
                changed = after.0;
                begun = after.1;
                number = 0;
            }
            b'0'..=b'9' => number = (number * 10 + u16::from(*byte - b'0')).min(999),
            _ => return style,
        }
    }
    style
}

/// The length of a control sequence without its `ESC [`, if one follows that.
fn final_len(bytes: &[u8]) -> Option<usize>
    ensures { result ≡ final_len bytes.now }
{
    for (place, byte) in bytes.iter().enumerate() {
        match *byte {
            0x40..=0x7E => return Some(place + 1),
            0x20..=0x3F => {}
            _ => return None,
        }
    }
    None
}

/// The bytes of a control sequence after its `ESC [`, and what follows it, if the text after an ESC
/// begins so.
fn sequence_in(after: &str) -> Option<(&str, &str)>
    ensures { SplitsSequence after.now result }
{
    let body = after.strip_prefix('[')?;
    let len = final_len(body.as_bytes())?;
    Some(body.split_at(len))
}

fn same_style(one: Style, other: Style) -> bool
    ensures { Decides result (one ≡ other) }
{
    one == other
}

/// The text so far, the spans before the place `start`, and the style from there on.
#[derive(Debug, Drop)]
struct Split {
    text: String,
    spans: Vec<Span>,
    start: usize,
    style: Style,
}

impl Split {
    /// Ends a span if it has another style than this one, which the next bytes have.
    fn turn(&mut self, style: Style) -> Result<(), AllocError>
        requires { SpansStand (length (string_bytes self.old.text)) self.old.start
            self.old.spans.items self.old.style }
        ensures memory { IfErr result (λ e. 0 < length (string_bytes self.old.text)) }
        ensures text { string_bytes self.new.text ≡ string_bytes self.old.text }
        ensures start { OnOk result (self.new.start ≤ length (string_bytes self.new.text)) }
        ensures style { OnOk result (self.new.style ≡ style) }
        ensures differ { OnOk result (Differ self.new.spans.items style) }
        ensures styles { OnOk result (styles_so_far (length (string_bytes self.new.text))
            self.new.start self.new.spans.items self.new.style
            ≡ styles_so_far (length (string_bytes self.old.text)) self.old.start
            self.old.spans.items self.old.style) }
    {
        if same_style(self.style, style) {
            return Ok(());
        }
        let len = self.text.len();
        if self.start < len {
            self.spans.push(Span {
                len: len - self.start,
                style: self.style,
            })?;
            self.start = len;
        }
        self.style = style;
        Ok(())
    }

    /// Adds a text of one style.
    fn put(&mut self, text: &str, style: Style) -> Result<(), AllocError>
        requires { SpansStand (length (string_bytes self.old.text)) self.old.start
            self.old.spans.items self.old.style }
        ensures memory { IfErr result (λ e. 0 < length text.now) }
        ensures text { OnOk result
            (string_bytes self.new.text ≡ string_bytes self.old.text ++ text.now) }
        ensures stands { OnOk result
            (SpansStand (length (string_bytes self.new.text)) self.new.start
            self.new.spans.items self.new.style) }
        ensures styles { OnOk result (styles_so_far (length (string_bytes self.new.text))
            self.new.start self.new.spans.items self.new.style
            ≡ styles_so_far (length (string_bytes self.old.text)) self.old.start
            self.old.spans.items self.old.style ++ replicate (length text.now) style) }
    {
        if text.is_empty() {
            return Ok(());
        }
        self.turn(style)?;
        self.text.push_str(text)?;
        Ok(())
    }
}

/// Splits a text with control sequences (ECMA-48) into the text without them and the spans of
/// styles that it has by SGR, the sequences that end in `m`: so a prompt with sequences becomes a
/// prompt and what `Highlighter::next_span` returns for it. Numbers of SGR that `Style` can't say
/// change nothing. What follows the last span is plain.
///
/// Other control sequences, which begin with `ESC [` too, are dropped: they take no column and mean
/// nothing in a line. Any other ESC stays in the text, also one whose sequence has no end: what
/// belongs to it isn't known, and a screen draws it as `?`, so that it can be seen. Memory runs out
/// only if some of the text is left.
pub fn split_styles(alloc: Global, shown: &str) -> Result<(String, Vec<Span>), AllocError>
    ensures parts { IfOk result (λ split. Splits shown.now (string_bytes split.0) split.1.items) }
    ensures memory { IfErr result (λ e. 0 < length (text_of (pieces_after 0 shown.now))) }
{
    let mut split = Split {
        text: String::new(alloc),
        spans: Vec::new(alloc),
        start: 0,
        style: Style::plain(),
    };
    let mut style = Style::plain();
    let mut rest = shown;
    while let Some((front, after)) = rest.split_once('\u{1b}') {
        split.put(front, style)?;
        match sequence_in(after) {
            Some((sequence, behind)) => {
                style = style_after(sequence.as_bytes(), style);
                rest = behind;
            }
            None => {
                split.put("\u{1b}", style)?;
                rest = after;
            }
        }
    }
    split.put(rest, style)?;
    split.turn(Style::plain())?;
    Ok((split.text, split.spans))
}

/// A text without ESC stays as it is, and has no spans.
pub fn text_stays()
    ensures { TextStays }
{}

/// The bytes of all spans together are at most those of the text.
pub fn spans_fit()
    ensures { SpansFit }
{}
