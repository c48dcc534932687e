//! Styles for sessions, by words. `styled:2,3,bold+blue` gives three bytes of the line, from the
//! third on, this style. With `keyword:ab` each `ab` in the line has it instead, and each other byte
//! is plain in a span of its own. `prompt-style:`, `hint-style:` and `message-style:` give the whole
//! text one. A style is `bold`, `faint`, `italic`, `underline`, `reverse`, one of eight colours by name,
//! such a colour after `bright-`, one of 256 by number, or several of them with `+` between them;
//! `on-` stands before the colour of the ground.

ghost use Rattle.std.specs.Prelude.{◌≡◌, ◌<◌, ◌≤◌, length};
ghost use Rattle.line_help.specs.Paints.{IsNextSpan};
ghost use Rattle.session_rows.specs.Styles.{both_from, first_word, spans_of, text_with_styles, words_from};

use crate::words::notation::after;
use line_help::{Colour, Hue, Mark, Part, Span, Style};

/// The styles of a helper with fixed answers: of some bytes of the line or of a keyword in it, if
/// there is one, and of the whole of each other text.
#[derive(Clone, Copy)]
pub struct Styles<'a> {
    prompt: Style,
    start: usize,
    len: usize,
    line: Style,
    keyword: &'a [u8],
    hint: Style,
    message: Style,
}

/// The span that a text begins with: a keyword with its style, or one plain byte.
fn first_word(keyword: &[u8], style: Style, text: &[u8]) -> Span
    requires word { 0 < length keyword.now }
    requires rest { 0 < length text.now }
    ensures value { result ≡ first_word keyword.now style text.now }
    ensures within { (1 ≤ result.len) × (result.len ≤ length text.now) }
{
    if text.starts_with(keyword) {
        return Span {
            len: keyword.len(),
            style,
        };
    }
    Span {
        len: 1,
        style: Style::plain(),
    }
}

/// The span at a mark, whose place is where it begins, and the mark after it.
#[tactic(auto, using(crate::proofs::WordLemmas::words_past))]
fn next_word(keyword: &[u8], style: Style, text: &[u8], from: Mark) -> Option<(Span, Mark)>
    requires { 0 < length keyword.now }
    ensures { IsNextSpan (λ mark. words_from keyword.now style mark.at text.now) from result }
{
    if from.at >= text.len() {
        return None;
    }
    let span = first_word(keyword, style, &text[from.at..]);
    let at = from.at + span.len;
    Some((span, Mark { at, state: 0 }))
}

impl Styles<'_> {
    /// The two spans of a text: one without a style, and one with it.
    fn spans_of(&self, part: Part, text: &str) -> (Span, Span)
        ensures { result ≡ spans_of self.now part text.now }
    {
        let (start, len, style) = match part {
            Part::Prompt(_) => (0, text.len(), self.prompt),
            Part::Line(_) => (self.start, self.len, self.line),
            Part::Hint => (0, text.len(), self.hint),
            Part::Message => (0, text.len(), self.message),
        };
        let before = Span {
            len: start,
            style: Style::plain(),
        };
        (before, Span { len, style })
    }

    /// The next of the two spans of a text. The mark's state is the number of those before it.
    fn next_of_two(&self, part: Part, text: &str, from: Mark) -> Option<(Span, Mark)>
        ensures { IsNextSpan (λ mark. both_from (spans_of self.now part text.now) mark) from result }
    {
        let (before, styled) = self.spans_of(part, text);
        match from.state {
            0 => Some((before, Mark { at: 0, state: 1 })),
            1 => Some((styled, Mark { at: 0, state: 2 })),
            _ => None,
        }
    }

    /// The next span of a text.
    pub fn next_span(&self, part: Part, text: &str, from: Mark) -> Option<(Span, Mark)>
        ensures { IsNextSpan (text_with_styles self.now part text.now) from result }
    {
        match part {
            Part::Line(_) if !self.keyword.is_empty() => {
                next_word(self.keyword, self.line, text.as_bytes(), from)
            }
            _ => self.next_of_two(part, text, from),
        }
    }
}

fn hue_named(name: &str) -> Option<Hue> {
    let hue = match name {
        "black" => Hue::Black,
        "red" => Hue::Red,
        "green" => Hue::Green,
        "yellow" => Hue::Yellow,
        "blue" => Hue::Blue,
        "magenta" => Hue::Magenta,
        "cyan" => Hue::Cyan,
        "white" => Hue::White,
        _ => return None,
    };
    Some(hue)
}

fn colour_named(name: &str) -> Colour {
    if let Some(hue) = hue_named(name) {
        return Colour::Basic(hue);
    }
    if let Some(rest) = name.strip_prefix("bright-")
        && let Some(hue) = hue_named(rest)
    {
        return Colour::Bright(hue);
    }
    match name.parse() {
        Ok(number) => Colour::Palette(number),
        Err(_) => Colour::Terminal,
    }
}

/// A style with what one more word says.
fn with_word(style: Style, word: &str) -> Style {
    match word {
        "bold" => Style {
            bold: true,
            ..style
        },
        "faint" => Style {
            faint: true,
            ..style
        },
        "italic" => Style {
            italic: true,
            ..style
        },
        "underline" => Style {
            underline: true,
            ..style
        },
        "reverse" => Style {
            reverse: true,
            ..style
        },
        _ => with_colour(style, word),
    }
}

fn with_colour(style: Style, word: &str) -> Style {
    match word.strip_prefix("on-") {
        Some(name) => Style {
            background: colour_named(name),
            ..style
        },
        None => Style {
            text: colour_named(word),
            ..style
        },
    }
}

/// The style of words with `+` between them.
fn style_named(words: &str) -> Style {
    let mut style = Style::plain();
    for word in words.split('+') {
        style = with_word(style, word);
    }
    style
}

fn style_after(words: &str, beginning: &str) -> Style {
    style_named(after(words, beginning).unwrap_or(""))
}

/// The numbers and the style of a line's span.
fn span_after(words: &str) -> (usize, usize, Style) {
    let mut parts = after(words, "styled:").unwrap_or("").splitn(3, ',');
    let start = parts.next().unwrap_or("").parse().unwrap_or(0);
    let len = parts.next().unwrap_or("").parse().unwrap_or(0);
    (start, len, style_named(parts.next().unwrap_or("")))
}

/// The styles that the words of a setting name, and this keyword.
pub fn styles_of<'a>(words: &str, keyword: &'a str) -> Styles<'a> {
    let (start, len, line) = span_after(words);
    Styles {
        prompt: style_after(words, "prompt-style:"),
        start,
        len,
        line,
        keyword: keyword.as_bytes(),
        hint: style_after(words, "hint-style:"),
        message: style_after(words, "message-style:"),
    }
}
