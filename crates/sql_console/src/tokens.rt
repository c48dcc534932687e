//! The tokens of a statement, and how each is drawn.

ghost use Rattle.std.specs.Prelude.{◌≡◌, ◌<◌, ◌≤◌, length, slice_index, true, IsTrue};
ghost use Rattle.std.specs.List.{list_any};
ghost use Rattle.std.specs.Str.{str_eq_ignore_ascii_case};
ghost use Rattle.line_help.specs.Paints.{IsNextSpan};
ghost use Rattle.sql_console.specs.Tokens.{alphabet, style_with_hue, first_token, is_alphabetical, is_in, is_keyword, past, tokens_from, word_style};

use keyline::{Colour, Hue, Mark, Span, Style};
use sqlite_syntax::token::{KEYWORDS, Kind};
use std::cmp::Ordering;

/// A class of bytes. Some tokens are runs of one.
#[derive(Clone, Copy, Debug)]
pub(crate) enum Class {
    /// Letters, digits, underlines and points, as in `note.title` and 4.5, and what isn't ASCII.
    Word,
    /// All except a quote.
    Quoted,
    /// All except a newline.
    Row,
}

fn is_in(class: Class, byte: u8) -> bool
    ensures { result ≡ is_in class byte }
{
    match class {
        Class::Word => {
            byte.is_ascii_alphanumeric() || byte == b'_' || byte == b'.' || 128 <= byte
        }
        Class::Quoted => byte != b'\'',
        Class::Row => byte != b'\n',
    }
}

/// The first place, from `at` on, whose byte isn't of the class.
fn past(class: Class, text: &[u8], at: usize) -> usize
    requires { at ≤ length text.now }
    ensures value { result ≡ past class text.now at }
    ensures within { (at ≤ result) × (result ≤ length text.now) }
    ensures moves { at < length text.now → is_in class (slice_index text.now at) ≡ true
        → at < result }
{
    let mut end = at;
    while end < text.len() && is_in(class, text[end]) {
        end += 1;
    }
    end
}

/// Which of two words is first in the alphabet, in whatever case they are.
fn compare(a: &[u8], b: &[u8]) -> Ordering
    ensures { result ≡ alphabet a.now b.now }
{
    let others = b.iter().map(|byte| byte.to_ascii_lowercase());
    a.iter().map(|byte| byte.to_ascii_lowercase()).cmp(others)
}

fn has_word(table: &[(&[u8], Kind)], word: &[u8]) -> bool
    requires { IsTrue (is_alphabetical (λ k. k.0.now) table.now) }
    ensures { result ≡ list_any (λ k. str_eq_ignore_ascii_case k.0.now word.now) table.now }
{
    table
        .binary_search_by(|entry| compare(entry.0, word))
        .is_ok()
}

#[tactic(auto, unfolding(crate::specs::Tokens::is_keyword))]
fn is_keyword(word: &[u8]) -> bool
    ensures { result ≡ is_keyword word.now }
{
    has_word(&KEYWORDS, word)
}

fn coloured(hue: Hue) -> Style
    ensures { result ≡ style_with_hue hue }
{
    Style {
        text: Colour::Basic(hue),
        ..Style::plain()
    }
}

fn word_style(word: &[u8]) -> Style
    requires { 0 < length word.now }
    ensures { result ≡ word_style word.now }
{
    if word[0].is_ascii_digit() {
        return coloured(Hue::Magenta);
    }
    if is_keyword(word) {
        return Style {
            bold: true,
            ..coloured(Hue::Blue)
        };
    }
    Style::plain()
}

/// The token that a text begins with.
#[tactic(auto, unfolding(crate::specs::Tokens::first_token))]
fn first_token(text: &[u8]) -> Span
    requires { 0 < length text.now }
    ensures value { result ≡ first_token text.now }
    ensures within { (1 ≤ result.len) × (result.len ≤ length text.now) }
{
    if text[0] == b'\'' {
        let len = text.len().min(past(Class::Quoted, text, 1) + 1);
        let style = coloured(Hue::Green);
        return Span { len, style };
    }
    if text[0] == b'-' && text.len() > 1 && text[1] == b'-' {
        let len = past(Class::Row, text, 0);
        let style = coloured(Hue::Cyan);
        return Span { len, style };
    }
    if is_in(Class::Word, text[0]) {
        let len = past(Class::Word, text, 0);
        let style = word_style(&text[..len]);
        return Span { len, style };
    }
    let style = Style::plain();
    Span { len: 1, style }
}

/// The token at a mark, and the mark after it.
#[tactic(auto, using(crate::proofs::TokenLemmas::tokens_past))]
pub(crate) fn next_token(text: &[u8], from: Mark) -> Option<(Span, Mark)>
    ensures { IsNextSpan (λ mark. tokens_from mark.at text.now) from result }
{
    if from.at >= text.len() {
        return None;
    }
    let span = first_token(&text[from.at..]);
    let at = from.at + span.len;
    Some((span, Mark { at, state: 0 }))
}
