//! How far two drawings of a line surely have the same styles.
ghost use Rattle.std.specs.Prelude.{◌≡◌, ◌<◌, take, drop, length, option_copied, replicate, unwrap_or, IsTrue, if◌then◌else◌};
ghost use Rattle.line_help.specs.Paints.{first_mark, span_styles};
ghost use Rattle.line_editor.specs.SharedStyles.{is_used, plain_rest, same_style, told_styles};
ghost use Rattle.std.specs.List.{common_prefix_len};

use line_help::{Highlighter, Mark, Part, Span, Style};
use std::marker::Model;

/// At most so many spans of a line are compared.
const MOST_SPANS: usize = 64;

/// The first spans of a line, up to a place. Those that are missing are plain.
pub(crate) type FirstSpans = [Span; MOST_SPANS];

/// The place up to which a change leaves a line, and the first spans of the line before it, if it
/// is drawn with styles.
#[derive(Drop)]
pub(crate) struct Since<'a> {
    from: usize,
    spans: Option<&'a FirstSpans>,
}

impl<'a> Model for Since<'a> {
    ghost use Rattle.line_editor.specs.Drawing.{Since};
    ghost use Rattle.std.specs.Prelude.{option_copied};
    ghost use Rattle.line_editor.specs.SharedStyles.{noted_styles};

    ghost Value = { Since };

    ghost view = { λ s. record {
      from = s.from;
      styles = noted_styles s.from (option_copied s.spans);
    } };
}

impl<'a> Since<'a> {
    ghost use Rattle.line_help.specs.Paints.{plain};
    ghost use Rattle.line_editor.specs.SharedStyles.{noted_styles};

    pub(crate) fn new(from: usize, spans: Option<&'a FirstSpans>) -> Self
        ensures { result ≡ record {
          from = from;
          styles = noted_styles from (option_copied spans.entry);
        } }
    {
        Since { from, spans }
    }

    /// The place.
    pub(crate) fn from(&self) -> usize
        ensures { result ≡ self.now.from }
    {
        self.from
    }

    /// Whether the line had no styles.
    pub(crate) fn is_plain(&self) -> bool
        ensures { IsTrue result → self.now.styles ≡ replicate self.now.from plain }
    {
        self.spans.is_none()
    }

    /// How many bytes before the place have the same styles in a line that has these first spans.
    pub(crate) fn kept_upto(&self, spans: &Option<FirstSpans>) -> usize
        ensures { result ≡ common_prefix_len same_style self.now.styles
            (noted_styles self.now.from spans.now) }
    {
        let rest = [plain_rest(self.from)];
        shared_styles(
            self.from,
            spans_or(self.spans, &rest),
            spans_or(spans.as_ref(), &rest),
        )
    }
}

/// The plain bytes after a line's last span, as many as are compared.
fn plain_rest(upto: usize) -> Span
    ensures { result ≡ plain_rest upto }
{
    Span {
        len: upto,
        style: Style::plain(),
    }
}

/// These spans, or others if there are none.
fn spans_or<'a>(spans: Option<&'a FirstSpans>, others: &'a [Span]) -> &'a [Span]
    ensures { result.now ≡ unwrap_or (option_copied spans.entry) others.now }
{
    match spans {
        Some(first) => first,
        None => others,
    }
}

/// The first spans of a text, for the styles of so many of its bytes. No more spans are asked for.
pub(crate) fn first_spans<H: Highlighter>(
    highlighter: &H,
    part: Part,
    text: &str,
    upto: usize,
) -> FirstSpans
    ensures { take upto (span_styles result) ≡ told_styles upto
        ((H.marks highlighter.now).paints part text.now first_mark) }
{
    let mut first = [plain_rest(upto); MOST_SPANS];
    let mut count = 0;
    let mut left = upto;
    let mut mark = Mark::first();
    while count < MOST_SPANS && left > 0 {
        let Some((span, next)) = highlighter.next_span(part, text, mark) else {
            break;
        };
        first[count] = span;
        count += 1;
        left = left.saturating_sub(span.len);
        mark = next;
    }
    first
}

/// The spans behind so many bytes of the first of these, and how many bytes of their own first span
/// are behind.
fn behind(spans: &[Span], used: usize) -> (&[Span], usize)
    requires { 0 < length spans.now }
    ensures spans { result.0.now ≡ (if is_used used spans.now then drop 1 spans.now
        else spans.now) }
    ensures used { result.1 ≡ (if is_used used spans.now then 0 else used) }
{
    if used == spans[0].len {
        (&spans[1..], 0)
    } else {
        (spans, used)
    }
}

/// How many of the first `upto` bytes have the same styles by these spans and by those.
fn shared_styles(upto: usize, old: &[Span], new: &[Span]) -> usize
    ensures { result ≡ common_prefix_len same_style (take upto (span_styles old.now))
        (take upto (span_styles new.now)) }
{
    let mut left = upto;
    let mut old = old;
    let mut new = new;
    let mut old_used = 0;
    let mut new_used = 0;
    while let (Some(a), Some(b)) = (old.first(), new.first()) {
        let old_rest = a.len - old_used;
        let new_rest = b.len - new_used;
        let both = old_rest.min(new_rest);
        if both > 0 && a.style != b.style {
            break;
        }
        if left <= both {
            return upto;
        }
        left -= both;
        (old, old_used) = behind(old, a.len - (old_rest - both));
        (new, new_used) = behind(new, b.len - (new_rest - both));
    }
    upto - left
}
