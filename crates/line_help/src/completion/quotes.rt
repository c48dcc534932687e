//! Escapes and quotes, read like a shell does.
ghost use Rattle.std.specs.Prelude.{◌≡◌, ℕ, Bool, true, false, IfOk, IfErr, IsSome, string_bytes};
ghost use Rattle.std.specs.Cow.{cow_str_bytes};
ghost use Rattle.line_config.specs.declared.errors.HookFault.TheVariants.{Memory};
ghost use Rattle.line_help.specs.Quotes.{Tells, text_without_escapes, escape_in, text_with_escapes, escapes_at, quote_after, unclosed_quote};

use line_config::HookFault;
use std::alloc::Global;
use std::borrow::CowStr;

/// A kind of quote.
#[derive(Clone, Copy, Debug, PartialEq, Eq)]
pub enum Quote {
    /// `"`
    Double,
    /// `'`
    Single,
    /// No quote.
    None,
}

/// The text without its escapes: each stands for the character after it; at the end it stands for
/// nothing.
#[tactic(auto, using(crate::proofs::QuoteLemmas::unescape_steps))]
pub fn unescape<'s>(
    alloc: Global,
    input: &'s str,
    esc_char: Option<char>,
) -> Result<CowStr<'s>, HookFault>
    ensures text { IfOk result
        (λ text. cow_str_bytes text ≡ text_without_escapes input.now esc_char) }
    ensures fault { IfErr result (λ e. (e ≡ Memory) × IsSome esc_char) }
{
    let Some(esc) = esc_char else {
        return Ok(CowStr::Borrowed(input));
    };
    let mut text = String::with_capacity(alloc, input.len())?;
    let mut escapes = false;
    for c in input.chars() {
        if escapes {
            text.push(c)?;
            escapes = false;
        } else if c == esc {
            escapes = true;
        } else {
            text.push(c)?;
        }
    }
    Ok(CowStr::Owned(text))
}

/// The escape character in this quote: none between single quotes.
fn escape_in(quote: Quote, esc_char: Option<char>) -> Option<char>
    ensures { result ≡ escape_in quote esc_char }
{
    match quote {
        Quote::Single => None,
        Quote::Double | Quote::None => esc_char,
    }
}

/// The text with an escape before each break character; between single quotes, or without an
/// escape, the text as it is.
#[tactic(auto, using(crate::proofs::QuoteLemmas::escape_steps))]
pub fn escape<F: Fn(char) -> bool + Drop>(
    alloc: Global,
    input: String,
    esc_char: Option<char>,
    is_break_char: F,
    quote: Quote,
) -> Result<String, HookFault>
    requires { F.IsAlwaysCallable is_break_char }
    ensures text { (breaks : ℕ → Bool) → Tells (F.post is_break_char) breaks
        → IfOk result (λ text. string_bytes text
        ≡ text_with_escapes (string_bytes input) esc_char breaks quote) }
    ensures fault { IfErr result (λ e. (e ≡ Memory) × IsSome (escape_in quote esc_char)) }
{
    let Some(esc) = escape_in(quote, esc_char) else {
        return Ok(input);
    };
    let mut text = String::with_capacity(alloc, input.len())?;
    for c in input.as_str().chars() {
        if is_break_char(c) {
            text.push(esc)?;
        }
        text.push(c)?;
    }
    Ok(text)
}

/// Whether a backslash is an escape inside this quote.
fn escapes_at(within: Option<(usize, Quote)>) -> bool
    ensures { result ≡ escapes_at within }
{
    match within {
        None => true,
        Some((_, quote)) => quote == Quote::Double,
    }
}

/// The quote that is open after a byte that isn't escaped.
fn quote_after(place: usize, byte: u8, within: Option<(usize, Quote)>) -> Option<(usize, Quote)>
    ensures { result ≡ quote_after place byte within }
{
    match within {
        None => match byte {
            b'"' => Some((place, Quote::Double)),
            b'\'' => Some((place, Quote::Single)),
            _ => None,
        },
        Some((_, Quote::Double)) if byte == b'"' => None,
        Some((_, Quote::Single)) if byte == b'\'' => None,
        Some(quote) => Some(quote),
    }
}

/// The place and kind of the quote that is open at the text's end, if there is one.
pub(crate) fn find_unclosed_quote(text: &str) -> Option<(usize, Quote)>
    ensures { result ≡ unclosed_quote text.now }
{
    let bytes = text.as_bytes();
    let mut within: Option<(usize, Quote)> = None;
    let mut escapes = false;
    for (place, byte) in bytes.iter().enumerate() {
        if escapes {
            escapes = false;
        } else if *byte == b'\\' && escapes_at(within) {
            escapes = true;
        } else {
            within = quote_after(place, *byte, within);
        }
    }
    within
}
