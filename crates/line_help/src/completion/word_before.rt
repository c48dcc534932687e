//! The word before a place in a line.
ghost use Rattle.std.specs.Prelude.{◌≡◌, ℕ, Bool, List, slice_get, take, drop, reverse, length, true, false, MatchOption, IfSome, encode_utf8, IsCharBoundary, IsUtf8, ◌++◌, []};
ghost use Rattle.std.specs.Char.{IsScalar};
ghost use Rattle.std.specs.Option.{option_map_or};
ghost use Rattle.std.specs.Str.{chars};
ghost use Rattle.line_help.specs.Quotes.{Tells};
ghost use Rattle.line_help.specs.Completion.{is_escape, word_start, break_characters, double_quote_characters, is_among};

/// Whether a character ends a word in a shell.
pub(crate) fn ends_word(c: char) -> bool
    ensures { result ≡ is_among break_characters c }
{
    matches!(
        c,
        ' ' | '\t'
            | '\n'
            | '"'
            | '\\'
            | '\''
            | '`'
            | '@'
            | '$'
            | '>'
            | '<'
            | '='
            | ';'
            | '|'
            | '&'
            | '{'
            | '('
            | '\0'
    )
}

/// Whether a character keeps its meaning between double quotes.
pub(crate) fn is_double_quote_char(c: char) -> bool
    ensures { result ≡ is_among double_quote_characters c }
{
    matches!(c, '"' | '$' | '\\' | '`')
}

fn is_escape(esc_char: Option<char>, c: char) -> bool
    ensures { result ≡ is_escape esc_char c }
{
    match esc_char {
        Some(esc) => c == esc,
        None => false,
    }
}

/// The text before the last character, and that character.
fn split_last(text: &str) -> Option<(&str, char)>
    ensures last { MatchOption result (text.now ≡ []) (λ found. text.now
        ≡ found.0.now ++ encode_utf8 found.1) }
    ensures scalar { IfSome result (λ found. IsScalar found.1) }
    ensures utf8 { IfSome result (λ found. IsUtf8 found.0.now) }
{
    let mut chars = text.chars();
    let last = chars.next_back()?;
    Some((chars.as_str(), last))
}

/// The text before an escape at its end.
#[tactic(auto, using(crate::proofs::WordBeforeLemmas::text_ends))]
fn strip_escape(text: &str, esc_char: Option<char>) -> Option<&str>
    ensures { MatchOption result (option_map_or (is_escape esc_char)
        (slice_get (reverse (chars text.now)) 0) false ≡ false)
        (λ front. (d : ℕ) × (text.now ≡ front.now ++ encode_utf8 d) × IsUtf8 front.now × IsScalar d
        × (is_escape esc_char d ≡ true)) }
{
    match split_last(text) {
        Some((front, last)) => {
            if is_escape(esc_char, last) {
                Some(front)
            } else {
                None
            }
        }
        None => None,
    }
}

/// The word that ends at a place in a line, and where it begins: after the last break character
/// before the place that isn't escaped, or at the line's start. A character directly after an
/// escape is escaped, and that escape isn't itself examined.
pub fn extract_word<F: Fn(char) -> bool + Drop>(
    line: &str,
    pos: usize,
    esc_char: Option<char>,
    is_break_char: F,
) -> (usize, &str)
    requires place { IsCharBoundary line.now pos }
    requires can { F.IsAlwaysCallable is_break_char }
    ensures start { (breaks : ℕ → Bool) → Tells (F.post is_break_char) breaks
        → result.0 ≡ word_start esc_char breaks (take pos line.now) }
    ensures word { result.1.now ≡ drop result.0 (take pos line.now) }
    ensures boundary { IsCharBoundary (take pos line.now) result.0 }
{
    let text = &line[..pos];
    let mut rest = text;
    while let Some((before, c)) = split_last(rest) {
        if is_break_char(c) {
            match strip_escape(before, esc_char) {
                Some(front) => rest = front,
                None => return (rest.len(), &text[rest.len()..]),
            }
        } else {
            rest = before;
        }
    }
    (0, text)
}
