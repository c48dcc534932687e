//! The common prefix of candidates.
ghost use Rattle.std.specs.Prelude.{◌≡◌, ◌≤◌, length, map, nat_eq, option_copied};
ghost use Rattle.std.specs.List.{common_prefix_len};
ghost use Rattle.line_help.specs.Completion.{common_beginning, longest_common_prefix};

use crate::completion::Candidate;

/// The length of the common prefix of two texts, in bytes.
#[tactic(auto, using(crate::proofs::CommonPrefixLemmas::behind_other))]
fn common_len(text: &[u8], other: &[u8]) -> usize
    ensures value { result ≡ common_prefix_len nat_eq text.now other.now }
    ensures bound { result ≤ length text.now }
{
    let mut len = 0;
    while len < text.len() && len < other.len() && text[len] == other[len] {
        len += 1;
    }
    len
}

/// The common prefix of two texts, in whole characters.
#[tactic(auto, using(crate::proofs::CommonPrefixLemmas::cut_at_floor))]
fn common_beginning<'t>(text: &'t str, other: &str) -> &'t str
    ensures { result.now ≡ common_beginning text.now other.now }
{
    let len = common_len(text.as_bytes(), other.as_bytes());
    let end = text.floor_char_boundary(len);
    &text[..end]
}

/// The common prefix of all replacements, in whole characters, or `None` if it is empty. For a
/// single candidate it is its replacement.
#[tactic(auto, using(crate::proofs::CommonPrefixLemmas::prefixes))]
pub fn longest_common_prefix<C: Candidate>(candidates: &[C]) -> Option<&str>
    ensures { option_copied result ≡ longest_common_prefix
        (map (λ c. (C.offers c).replacement) candidates.now) }
{
    let (first, others) = candidates.split_first()?;
    let mut common = first.replacement();
    if others.is_empty() {
        return Some(common);
    }
    for other in others {
        common = common_beginning(common, other.replacement());
    }
    if common.is_empty() {
        None
    } else {
        Some(common)
    }
}
