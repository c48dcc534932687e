//! The place of a term in an entry.
ghost use Rattle.std.specs.Prelude.{◌≡◌, IfSome, IsCharBoundary};
ghost use Rattle.line_help.specs.Search.{hit_by};

/// The place of a term in an entry: where it begins. An anchored search finds it only at the
/// entry's start, and gives the place after it.
pub(crate) fn hit(anchored: bool, term: &str, entry: &str) -> Option<usize>
    ensures place { result ≡ hit_by anchored term.now entry.now }
    ensures boundary { IfSome result (λ pos. IsCharBoundary entry.now pos) }
{
    if !anchored {
        return entry.find(term);
    }
    if entry.starts_with(term) {
        Some(term.len())
    } else {
        None
    }
}
