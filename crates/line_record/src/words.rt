//! Which deleted clusters are joined to the deletion before them.

ghost use Rattle.std.specs.Prelude.{◌≡◌};
ghost use Rattle.line_record.specs.Held as Held;

use line_buffer::{has_one_cluster, is_alphanumeric_cluster};

/// Whether the text is one extended grapheme cluster of alphanumeric characters.
pub(crate) fn is_one_alphanumeric(text: &str) -> bool
    ensures { result ≡ Held.is_one_alphanumeric text.now }
{
    has_one_cluster(text) && is_alphanumeric_cluster(text)
}
