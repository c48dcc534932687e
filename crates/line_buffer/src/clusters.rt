//! Counts grapheme clusters, up to a given number.

ghost use Rattle.std.specs.Prelude.{◌≡◌, ◌==◌, true, min, length, chars};
ghost use Rattle.unicode_segmentation.specs.Grapheme.{graphemes};

use unicode_segmentation::UnicodeSegmentation;

/// The number of clusters of a text, at most `most`.
pub fn clusters_up_to(text: &str, most: usize) -> usize
    ensures { result ≡ min most (length (graphemes true text.now)) }
{
    text.graphemes(true).take(most).count()
}

/// Whether the text is exactly one cluster.
#[tactic(auto, using(crate::proofs::ClusterLemmas::one_cluster))]
pub fn has_one_cluster(text: &str) -> bool
    ensures { result ≡ (length (graphemes true text.now) == 1) }
{
    if is_one_char(text) {
        return true;
    }
    let mut clusters = text.graphemes(true);
    clusters.next().is_some() && clusters.next().is_none()
}

fn is_one_char(text: &str) -> bool
    ensures { result ≡ true → length (chars text.now) ≡ 1 }
{
    match text.chars().next() {
        Some(first) => first.len_utf8() == text.len(),
        None => false,
    }
}
