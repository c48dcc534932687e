//! Motions by words: readline's, and vi's `b`, `w` and `e` with their uppercase forms.
//!
//! A word is a run of clusters of one kind. Places are in bytes. A motion stops at the n-th place
//! at which it can stop, or at the last one if there are fewer.

ghost use Rattle.std.specs.Prelude.{◌≡◌, ◌-◌, ◌<◌, ◌≤◌, length, take, drop, reverse, is_some, slice_get, IfSome, MatchOption, None, true, IsCharBoundary};
ghost use Rattle.std.specs.List.{last_or, list_all};
ghost use Rattle.unicode_segmentation.specs.Segments as Segments;
ghost use Rattle.line_buffer.specs.Clusters.{clusters, nth_or_last};
ghost use Rattle.line_buffer.specs.Line.{with_cursor_at};
ghost use Rattle.line_buffer.specs.Words as Words;
ghost use Rattle.line_buffer.specs.declared.types.At.TheVariants.{Start, BeforeEnd};
ghost use Rattle.line_buffer.specs.declared.types.Word.TheVariants.{Big, Emacs, Vi};

use crate::line_buffer::LineBuffer;
use crate::motion::{nth_cluster, nth_cluster_back};
use crate::printable::Printable;
use crate::runs::{ByteClass, run_from, run_upto};
use crate::types::{At, RepeatCount, Word};
use unicode::properties::{GeneralCategory, is_alphabetic};
use unicode_segmentation::UnicodeSegmentation;

/// How a cluster relates to the words around it.
#[derive(Clone, Copy, Debug, PartialEq, Eq)]
enum ClusterKind {
    Blank,
    InWord,
    Other,
}

/// A character of Emacs and readline words: Alphabetic, or a number (Nd, Nl, No).
pub fn is_alphanumeric(c: char) -> bool
    ensures { result ≡ Segments.is_alphanumeric c }
{
    if c.is_ascii() {
        return c.is_ascii_alphanumeric();
    }
    is_alphabetic(c)
        || matches!(
            GeneralCategory::for_char(c),
            GeneralCategory::DecimalNumber
                | GeneralCategory::LetterNumber
                | GeneralCategory::OtherNumber
        )
}

/// Whether all characters of the cluster are alphanumeric.
pub fn is_alphanumeric_cluster(cluster: &str) -> bool
    ensures { result ≡ Words.is_alphanumeric_cluster cluster.now }
{
    cluster.chars().all(|c| is_alphanumeric(c))
}

/// Whether no character of the cluster is whitespace.
fn has_no_whitespace(cluster: &str) -> bool
    ensures { result ≡ Words.has_no_whitespace cluster.now }
{
    cluster.chars().all(|c| !c.is_whitespace())
}

/// The kind of the cluster for a motion by such words.
fn kind_of(word: Word, cluster: &str) -> ClusterKind
    ensures { result ≡ Words.kind_of word cluster.now }
{
    match word {
        Word::Emacs if is_alphanumeric_cluster(cluster) => ClusterKind::InWord,
        Word::Emacs => ClusterKind::Blank,
        Word::Big if has_no_whitespace(cluster) => ClusterKind::InWord,
        Word::Big => ClusterKind::Blank,
        Word::Vi if is_alphanumeric_cluster(cluster) || cluster == "_" => ClusterKind::InWord,
        Word::Vi if has_no_whitespace(cluster) => ClusterKind::Other,
        Word::Vi => ClusterKind::Blank,
    }
}

/// Whether a word starts between clusters of these kinds.
fn starts_between(left: ClusterKind, right: ClusterKind) -> bool
    ensures { result ≡ Words.starts_between left right }
{
    right != ClusterKind::Blank && left != right
}

/// The place between two neighbours at which a motion stops, if it does. Each neighbour is a
/// cluster's place and kind.
fn edge_between(at: At, left: (usize, ClusterKind), right: (usize, ClusterKind)) -> Option<usize>
    ensures { result ≡ Words.edge_between at left right }
{
    match at {
        At::Start if starts_between(left.1, right.1) => Some(right.0),
        At::BeforeEnd if starts_between(right.1, left.1) => Some(left.0),
        At::AfterEnd if starts_between(right.1, left.1) => Some(right.0),
        _ => None,
    }
}

/// The bytes of ASCII in words of Emacs: letters and digits.
struct InEmacsWord;

impl ByteClass for InEmacsWord {
    ghost class = { Words.is_word_byte Emacs };

    fn has(byte: u8) -> bool {
        byte.is_ascii_alphanumeric()
    }
}

/// The bytes of ASCII in big words: all that are visible.
struct InBigWord;

impl ByteClass for InBigWord {
    ghost class = { Words.is_word_byte Big };

    fn has(byte: u8) -> bool {
        byte.is_ascii_graphic()
    }
}

/// The bytes of ASCII in words of Vi: letters, digits and `_`.
struct InViWord;

impl ByteClass for InViWord {
    ghost class = { Words.is_word_byte Vi };

    fn has(byte: u8) -> bool {
        byte.is_ascii_alphanumeric() || byte == b'_'
    }
}

/// Where the bytes of a word at the end of the bytes begin.
fn word_from(word: Word, bytes: &[u8]) -> usize
    ensures bound { result ≤ length bytes.now }
    ensures run { list_all (Words.is_word_byte word) (drop result bytes.now) ≡ true }
{
    match word {
        Word::Emacs => run_from::<InEmacsWord>(bytes),
        Word::Big => run_from::<InBigWord>(bytes),
        Word::Vi => run_from::<InViWord>(bytes),
    }
}

/// How far the bytes of a word at the front of the bytes reach.
fn word_upto(word: Word, bytes: &[u8]) -> usize
    ensures bound { result ≤ length bytes.now }
    ensures run { list_all (Words.is_word_byte word) (take result bytes.now) ≡ true }
{
    match word {
        Word::Emacs => run_upto::<InEmacsWord>(bytes),
        Word::Big => run_upto::<InBigWord>(bytes),
        Word::Vi => run_upto::<InViWord>(bytes),
    }
}

/// The last clusters of a text, of one kind: where they start, and the kind. The bytes of a word
/// are clusters each, except the first if it may be joined to what stands before it.
fn last_run(text: &str, word: Word) -> Option<(usize, ClusterKind)>
    ensures { MatchOption result (length text.now ≡ 0)
        (λ run. Words.EndsInRun word text.now run.0 run.1) }
{
    let bytes = text.as_bytes();
    let start = word_from(word, bytes);
    if 0 < start && start < bytes.len() && Printable::has(bytes[start - 1]) {
        return Some((start, ClusterKind::InWord));
    }
    if start + 1 < bytes.len() {
        return Some((start + 1, ClusterKind::InWord));
    }
    let (start, cluster) = nth_cluster_back(text, 1)?;
    Some((start, kind_of(word, cluster)))
}

/// The n-th start of a word, counted back from the text's end.
fn nth_start_back(text: &str, word: Word, n: RepeatCount) -> Option<usize>
    requires { 0 < n }
    ensures { result ≡ slice_get (reverse (Words.edges_of Start
        (Words.kinds word (clusters text.now)))) (n - 1) }
{
    let mut end = text.len();
    let mut right = ClusterKind::Blank;
    let mut missing = n;
    while let Some((start, kind)) = last_run(&text[..end], word) {
        if let Some(place) = edge_between(At::Start, (start, kind), (end, right)) {
            missing -= 1;
            if missing == 0 {
                return Some(place);
            }
        }
        end = start;
        right = kind;
    }
    None
}

/// The first clusters of a text, of one kind: where the last of them starts and ends, and the kind.
/// The bytes of a word are clusters each, except the last if what follows may be joined to it.
fn first_run(text: &str, word: Word) -> Option<(usize, usize, ClusterKind)>
    ensures { MatchOption result (length text.now ≡ 0)
        (λ run. Words.BeginsInRun word text.now run.0 run.1 run.2) }
{
    let bytes = text.as_bytes();
    let count = word_upto(word, bytes);
    if 0 < count && count < bytes.len() && Printable::has(bytes[count]) {
        return Some((count - 1, count, ClusterKind::InWord));
    }
    if count > 1 {
        return Some((count - 2, count - 1, ClusterKind::InWord));
    }
    let (_, cluster) = nth_cluster(text, 1)?;
    Some((0, cluster.len(), kind_of(word, cluster)))
}

/// The n-th place at which such a motion stops inside the text behind a place.
fn nth_edge(text: &str, from: usize, at: At, word: Word, n: RepeatCount) -> Option<usize>
    requires boundary { IsCharBoundary text.now from }
    requires some { 0 < n }
    ensures { result ≡ slice_get (Words.edges_of at
        (Words.kinds word (Words.clusters_at from (drop from text.now)))) (n - 1) }
{
    let (last, end, kind) = first_run(&text[from..], word)?;
    let mut left = (from + last, kind);
    let mut place = from + end;
    let mut missing = n;
    while let Some((last, end, kind)) = first_run(&text[place..], word) {
        if let Some(found) = edge_between(at, left, (place, kind)) {
            missing -= 1;
            if missing == 0 {
                return Some(found);
            }
        }
        left = (place + last, kind);
        place += end;
    }
    None
}

/// The n-th last cluster of a word behind the text's first cluster.
fn nth_last(text: &str, word: Word, n: RepeatCount) -> Option<usize>
    requires { 0 < n }
    ensures { result ≡ slice_get (Words.edges_of BeforeEnd
        (Words.kinds word (drop 1 (clusters text.now)))) (n - 1) }
{
    let (_, first) = nth_cluster(text, 1)?;
    nth_edge(text, first.len(), At::BeforeEnd, word, n)
}

/// The n-th place inside the text at which a motion over it stops.
fn nth_inner_stop(text: &str, at: At, word: Word, n: RepeatCount) -> Option<usize>
    requires { 0 < n }
    ensures { result ≡ slice_get (Words.inner_stops at word text.now) (n - 1) }
{
    match (at, word) {
        (At::BeforeEnd, Word::Emacs) => nth_edge(text, 0, At::AfterEnd, word, n),
        (At::BeforeEnd, Word::Big) => nth_last(text, word, n),
        (At::BeforeEnd, Word::Vi) => nth_last(text, word, n),
        _ => nth_edge(text, 0, at, word, n),
    }
}

/// Where a motion over the text stops at last.
fn last_stop(text: &str, at: At, word: Word) -> Option<usize>
    ensures { result ≡ last_or None (Words.last_stop at word text.now) }
{
    if at == At::AfterEnd || word == Word::Emacs {
        return if text.is_empty() {
            None
        } else {
            Some(text.len())
        };
    }
    let mut clusters = text.grapheme_indices(true);
    clusters.next();
    match clusters.next_back() {
        Some((i, _)) => Some(i),
        None => None,
    }
}

/// Where a motion to the n-th later word stops in the text after the cursor.
fn next_stop(text: &str, at: At, word: Word, n: RepeatCount) -> Option<usize>
    ensures value { result ≡ nth_or_last n (Words.stops_forward at word text.now) }
    ensures boundary { IfSome result (λ i. IsCharBoundary text.now i) }
{
    if n == 0 {
        return None;
    }
    match nth_inner_stop(text, at, word, n) {
        Some(i) => Some(i),
        None => last_stop(text, at, word),
    }
}

/// Where a motion to the n-th earlier word stops in the text before the cursor.
fn prev_stop(text: &str, word: Word, n: RepeatCount) -> Option<usize>
    ensures value { result ≡ nth_or_last n (Words.stops_back word text.now) }
    ensures boundary { IfSome result (λ i. IsCharBoundary text.now i) }
{
    if n == 0 || text.is_empty() {
        return None;
    }
    match nth_start_back(text, word, n) {
        Some(i) => Some(i),
        None => Some(0),
    }
}

impl LineBuffer {
    /// The place of the n-th earlier word, if there is one.
    pub(crate) fn prev_word_pos(&self, word: Word, n: RepeatCount) -> Option<usize>
        ensures value { result ≡ Words.prev_word word n self.now }
        ensures boundary { IfSome result (λ i. IsCharBoundary self.now.text i) }
        ensures earlier { IfSome result (λ i. i ≤ self.now.place) }
    {
        prev_stop(&self.buf[..self.pos], word, n)
    }

    /// The place of the n-th later word, if there is one.
    pub(crate) fn next_word_pos(&self, at: At, word: Word, n: RepeatCount) -> Option<usize>
        ensures value { result ≡ Words.next_word at word n self.now }
        ensures boundary { IfSome result (λ i. IsCharBoundary self.now.text i) }
        ensures later { IfSome result (λ i. self.now.place ≤ i) }
    {
        match next_stop(&self.buf[self.pos..], at, word, n) {
            Some(i) => Some(self.pos + i),
            None => None,
        }
    }

    /// Moves the cursor to the start of the n-th earlier word, or to the text's start. Returns
    /// false if it doesn't move.
    pub fn move_to_prev_word(&mut self, word: Word, n: RepeatCount) -> bool
        ensures answer { result ≡ is_some (Words.prev_word word n self.old) }
        ensures line { self.new ≡ with_cursor_at (Words.prev_word word n self.old) self.old }
    {
        let found = self.prev_word_pos(word, n);
        self.move_to_found(found)
    }

    /// Moves the cursor to the n-th later word, or as far as the text goes. Returns false if it
    /// doesn't move.
    pub fn move_to_next_word(&mut self, at: At, word: Word, n: RepeatCount) -> bool
        ensures answer { result ≡ is_some (Words.next_word at word n self.old) }
        ensures line { self.new ≡ with_cursor_at (Words.next_word at word n self.old) self.old }
    {
        let found = self.next_word_pos(at, word, n);
        self.move_to_found(found)
    }
}
