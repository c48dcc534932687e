//! Tests whether a text is plain: of a whole one, of a character, and of a line without a range.
#![tactic(auto, using(crate::proofs::PlainLemmas::char_is_plain, crate::proofs::PlainLemmas::without_is))]

ghost use Rattle.std.specs.Prelude.{◌≡◌, ◌≤◌, [], encode_utf8, IsCharBoundary};
ghost use Rattle.std.specs.List.{replace_range};
ghost use Rattle.line_buffer.specs.Printable.{is_plain};

use crate::recorded_line::RecordedLine;
pub use line_buffer::is_plain;
use line_buffer::is_printable;

/// Whether a character is printable ASCII or a newline.
pub(crate) fn is_plain_char(ch: char) -> bool
    ensures { result ≡ is_plain (encode_utf8 ch) }
{
    ch == '\n' || is_printable(ch)
}

impl RecordedLine {
    /// Whether the text is plain without a range. If that range is plain, this is as it was for the
    /// whole text, and what is left isn't read.
    #[inline]
    pub(crate) fn is_plain_without(&self, from: usize, upto: usize) -> bool
        requires order { from ≤ upto }
        requires start { IsCharBoundary self.now.line.text from }
        requires end { IsCharBoundary self.now.line.text upto }
        ensures { result ≡ is_plain (replace_range self.now.line.text from upto []) }
    {
        let text = self.line.as_str();
        if self.plain || is_plain(&text[from..upto]) {
            return self.plain;
        }
        is_plain(&text[..from]) && is_plain(&text[upto..])
    }
}
