//! A line with the record of its changes.
ghost use Rattle.std.specs.Prelude.{◌≡◌};
ghost use Rattle.line_buffer.specs.Printable.{is_plain};
ghost use Rattle.line_record.specs.Items.{ItemsStand, ItemsStand-prop, no_items};

use crate::plain::is_plain;
use line_buffer::LineBuffer;
use line_record::Changeset;

/// A line with the record of its changes.
///
/// The changes always fit the line's text, even after a call that failed.
#[derive(Drop)]
pub struct RecordedLine {
    pub line: LineBuffer,
    /// What can be undone.
    pub changes: Changeset,
    /// Whether the text is printable ASCII and newlines, so that a drawing needn't check again.
    pub plain: bool,
    ghost stand: { ItemsStand changes line.text } by { ItemsStand-prop changes line.text },
    ghost is_plain: { plain ≡ is_plain line.text },
}

impl RecordedLine {
    /// A line with no recorded changes.
    pub fn new(line: LineBuffer, changes: Changeset) -> Self
        requires { changes ≡ no_items }
        ensures line { result.line ≡ line }
        ensures changes { result.changes ≡ changes }
    {
        let plain = is_plain(line.as_str());
        RecordedLine {
            line,
            changes,
            plain,
        }
    }
}
