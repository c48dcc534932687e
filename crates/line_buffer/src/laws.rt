//! Laws of the edits. Each is the contract of a function that does nothing.

ghost use Rattle.line_buffer.specs.Laws.{KillsWhatIsCopied, KeepsTheLongestThatFits, RowsGetTheirMargin};

/// A kill deletes exactly what a copy returns, for movements other than those to the ends of a row.
pub fn kills_what_is_copied()
    ensures { KillsWhatIsCopied }
{}

/// If the line can't grow, `update` keeps the longest prefix of the new text, in whole characters,
/// that fits the limit.
pub fn keeps_the_longest_that_fits()
    ensures { KeepsTheLongestThatFits }
{}

/// The events of `indent` give each row its margin, or remove as much whitespace at its front, and
/// change nothing else.
pub fn rows_get_their_margin()
    ensures { RowsGetTheirMargin }
{}
