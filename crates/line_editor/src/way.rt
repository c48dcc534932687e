//! How a change of a line is shown.

/// How a change is shown if the line is bare before it and after it.
#[derive(Clone, Copy, Debug, PartialEq, Eq)]
pub enum Way {
    /// At the end of the line, by a byte alone or by an erasure.
    AtEnd,
    /// At the end of the line, by the drawing of the new character alone.
    Alone,
    /// At the end of the line, by erasing the cells of this character alone.
    Back(char),
    /// Before the end of the line: the characters after it move.
    Inside,
    /// By a whole drawing.
    Whole,
}
