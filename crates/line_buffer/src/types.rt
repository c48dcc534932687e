//! The types in which edits and motions are expressed.

/// How often a motion or an edit is repeated.
pub type RepeatCount = u16;

/// What counts as a word.
#[derive(Clone, Copy, Debug, PartialEq, Eq)]
pub enum Word {
    /// A run of clusters without whitespace, as in Vi's `W`.
    Big,
    /// A run of alphanumeric clusters, as in Emacs and readline.
    Emacs,
    /// A run of alphanumeric clusters and `_`, or a run of other clusters without whitespace, as in
    /// Vi's `w`.
    Vi,
}

/// Where a motion to a later word ends.
#[derive(Clone, Copy, Debug, PartialEq, Eq)]
pub enum At {
    /// At the start of the word.
    Start,
    /// At the last cluster of the word.
    BeforeEnd,
    /// Right after the word.
    AfterEnd,
}

/// Where a text is pasted: after or before the cursor.
#[derive(Clone, Copy, Debug, PartialEq, Eq)]
pub enum Anchor {
    After,
    Before,
}

/// A search for a character, like Vi's `f`, `t`, `F` and `T`.
#[derive(Clone, Copy, Debug, PartialEq, Eq)]
pub enum CharSearch {
    /// To the character.
    Forward(char),
    /// To right before the character.
    ForwardBefore(char),
    /// Back to the character.
    Backward(char),
    /// Back to right after the character.
    BackwardAfter(char),
}

/// A part of the text, or a place, relative to the cursor. Rows end at newlines.
#[derive(Clone, Copy, Debug, PartialEq, Eq)]
pub enum Movement {
    WholeLine,
    BeginningOfLine,
    EndOfLine,
    BackwardWord(RepeatCount, Word),
    ForwardWord(RepeatCount, At, Word),
    ViCharSearch(RepeatCount, CharSearch),
    ViFirstPrint,
    BackwardChar(RepeatCount),
    ForwardChar(RepeatCount),
    LineUp(RepeatCount),
    LineDown(RepeatCount),
    WholeBuffer,
    BeginningOfBuffer,
    EndOfBuffer,
}

/// How the letters of a word change.
#[derive(Clone, Copy, Debug, PartialEq, Eq)]
pub enum WordAction {
    Capitalize,
    Lowercase,
    Uppercase,
}

/// The direction of a deletion, seen from the cursor.
#[derive(Clone, Copy, Debug, PartialEq, Eq)]
pub enum Direction {
    Forward,
    Backward,
}

/// At which end a killed text joins the one killed before it.
#[derive(Clone, Copy, Debug, PartialEq, Eq)]
pub enum Mode {
    Append,
    Prepend,
}
