//! The commands of the editor.

ghost use Rattle.std.specs.Prelude.{◌≡◌, IfOk, IfErr, IsSome};
ghost use Rattle.line_config.specs.declared.errors.ReadlineError.{ReadlineError};
ghost use Rattle.line_keys.specs.Commands.{movement_with_count};

use crate::texts::Text;
use line_buffer::{Anchor, Movement, RepeatCount};
use line_config::ReadlineError;
use std::alloc::Global;

/// A command, with readline's names.
#[derive(Debug, PartialEq, Eq, Drop)]
pub enum Cmd {
    /// abort
    Abort,
    /// accept-line
    AcceptLine,
    /// beginning-of-history
    BeginningOfHistory,
    /// capitalize-word
    CapitalizeWord,
    /// clear-screen
    ClearScreen,
    /// complete
    Complete,
    /// complete-backward
    CompleteBackward,
    /// complete-hint
    CompleteHint,
    /// Dedents the rows of a range.
    Dedent(Movement),
    /// downcase-word
    DowncaseWord,
    /// vi-eof-maybe
    EndOfFile,
    /// end-of-history
    EndOfHistory,
    /// forward-search-history
    ForwardSearchHistory,
    /// history-search-backward
    HistorySearchBackward,
    /// history-search-forward
    HistorySearchForward,
    /// Indents the rows of a range.
    Indent(Movement),
    /// Inserts a text `n` times.
    Insert(RepeatCount, Text),
    /// The signal that Ctrl-C sends.
    Interrupt,
    /// backward-delete-char, delete-char, kill-line, kill-word, unix-line-discard,
    /// unix-word-rubout, vi-delete-to
    Kill(Movement),
    /// backward-char, forward-char, backward-word, forward-word, beginning-of-line, end-of-line,
    /// vi-char-search
    Move(Movement),
    /// next-history
    NextHistory,
    Noop,
    /// Redraws the line.
    Repaint,
    /// Overwrites the cluster at the cursor.
    Overwrite(char),
    /// previous-history
    PreviousHistory,
    /// quoted-insert
    QuotedInsert,
    /// vi-change-char
    ReplaceChar(RepeatCount, char),
    /// vi-change-to: kills a range, and inserts the text that was typed over it, once that is
    /// known.
    Replace(Movement, Option<Text>),
    /// reverse-search-history
    ReverseSearchHistory,
    /// Vi's `n` and `N`: looks for the last searched text again. It acts only if the setting
    /// `modal_commands` is on.
    SearchAgain(SearchAgain),
    /// self-insert
    SelfInsert(RepeatCount, char),
    /// The signal that Ctrl-Z sends.
    Suspend,
    /// transpose-chars
    TransposeChars,
    /// transpose-words
    TransposeWords(RepeatCount),
    /// undo
    Undo(RepeatCount),
    /// A key without a meaning.
    Unknown,
    /// upcase-word
    UpcaseWord,
    /// vi-yank-to
    ViYankTo(Movement),
    /// yank, vi-put
    Yank(RepeatCount, Anchor),
    /// yank-pop
    YankPop,
    /// Moves up by n rows; in the first row, previous-history.
    LineUpOrPreviousHistory(RepeatCount),
    /// Moves down by n rows; in the last row, next-history.
    LineDownOrNextHistory(RepeatCount),
    /// Inserts a newline.
    Newline,
    /// Accepts a valid line, and inserts a newline into any other line.
    AcceptOrInsertLine {
        /// Whether a valid line is accepted even if text follows the cursor.
        accept_in_the_middle: bool,
    },
}

impl Cmd {
    ghost use Rattle.line_keys.specs.Commands.{flags_of, Copied};

    /// A copy of the command. Only its text takes memory.
    pub fn try_clone(&self, alloc: Global) -> Result<Self, ReadlineError>
        ensures { Copied self.now result }
    {
        let copy = match self {
            Cmd::Abort => Cmd::Abort,
            Cmd::AcceptLine => Cmd::AcceptLine,
            Cmd::BeginningOfHistory => Cmd::BeginningOfHistory,
            Cmd::CapitalizeWord => Cmd::CapitalizeWord,
            Cmd::ClearScreen => Cmd::ClearScreen,
            Cmd::Complete => Cmd::Complete,
            Cmd::CompleteBackward => Cmd::CompleteBackward,
            Cmd::CompleteHint => Cmd::CompleteHint,
            Cmd::Dedent(movement) => Cmd::Dedent(recounted(movement, None)),
            Cmd::DowncaseWord => Cmd::DowncaseWord,
            Cmd::EndOfFile => Cmd::EndOfFile,
            Cmd::EndOfHistory => Cmd::EndOfHistory,
            Cmd::ForwardSearchHistory => Cmd::ForwardSearchHistory,
            Cmd::HistorySearchBackward => Cmd::HistorySearchBackward,
            Cmd::HistorySearchForward => Cmd::HistorySearchForward,
            Cmd::Indent(movement) => Cmd::Indent(recounted(movement, None)),
            Cmd::Insert(n, text) => Cmd::Insert(*n, text.try_clone(alloc)?),
            Cmd::Interrupt => Cmd::Interrupt,
            Cmd::Kill(movement) => Cmd::Kill(recounted(movement, None)),
            Cmd::Move(movement) => Cmd::Move(recounted(movement, None)),
            Cmd::NextHistory => Cmd::NextHistory,
            Cmd::Noop => Cmd::Noop,
            Cmd::Repaint => Cmd::Repaint,
            Cmd::Overwrite(c) => Cmd::Overwrite(*c),
            Cmd::PreviousHistory => Cmd::PreviousHistory,
            Cmd::QuotedInsert => Cmd::QuotedInsert,
            Cmd::ReplaceChar(n, c) => Cmd::ReplaceChar(*n, *c),
            Cmd::Replace(movement, text) => Cmd::Replace(
                recounted(movement, None),
                copied(alloc, text)?,
            ),
            Cmd::ReverseSearchHistory => Cmd::ReverseSearchHistory,
            Cmd::SearchAgain(way) => Cmd::SearchAgain(*way),
            Cmd::SelfInsert(n, c) => Cmd::SelfInsert(*n, *c),
            Cmd::Suspend => Cmd::Suspend,
            Cmd::TransposeChars => Cmd::TransposeChars,
            Cmd::TransposeWords(n) => Cmd::TransposeWords(*n),
            Cmd::Undo(n) => Cmd::Undo(*n),
            Cmd::Unknown => Cmd::Unknown,
            Cmd::UpcaseWord => Cmd::UpcaseWord,
            Cmd::ViYankTo(movement) => Cmd::ViYankTo(recounted(movement, None)),
            Cmd::Yank(n, anchor) => Cmd::Yank(*n, *anchor),
            Cmd::YankPop => Cmd::YankPop,
            Cmd::LineUpOrPreviousHistory(n) => Cmd::LineUpOrPreviousHistory(*n),
            Cmd::LineDownOrNextHistory(n) => Cmd::LineDownOrNextHistory(*n),
            Cmd::Newline => Cmd::Newline,
            Cmd::AcceptOrInsertLine {
                accept_in_the_middle,
            } => Cmd::AcceptOrInsertLine {
                accept_in_the_middle: *accept_in_the_middle,
            },
        };
        Ok(copy)
    }

    /// Whether the kill ring is reset before this command: a run of kills ends, and a yanked text
    /// can't be replaced any more.
    pub const fn should_reset_kill_ring(&self) -> bool
        ensures { result ≡ (flags_of self.now).resets_ring }
    {
        match self {
            Cmd::Kill(Movement::BackwardChar(_) | Movement::ForwardChar(_)) => true,
            Cmd::ClearScreen
            | Cmd::Kill(_)
            | Cmd::Replace(..)
            | Cmd::Noop
            | Cmd::Suspend
            | Cmd::Yank(..)
            | Cmd::YankPop => false,
            _ => true,
        }
    }

    /// Whether the command changes the text in a way that Vi's `.` can repeat.
    pub const fn is_repeatable_change(&self) -> bool
        ensures { result ≡ (flags_of self.now).is_change }
    {
        matches!(
            self,
            Cmd::Dedent(_)
                | Cmd::Indent(_)
                | Cmd::Insert(..)
                | Cmd::Kill(_)
                | Cmd::ReplaceChar(..)
                | Cmd::Replace(..)
                | Cmd::SelfInsert(..)
                | Cmd::ViYankTo(_)
                | Cmd::Yank(..)
        )
    }

    /// Whether the command can be repeated: a move, or a change that Vi's `.` repeats.
    pub const fn is_repeatable(&self) -> bool
        ensures { result ≡ (flags_of self.now).repeats }
    {
        match self {
            Cmd::Move(_) => true,
            _ => self.is_repeatable_change(),
        }
    }
}

/// A copy of a text, if there is one.
fn copied(alloc: Global, text: &Option<Text>) -> Result<Option<Text>, ReadlineError>
    ensures ok { IfOk result (λ t. t ≡ text.now) }
    ensures err { IfErr result (λ e. (e ≡ ReadlineError.Memory) × IsSome text.now) }
{
    match text {
        Some(text) => Ok(Some(text.try_clone(alloc)?)),
        None => Ok(None),
    }
}

/// The movement with a new count, if one is given and the movement has a count.
pub(crate) fn recounted(movement: &Movement, new: Option<RepeatCount>) -> Movement
    ensures { result ≡ movement_with_count new movement.now }
{
    match movement {
        Movement::WholeLine => Movement::WholeLine,
        Movement::BeginningOfLine => Movement::BeginningOfLine,
        Movement::EndOfLine => Movement::EndOfLine,
        Movement::BackwardWord(n, word) => Movement::BackwardWord(new.unwrap_or(*n), *word),
        Movement::ForwardWord(n, at, word) => Movement::ForwardWord(new.unwrap_or(*n), *at, *word),
        Movement::ViCharSearch(n, search) => Movement::ViCharSearch(new.unwrap_or(*n), *search),
        Movement::ViFirstPrint => Movement::ViFirstPrint,
        Movement::BackwardChar(n) => Movement::BackwardChar(new.unwrap_or(*n)),
        Movement::ForwardChar(n) => Movement::ForwardChar(new.unwrap_or(*n)),
        Movement::LineUp(n) => Movement::LineUp(new.unwrap_or(*n)),
        Movement::LineDown(n) => Movement::LineDown(new.unwrap_or(*n)),
        Movement::WholeBuffer => Movement::WholeBuffer,
        Movement::BeginningOfBuffer => Movement::BeginningOfBuffer,
        Movement::EndOfBuffer => Movement::EndOfBuffer,
    }
}

/// In which direction the history is searched again.
#[derive(Clone, Copy, Debug, PartialEq, Eq)]
pub enum SearchAgain {
    /// That of the last search.
    Same,
    /// The other one.
    Opposite,
}

/// Why a line is redrawn.
#[derive(Clone, Copy, Debug, PartialEq, Eq)]
pub enum CmdKind {
    /// The cursor moved.
    MoveCursor,
    Other,
    /// The last drawing of a line, without a hint and without a highlighted bracket.
    ForcedRefresh,
}

/// What Vi does with a typed character.
#[derive(Clone, Copy, PartialEq, Eq)]
pub enum InputMode {
    /// It is a command.
    Command,
    /// It is inserted.
    Insert,
    /// It overwrites the text.
    Replace,
}
