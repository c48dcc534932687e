//! The rows of Vi's tables.

ghost use Rattle.std.specs.Prelude.{◌≡◌, ℕ, None, option_map, true};
ghost use Rattle.line_keys.specs.Tables.{look};
ghost use Rattle.line_keys.specs.ViTables.{action_of, insert_action, vi_edit_rows, vi_move_rows};
ghost use Rattle.line_keys.specs.ViTables.{vi_reading_rows, vi_turn_rows};
ghost use Rattle.line_keys.specs.declared.command.Cmd.TheVariants.{Replace, Unknown};
ghost use Rattle.line_keys.specs.declared.command.InputMode.TheVariants.{Insert};
ghost use Rattle.line_keys.specs.declared.keymap.vi.table.ViAction.TheVariants.{Give, Turn};

use crate::command::{Cmd, InputMode, SearchAgain};
use crate::flags::Modifiers;
use crate::key::{KeyCode, KeyEvent};
use crate::keymap::vi::motion::Search;
use crate::refresh::Refresher;
use line_buffer::{Anchor, At, Movement, RepeatCount, Word};

/// The action of a key in command mode.
#[derive(Drop)]
pub enum ViAction {
    /// Gives a command.
    Give(Cmd),
    /// Switches to insert mode, notifies the display, and gives a command.
    Insert(Cmd),
    /// Switches to a mode and gives a command, which itself starts a group of undo.
    Turn(InputMode, Cmd),
    /// Combines with the motion after it. A change switches to insert mode before its motion is
    /// read.
    Operate(Operator),
    /// Moves to the next typed character.
    Search(Search),
    /// Moves by the last search again.
    Again,
    /// Moves by the last search in the other direction.
    Back,
    /// Repeats the last change.
    Repeat,
    /// Replaces the characters under the cursor by the next typed one.
    Replace,
}

/// An operator, which is followed by a motion.
#[derive(Clone, Copy, PartialEq, Eq)]
pub enum Operator {
    Change,
    Delete,
    Yank,
    Dedent,
    Indent,
}

impl Operator {
    ghost use Rattle.line_keys.specs.Vi.{command_of};
    ghost use Rattle.std.specs.Option.{option_map_or};

    /// The operator's command for a motion.
    pub(crate) fn command(self, motion: Option<Movement>) -> Cmd
        ensures { result ≡ option_map_or (command_of self) motion Unknown }
    {
        let Some(movement) = motion else {
            return Cmd::Unknown;
        };
        match self {
            Operator::Change => Cmd::Replace(movement, None),
            Operator::Delete => Cmd::Kill(movement),
            Operator::Yank => Cmd::ViYankTo(movement),
            Operator::Dedent => Cmd::Dedent(movement),
            Operator::Indent => Cmd::Indent(movement),
        }
    }
}

/// The action of a key in insert and replace mode.
#[derive(Drop)]
pub enum InsertAction {
    /// Gives a command.
    Give(Cmd),
    /// Types a character; in replace mode it overwrites the one at the cursor.
    Typed(char),
    /// Switches to command mode, notifies the display, and gives a command.
    Leave(Cmd),
    /// Switches to command mode in the same way, where this character's key is then read.
    Command(char),
}

/// The rows of insert and replace mode. `modal` says whether the commands act that go on over
/// several keys.
#[tactic(auto, unfolding(crate::specs::ViTables::insert_action))]
pub(crate) fn vi_insert_row<W: Refresher>(
    modal: bool,
    wrt: &W,
    key: KeyEvent,
) -> Option<InsertAction>
    ensures { result ≡ insert_action modal (W.display.shown wrt.now) key }
{
    use InsertAction as D;
    use KeyCode as K;
    use KeyEvent as E;
    use Modifiers as M;

    match key {
        E(K::Char(c), M::NONE) => Some(D::Typed(c)),
        E(K::Char('H'), M::CTRL) | E::BACKSPACE => {
            Some(D::Give(Cmd::Kill(Movement::BackwardChar(1))))
        }
        E(K::Char('I'), M::CTRL) | E(K::Tab, M::NONE) => Some(D::Give(Cmd::Complete)),
        E(K::BackTab, M::NONE) => Some(D::Give(Cmd::CompleteBackward)),
        // A hint is accepted if the cursor is right before it.
        E(K::Right, M::NONE) if wrt.has_hint() && wrt.is_cursor_at_end() => {
            Some(D::Give(Cmd::CompleteHint))
        }
        E(K::Char('G'), M::CTRL) if modal => Some(D::Give(Cmd::Abort)),
        E::ESC => Some(D::Leave(Cmd::Move(Movement::BackwardChar(1)))),
        E(K::Char(c), M::ALT) => Some(D::Command(c)),
        _ => None,
    }
}

/// The rows of motions.
fn vi_move_row(key: KeyEvent, n: RepeatCount) -> Option<Cmd>
    ensures { option_map Give result ≡ look n true key vi_move_rows }
{
    use KeyCode as K;
    use KeyEvent as E;
    use Modifiers as M;

    match key {
        E(K::Char('$') | K::End, M::NONE) => Some(Cmd::Move(Movement::EndOfLine)),
        E(K::Char('0'), M::NONE) => Some(Cmd::Move(Movement::BeginningOfLine)),
        E(K::Char('^'), M::NONE) => Some(Cmd::Move(Movement::ViFirstPrint)),
        E(K::Char('b'), M::NONE) => Some(Cmd::Move(Movement::BackwardWord(n, Word::Vi))),
        E(K::Char('B'), M::NONE) => Some(Cmd::Move(Movement::BackwardWord(n, Word::Big))),
        E(K::Char('e'), M::NONE) => {
            Some(Cmd::Move(Movement::ForwardWord(n, At::BeforeEnd, Word::Vi)))
        }
        E(K::Char('E'), M::NONE) => {
            Some(Cmd::Move(Movement::ForwardWord(n, At::BeforeEnd, Word::Big)))
        }
        E(K::Char('w'), M::NONE) => {
            Some(Cmd::Move(Movement::ForwardWord(n, At::Start, Word::Vi)))
        }
        E(K::Char('W'), M::NONE) => {
            Some(Cmd::Move(Movement::ForwardWord(n, At::Start, Word::Big)))
        }
        E(K::Char('h'), M::NONE) | E(K::Char('H'), M::CTRL) | E::BACKSPACE => {
            Some(Cmd::Move(Movement::BackwardChar(n)))
        }
        E(K::Char('l' | ' '), M::NONE) => Some(Cmd::Move(Movement::ForwardChar(n))),
        E(K::Char('+' | 'j'), M::NONE) => Some(Cmd::LineDownOrNextHistory(n)),
        E(K::Char('-' | 'k'), M::NONE) => Some(Cmd::LineUpOrPreviousHistory(n)),
        _ => None,
    }
}

/// The rows of edits without a motion, and other rows.
fn vi_edit_row(modal: bool, key: KeyEvent, n: RepeatCount) -> Option<Cmd>
    ensures { option_map Give result ≡ look n true key (vi_edit_rows modal) }
{
    use KeyCode as K;
    use KeyEvent as E;
    use Modifiers as M;

    match key {
        E(K::Char('D'), M::NONE) | E(K::Char('K'), M::CTRL) => {
            Some(Cmd::Kill(Movement::EndOfLine))
        }
        E(K::Char('p'), M::NONE) => Some(Cmd::Yank(n, Anchor::After)),
        E(K::Char('P'), M::NONE) => Some(Cmd::Yank(n, Anchor::Before)),
        E(K::Char('u'), M::NONE) => Some(Cmd::Undo(n)),
        E(K::Char('n'), M::NONE) if modal => Some(Cmd::SearchAgain(SearchAgain::Same)),
        E(K::Char('N'), M::NONE) if modal => Some(Cmd::SearchAgain(SearchAgain::Opposite)),
        E(K::Char('x'), M::NONE) => Some(Cmd::Kill(Movement::ForwardChar(n))),
        E(K::Char('X'), M::NONE) => Some(Cmd::Kill(Movement::BackwardChar(n))),
        E(K::Char('G'), M::CTRL) => Some(Cmd::Abort),
        E(K::Char('L'), M::CTRL) => Some(Cmd::ClearScreen),
        E(K::Char('N'), M::CTRL) => Some(Cmd::NextHistory),
        E(K::Char('P'), M::CTRL) => Some(Cmd::PreviousHistory),
        E::ESC => Some(Cmd::Noop),
        _ => None,
    }
}

/// The rows whose keys leave command mode.
fn vi_turn_row(modal: bool, key: KeyEvent, n: RepeatCount) -> Option<ViAction>
    ensures { result ≡ look n true key (vi_turn_rows modal) }
{
    use KeyCode as K;
    use KeyEvent as E;
    use Modifiers as M;

    match key {
        E(K::Char('a'), M::NONE) => Some(ViAction::Insert(Cmd::Move(Movement::ForwardChar(n)))),
        E(K::Char('A'), M::NONE) => Some(ViAction::Insert(Cmd::Move(Movement::EndOfLine))),
        E(K::Char('i'), M::NONE) => Some(ViAction::Insert(Cmd::Noop)),
        E(K::Char('I'), M::NONE) => Some(ViAction::Insert(Cmd::Move(Movement::BeginningOfLine))),
        E(K::Char('C'), M::NONE) => Some(replacing(Movement::EndOfLine)),
        E(K::Char('s'), M::NONE) => Some(replacing(Movement::ForwardChar(n))),
        E(K::Char('S'), M::NONE) => Some(replacing(Movement::WholeLine)),
        E(K::Char('R'), M::NONE) => {
            let cmd = Cmd::Replace(Movement::ForwardChar(0), None);
            Some(ViAction::Turn(InputMode::Replace, cmd))
        }
        E(K::Char('R'), M::CTRL) => {
            Some(ViAction::Turn(InputMode::Insert, Cmd::ReverseSearchHistory))
        }
        E(K::Char('S'), M::CTRL) => {
            Some(ViAction::Turn(InputMode::Insert, Cmd::ForwardSearchHistory))
        }
        E(K::Char('/'), M::NONE) if modal => {
            Some(ViAction::Turn(InputMode::Insert, Cmd::ReverseSearchHistory))
        }
        E(K::Char('?'), M::NONE) if modal => {
            Some(ViAction::Turn(InputMode::Insert, Cmd::ForwardSearchHistory))
        }
        _ => None,
    }
}

/// Switches to insert mode, where typed text replaces the range.
fn replacing(range: Movement) -> ViAction
    ensures { result ≡ Turn Insert (Replace range None) }
{
    ViAction::Turn(InputMode::Insert, Cmd::Replace(range, None))
}

/// The rows of keys after which more is read, or which use the last search or change.
fn vi_reading_row(key: KeyEvent) -> Option<ViAction>
    ensures { (n : ℕ) → result ≡ look n true key vi_reading_rows }
{
    let KeyEvent(KeyCode::Char(c), Modifiers::NONE) = key else {
        return None;
    };
    match c {
        'c' => Some(ViAction::Operate(Operator::Change)),
        'd' => Some(ViAction::Operate(Operator::Delete)),
        'y' => Some(ViAction::Operate(Operator::Yank)),
        '<' => Some(ViAction::Operate(Operator::Dedent)),
        '>' => Some(ViAction::Operate(Operator::Indent)),
        'f' => Some(ViAction::Search(Search::Forward)),
        't' => Some(ViAction::Search(Search::ForwardBefore)),
        'F' => Some(ViAction::Search(Search::Backward)),
        'T' => Some(ViAction::Search(Search::BackwardAfter)),
        ';' => Some(ViAction::Again),
        ',' => Some(ViAction::Back),
        '.' => Some(ViAction::Repeat),
        'r' => Some(ViAction::Replace),
        _ => None,
    }
}

/// The action of a key in command mode, with the count. `modal` says whether the commands act that
/// go on over several keys.
pub(crate) fn vi_command_row(modal: bool, key: KeyEvent, n: RepeatCount) -> Option<ViAction>
    ensures { result ≡ action_of modal n key }
{
    if let Some(cmd) = vi_move_row(key, n) {
        return Some(ViAction::Give(cmd));
    }
    if let Some(cmd) = vi_edit_row(modal, key, n) {
        return Some(ViAction::Give(cmd));
    }
    match vi_turn_row(modal, key, n) {
        Some(action) => Some(action),
        None => vi_reading_row(key),
    }
}
