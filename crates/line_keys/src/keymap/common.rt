//! The keys of both modes.

ghost use Rattle.std.specs.Prelude.{◌≡◌, ℕ, Bool, option_map, if◌then◌else◌};
ghost use Rattle.line_keys.specs.Common.{bound_command, terminal_command};
ghost use Rattle.line_keys.specs.Common.{common_command_rows, common_action, common_reading_rows};
ghost use Rattle.line_buffer.specs.declared.types.Anchor.TheVariants.{Before};
ghost use Rattle.line_buffer.specs.declared.types.Movement.TheVariants.{BackwardChar, ForwardChar};
ghost use Rattle.line_config.specs.declared.settings.EditMode.{EditMode};
ghost use Rattle.line_keys.specs.declared.command.Cmd.TheVariants.{Yank, Unknown};
ghost use Rattle.line_keys.specs.Refreshing.{Shown};
ghost use Rattle.line_keys.specs.Requests.{AsksInOrder, IsLater};
ghost use Rattle.line_keys.specs.Tables.{look, first_row};
ghost use Rattle.line_keys.specs.declared.keymap.common.CommonAction.TheVariants.{Give};

use crate::command::Cmd;
use crate::flags::Modifiers;
use crate::handler::Decides;
use crate::key::{KeyCode, KeyEvent};
use crate::keymap::InputState;
use crate::keymap::count::SignedCount;
use crate::keymap::custom::Followed;
use crate::refresh::Refresher;
use crate::tty::RawReader;
use line_buffer::{Anchor, At, Movement, Word};
use line_config::{EditMode, ReadlineError};
use std::alloc::Global;

/// What a key of both modes does.
#[derive(Drop)]
pub enum CommonAction {
    /// Gives a command.
    Give(Cmd),
    /// Inserts a pasted text, which is read first.
    Paste,
    /// Inserts the character of the next key, which is read first, or only names this command.
    Quote,
}

impl<D: Decides> InputState<'_, D> {
    ghost use Rattle.line_keys.specs.InputStates.{FollowsIn};
    ghost use Rattle.line_keys.specs.Common.{common, sequence};

    /// The command of a key that isn't in the mode's own table.
    pub(crate) fn common<R: RawReader, W: Refresher>(
        &self,
        alloc: Global,
        rdr: &mut R,
        wrt: &W,
        key: KeyEvent,
        count: SignedCount,
    ) -> Result<Cmd, ReadlineError>
        ensures phrase { FollowsIn (λ s. common s key) self.now D.decides W.display wrt.now
            count (R.feed rdr.old) (R.feed rdr.new) result }
        ensures asks { AsksInOrder R.asked IsLater rdr.old rdr.new }
    {
        match common_action(self.mode, wrt, key, count) {
            Some(CommonAction::Give(cmd)) => Ok(cmd),
            Some(CommonAction::Paste) => {
                let text = rdr.read_pasted_text(alloc)?;
                Ok(Cmd::Insert(1, text))
            }
            Some(CommonAction::Quote) => self.quoting(alloc, rdr),
            None => self.sequence(alloc, rdr, wrt, key, count),
        }
    }

    /// The command of a custom sequence.
    fn sequence<R: RawReader, W: Refresher>(
        &self,
        alloc: Global,
        rdr: &mut R,
        wrt: &W,
        key: KeyEvent,
        count: SignedCount,
    ) -> Result<Cmd, ReadlineError>
        ensures phrase { FollowsIn (λ s. sequence s key) self.now D.decides W.display wrt.now
            count (R.feed rdr.old) (R.feed rdr.new) result }
        ensures asks { AsksInOrder R.asked IsLater rdr.old rdr.new }
    {
        let followed = self.custom_seq_binding(alloc, rdr, wrt, key, count)?;
        Ok(bound_command(followed))
    }
}

/// The command to which a custom sequence is bound.
fn bound_command(followed: Followed) -> Cmd
    ensures { result ≡ bound_command followed }
{
    match followed {
        Followed::Bound(cmd) => cmd,
        Followed::Unbound(_) => Cmd::Unknown,
    }
}

/// The command of a key that has a meaning for the terminal. The end of input counts only in an
/// empty line.
pub(crate) fn term_binding<R: RawReader, W: Refresher>(
    rdr: &R,
    wrt: &W,
    key: KeyEvent,
) -> Option<Cmd>
    ensures { result ≡ terminal_command (W.display.shown wrt.now) key }
{
    match rdr.find_binding(&key) {
        Some(Cmd::EndOfFile) if !wrt.line().is_empty() => None,
        cmd => cmd,
    }
}

/// The first movement, or the second for a negative count.
pub(crate) fn by_sign(positive: bool, plus: Movement, minus: Movement) -> Movement
    ensures { result ≡ (if positive then plus else minus) }
{
    if positive { plus } else { minus }
}

/// Back over characters; for a negative count, forward.
pub(crate) fn backward_char(count: SignedCount) -> Movement
    ensures { result
        ≡ (if count.positive then BackwardChar count.n else ForwardChar count.n) }
{
    by_sign(
        count.positive,
        Movement::BackwardChar(count.n),
        Movement::ForwardChar(count.n),
    )
}

/// Forward over characters; for a negative count, back.
pub(crate) fn forward_char(count: SignedCount) -> Movement
    ensures { result
        ≡ (if count.positive then ForwardChar count.n else BackwardChar count.n) }
{
    by_sign(
        count.positive,
        Movement::ForwardChar(count.n),
        Movement::BackwardChar(count.n),
    )
}

/// The action of a key in both modes, if it has a row.
fn common_action<W: Refresher>(
    mode: EditMode,
    wrt: &W,
    key: KeyEvent,
    count: SignedCount,
) -> Option<CommonAction>
    ensures { let shown = W.display.shown wrt.now in
        result ≡ common_action mode shown count.n count.positive key }
{
    match common_row(mode, wrt, key, count) {
        Some(cmd) => Some(CommonAction::Give(cmd)),
        None => reading_row(key),
    }
}

/// The row of a key after which more is read.
fn reading_row(key: KeyEvent) -> Option<CommonAction>
    ensures { (n : ℕ) (positive : Bool)
        → result ≡ look n positive key common_reading_rows }
{
    match key {
        KeyEvent(KeyCode::BracketedPasteStart, Modifiers::NONE) => Some(CommonAction::Paste),
        KeyEvent(KeyCode::Char('Q' | 'V'), Modifiers::CTRL) => Some(CommonAction::Quote),
        _ => None,
    }
}

/// The rows of commands.
fn common_row<W: Refresher>(
    mode: EditMode,
    wrt: &W,
    key: KeyEvent,
    count: SignedCount,
) -> Option<Cmd>
    ensures { let rows = common_command_rows mode (W.display.shown wrt.now) in
        option_map Give result ≡ look count.n count.positive key rows }
{
    let KeyEvent(code, modifiers) = key;
    match modifiers {
        Modifiers::NONE => plain_row(code, count),
        Modifiers::CTRL => ctrl_row(mode, wrt, code, count),
        _ => None,
    }
}

/// The rows without modifiers.
fn plain_row(code: KeyCode, count: SignedCount) -> Option<Cmd>
    ensures { (mode : EditMode) (shown : Shown)
        → let rows = common_command_rows mode shown in
        option_map Give result ≡ first_row count.n count.positive code 0 rows }
{
    match code {
        KeyCode::Home => Some(Cmd::Move(Movement::BeginningOfLine)),
        KeyCode::Left => Some(Cmd::Move(backward_char(count))),
        KeyCode::Delete => Some(Cmd::Kill(forward_char(count))),
        KeyCode::End => Some(Cmd::Move(Movement::EndOfLine)),
        KeyCode::Right => Some(Cmd::Move(forward_char(count))),
        KeyCode::Enter => Some(Cmd::AcceptOrInsertLine {
            accept_in_the_middle: true,
        }),
        KeyCode::Down => Some(Cmd::LineDownOrNextHistory(1)),
        KeyCode::Up => Some(Cmd::LineUpOrPreviousHistory(1)),
        KeyCode::UnknownEscSeq => Some(Cmd::Noop),
        _ => None,
    }
}

/// The rows with Ctrl.
fn ctrl_row<W: Refresher>(mode: EditMode, wrt: &W, code: KeyCode, count: SignedCount) -> Option<Cmd>
    ensures { let rows = common_command_rows mode (W.display.shown wrt.now) in
        option_map Give result ≡ first_row count.n count.positive code 8 rows }
{
    match code {
        KeyCode::Char('D') if wrt.line().is_empty() => None,
        KeyCode::Char('D') if mode == EditMode::Emacs => Some(Cmd::Kill(forward_char(count))),
        KeyCode::Char('D') => Some(Cmd::EndOfFile),
        KeyCode::Char('J' | 'M') => Some(Cmd::AcceptOrInsertLine {
            accept_in_the_middle: true,
        }),
        KeyCode::Char('R') => Some(Cmd::ReverseSearchHistory),
        KeyCode::Char('S') => Some(Cmd::ForwardSearchHistory),
        KeyCode::Char('T') => Some(Cmd::TransposeChars),
        KeyCode::Char('U') => {
            let range = by_sign(
                count.positive,
                Movement::BeginningOfLine,
                Movement::EndOfLine,
            );
            Some(Cmd::Kill(range))
        }
        KeyCode::Char('W') => {
            let back = Movement::BackwardWord(count.n, Word::Big);
            let ahead = Movement::ForwardWord(count.n, At::AfterEnd, Word::Big);
            Some(Cmd::Kill(by_sign(count.positive, back, ahead)))
        }
        KeyCode::Char('Y') => Some(yank(count)),
        KeyCode::Char('_') => Some(Cmd::Undo(count.n)),
        _ => None,
    }
}

/// Yanks before the cursor, unless the count is negative.
fn yank(count: SignedCount) -> Cmd
    ensures { result ≡ (if count.positive then Yank count.n Before else Unknown) }
{
    if count.positive {
        Cmd::Yank(count.n, Anchor::Before)
    } else {
        Cmd::Unknown
    }
}
