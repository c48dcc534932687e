//! The keys of Emacs mode.

ghost use Rattle.std.specs.Prelude.{◌≡◌, ℕ, option_map, if◌then◌else◌, true, false};
ghost use Rattle.line_keys.specs.Keys.{none, char_with};
ghost use Rattle.line_keys.specs.Emacs.{back, ahead, move_to_char, second_command};
ghost use Rattle.line_keys.specs.Emacs.{emacs_command_rows, emacs_action, emacs_reading_rows, typed_rows};
ghost use Rattle.line_keys.specs.KeyFeeds.{Key, ReadsBy, from_key_at};
ghost use Rattle.line_keys.specs.Refreshing.{Shown};
ghost use Rattle.line_keys.specs.Requests.{AsksInOrder, IsLater, NextKey};
ghost use Rattle.line_keys.specs.Tables.{look, first_row};
ghost use Rattle.line_keys.specs.ViMotions.{search_of};
ghost use Rattle.line_keys.specs.declared.command.Cmd.TheVariants.{Complete, CompleteBackward};
ghost use Rattle.line_keys.specs.declared.keymap.emacs.EmacsAction.TheVariants.{Give};

use crate::command::Cmd;
use crate::flags::Modifiers;
use crate::handler::Decides;
use crate::key::{KeyCode, KeyEvent};
use crate::keymap::InputState;
use crate::keymap::common::{backward_char, by_sign, forward_char, term_binding};
use crate::keymap::count::SignedCount;
use crate::keymap::custom::Followed;
use crate::keymap::vi::motion::Search;
use crate::refresh::Refresher;
use crate::tty::RawReader;
use line_buffer::{At, Movement, RepeatCount, Word};
use line_config::ReadlineError;
use std::alloc::Global;

/// The action of a key in Emacs mode.
#[derive(Drop)]
pub enum EmacsAction {
    /// Gives a command.
    Give(Cmd),
    /// Moves to the next typed character.
    Seek(Search),
    /// Reads one more key, which has its own rows.
    LeadOn,
}

impl<D: Decides> InputState<'_, D> {
    ghost use Rattle.line_keys.specs.InputStates.{FollowsIn, FollowsOn};
    ghost use Rattle.line_keys.specs.Emacs.{emacs_phrase, emacs_decided, emacs_command};
    ghost use Rattle.line_keys.specs.Emacs.{emacs_done};
    ghost use Rattle.line_keys.specs.declared.keymap.emacs.EmacsAction.TheVariants.{LeadOn};
    ghost use Rattle.std.specs.Prelude.{Some};
    ghost use Rattle.line_keys.specs.Counts.{signed_count};

    /// The command that starts with this key.
    pub(crate) fn emacs<R: RawReader, W: Refresher>(
        &self,
        alloc: Global,
        rdr: &mut R,
        wrt: &mut W,
        key: KeyEvent,
    ) -> Result<Cmd, ReadlineError>
        ensures phrase { FollowsOn (λ custom input shown. emacs_phrase custom input shown key)
            self.now self.now D.decides W.display wrt.old wrt.new
            (R.feed rdr.old) (R.feed rdr.new) result }
        ensures asks { AsksInOrder R.asked IsLater rdr.old rdr.new }
    {
        let (count, key) = self.counted_key(alloc, rdr, wrt, key)?;
        self.emacs_decided(alloc, rdr, wrt, count, key)
    }

    /// The command of the key after a count.
    fn emacs_decided<R: RawReader, W: Refresher>(
        &self,
        alloc: Global,
        rdr: &mut R,
        wrt: &W,
        count: Option<i16>,
        key: KeyEvent,
    ) -> Result<Cmd, ReadlineError>
        ensures phrase { FollowsIn (λ s. emacs_decided s key) self.now D.decides
            W.display wrt.now (signed_count count) (R.feed rdr.old) (R.feed rdr.new) result }
        ensures asks { AsksInOrder R.asked IsLater rdr.old rdr.new }
    {
        let count = SignedCount::new(count);
        match self.custom_binding(alloc, wrt, key, count)? {
            Some(cmd) => cmd.made_anew(alloc, wrt, Some(count.n)),
            None => match term_binding(rdr, wrt, key) {
                Some(cmd) => Ok(cmd),
                None => self.emacs_command(alloc, rdr, wrt, key, count),
            },
        }
    }

    /// The action of the key's row, or the one common to both modes.
    fn emacs_command<R: RawReader, W: Refresher>(
        &self,
        alloc: Global,
        rdr: &mut R,
        wrt: &W,
        key: KeyEvent,
        count: SignedCount,
    ) -> Result<Cmd, ReadlineError>
        ensures phrase { FollowsIn (λ s. emacs_command s key) self.now D.decides
            W.display wrt.now count (R.feed rdr.old) (R.feed rdr.new) result }
        ensures asks { AsksInOrder R.asked IsLater rdr.old rdr.new }
    {
        match emacs_action(wrt, key, count) {
            Some(EmacsAction::Give(cmd)) => Ok(cmd),
            Some(EmacsAction::Seek(search)) => char_search(rdr, count.n, search),
            Some(EmacsAction::LeadOn) => self.ctrl_x(alloc, rdr, wrt, key, count),
            None => self.common(alloc, rdr, wrt, key, count),
        }
    }

    /// The command of a custom sequence, or that of the second key, which is read if it wasn't.
    fn ctrl_x<R: RawReader, W: Refresher>(
        &self,
        alloc: Global,
        rdr: &mut R,
        wrt: &W,
        key: KeyEvent,
        count: SignedCount,
    ) -> Result<Cmd, ReadlineError>
        ensures phrase { FollowsIn (λ s. emacs_done s key (Some LeadOn)) self.now D.decides
            W.display wrt.now count (R.feed rdr.old) (R.feed rdr.new) result }
        ensures asks { AsksInOrder R.asked IsLater rdr.old rdr.new }
    {
        let followed = self.custom_seq_binding(alloc, rdr, wrt, key, count)?;
        match followed {
            Followed::Bound(cmd) => Ok(cmd),
            Followed::Unbound(Some(second)) => Ok(second_command(second, count)),
            Followed::Unbound(None) => read_second(rdr, count),
        }
    }
}

/// The command of the second key after Ctrl-X, which is read first.
fn read_second<R: RawReader>(rdr: &mut R, count: SignedCount) -> Result<Cmd, ReadlineError>
    ensures reads { let given = from_key_at (second_command count.n count.positive) in
        ReadsBy Key given (R.feed rdr.old) (R.feed rdr.new) result }
    ensures asks { R.asked rdr.old (NextKey true) rdr.new }
{
    let second = rdr.next_key(true)?;
    Ok(second_command(second, count))
}

/// The character of a key without modifiers.
pub(crate) fn plain_char(key: KeyEvent) -> Option<char>
    ensures { result ≡ char_with none key }
{
    match key {
        KeyEvent(KeyCode::Char(c), Modifiers::NONE) => Some(c),
        _ => None,
    }
}

/// The command of the second key after Ctrl-X.
fn second_command(key: KeyEvent, count: SignedCount) -> Cmd
    ensures { result ≡ second_command count.n count.positive key }
{
    match key {
        KeyEvent(KeyCode::Char('G'), Modifiers::CTRL) | KeyEvent::ESC => Cmd::Abort,
        KeyEvent(KeyCode::Char('U'), Modifiers::CTRL) => Cmd::Undo(count.n),
        KeyEvent::BACKSPACE => {
            let range = by_sign(
                count.positive,
                Movement::BeginningOfLine,
                Movement::EndOfLine,
            );
            Cmd::Kill(range)
        }
        _ => Cmd::Unknown,
    }
}

/// The move to the next typed character.
fn char_search<R: RawReader>(
    rdr: &mut R,
    n: RepeatCount,
    search: Search,
) -> Result<Cmd, ReadlineError>
    ensures reads { let given = from_key_at (λ next.
        move_to_char n (search_of search) (char_with none next)) in
        ReadsBy Key given (R.feed rdr.old) (R.feed rdr.new) result }
    ensures asks { R.asked rdr.old (NextKey false) rdr.new }
{
    let key = rdr.next_key(false)?;
    Ok(searched(n, search, plain_char(key)))
}

/// The move by a search for a character.
fn searched(n: RepeatCount, search: Search, sought: Option<char>) -> Cmd
    ensures { result ≡ move_to_char n (search_of search) sought }
{
    match sought {
        Some(c) => Cmd::Move(Movement::ViCharSearch(n, search.to(c))),
        None => Cmd::Unknown,
    }
}

/// Back over words; for a negative count, forward.
fn back(count: SignedCount) -> Movement
    ensures { result ≡ (if count.positive then back count.n else ahead count.n) }
{
    by_sign(
        count.positive,
        Movement::BackwardWord(count.n, Word::Emacs),
        Movement::ForwardWord(count.n, At::AfterEnd, Word::Emacs),
    )
}

/// Forward over words; for a negative count, back.
fn ahead(count: SignedCount) -> Movement
    ensures { result ≡ (if count.positive then ahead count.n else back count.n) }
{
    by_sign(
        count.positive,
        Movement::ForwardWord(count.n, At::AfterEnd, Word::Emacs),
        Movement::BackwardWord(count.n, Word::Emacs),
    )
}

/// The action of a key, if it has a row.
fn emacs_action<W: Refresher>(wrt: &W, key: KeyEvent, count: SignedCount) -> Option<EmacsAction>
    ensures { let shown = W.display.shown wrt.now in
        result ≡ emacs_action shown count.n count.positive key }
{
    if let Some(cmd) = typed_row(key, count) {
        return Some(EmacsAction::Give(cmd));
    }
    match emacs_row(wrt, key, count) {
        Some(cmd) => Some(EmacsAction::Give(cmd)),
        None => reading_row(key, count.positive),
    }
}

/// The row of characters.
fn typed_row(key: KeyEvent, count: SignedCount) -> Option<Cmd>
    ensures { option_map Give result ≡ look count.n count.positive key typed_rows }
{
    match key {
        KeyEvent(KeyCode::Char(c), Modifiers::NONE) if count.positive => {
            Some(Cmd::SelfInsert(count.n, c))
        }
        KeyEvent(KeyCode::Char(_), Modifiers::NONE) => Some(Cmd::Unknown),
        _ => None,
    }
}

/// The rows of keys after which more is read.
fn reading_row(key: KeyEvent, positive: bool) -> Option<EmacsAction>
    ensures { (n : ℕ) → result ≡ look n positive key emacs_reading_rows }
{
    use KeyCode as K;
    use KeyEvent as E;
    use Modifiers as M;

    match key {
        E(K::Char(']'), M::CTRL) if positive => Some(EmacsAction::Seek(Search::ForwardBefore)),
        E(K::Char(']'), M::CTRL) => Some(EmacsAction::Seek(Search::Backward)),
        E(K::Char(']'), M::CTRL_ALT) if positive => Some(EmacsAction::Seek(Search::Backward)),
        E(K::Char(']'), M::CTRL_ALT) => Some(EmacsAction::Seek(Search::ForwardBefore)),
        E(K::Char('X'), M::CTRL) => Some(EmacsAction::LeadOn),
        _ => None,
    }
}

/// The rows of commands.
fn emacs_row<W: Refresher>(wrt: &W, key: KeyEvent, count: SignedCount) -> Option<Cmd>
    ensures { let rows = emacs_command_rows (W.display.shown wrt.now) in
        option_map Give result ≡ look count.n count.positive key rows }
{
    let KeyEvent(code, modifiers) = key;
    match modifiers {
        Modifiers::NONE => plain_row(wrt, code, count),
        Modifiers::CTRL => ctrl_row(code, count),
        Modifiers::ALT => alt_row(code, count),
        Modifiers::CTRL_ALT => match code {
            KeyCode::Char('G') => Some(Cmd::Abort),
            _ => None,
        },
        _ => None,
    }
}

/// The rows without modifiers. A hint is accepted if the cursor is right before it.
fn plain_row<W: Refresher>(wrt: &W, code: KeyCode, count: SignedCount) -> Option<Cmd>
    ensures { let rows = emacs_command_rows (W.display.shown wrt.now) in
        option_map Give result ≡ first_row count.n count.positive code 0 rows }
{
    match code {
        KeyCode::Esc => Some(Cmd::Abort),
        KeyCode::Backspace => Some(Cmd::Kill(backward_char(count))),
        KeyCode::BackTab => Some(Cmd::CompleteBackward),
        KeyCode::Tab => Some(completion(count.positive)),
        KeyCode::Right if wrt.has_hint() && wrt.is_cursor_at_end() => Some(Cmd::CompleteHint),
        _ => None,
    }
}

/// The rows with Ctrl.
fn ctrl_row(code: KeyCode, count: SignedCount) -> Option<Cmd>
    ensures { (shown : Shown) → let rows = emacs_command_rows shown in
        option_map Give result ≡ first_row count.n count.positive code 8 rows }
{
    match code {
        KeyCode::Char('A') => Some(Cmd::Move(Movement::BeginningOfLine)),
        KeyCode::Char('B') => Some(Cmd::Move(backward_char(count))),
        KeyCode::Char('E') => Some(Cmd::Move(Movement::EndOfLine)),
        KeyCode::Char('F') => Some(Cmd::Move(forward_char(count))),
        KeyCode::Char('G') => Some(Cmd::Abort),
        KeyCode::Char('H') => Some(Cmd::Kill(backward_char(count))),
        KeyCode::Char('I') => Some(completion(count.positive)),
        KeyCode::Char('K') => {
            let range = by_sign(
                count.positive,
                Movement::EndOfLine,
                Movement::BeginningOfLine,
            );
            Some(Cmd::Kill(range))
        }
        KeyCode::Char('L') => Some(Cmd::ClearScreen),
        KeyCode::Char('N') => Some(Cmd::NextHistory),
        KeyCode::Char('P') => Some(Cmd::PreviousHistory),
        KeyCode::Left => Some(Cmd::Move(back(count))),
        KeyCode::Right => Some(Cmd::Move(ahead(count))),
        _ => None,
    }
}

/// The rows with Alt.
fn alt_row(code: KeyCode, count: SignedCount) -> Option<Cmd>
    ensures { (shown : Shown) → let rows = emacs_command_rows shown in
        option_map Give result ≡ first_row count.n count.positive code 4 rows }
{
    match code {
        KeyCode::Backspace => Some(Cmd::Kill(back(count))),
        KeyCode::Char('<') => Some(Cmd::BeginningOfHistory),
        KeyCode::Char('>') => Some(Cmd::EndOfHistory),
        KeyCode::Char('B' | 'b') | KeyCode::Left => Some(Cmd::Move(back(count))),
        KeyCode::Char('C' | 'c') => Some(Cmd::CapitalizeWord),
        KeyCode::Char('D' | 'd') => Some(Cmd::Kill(ahead(count))),
        KeyCode::Char('F' | 'f') | KeyCode::Right => Some(Cmd::Move(ahead(count))),
        KeyCode::Char('L' | 'l') => Some(Cmd::DowncaseWord),
        KeyCode::Char('T' | 't') => Some(Cmd::TransposeWords(count.n)),
        KeyCode::Char('U' | 'u') => Some(Cmd::UpcaseWord),
        KeyCode::Char('Y' | 'y') => Some(Cmd::YankPop),
        _ => None,
    }
}

/// Completes forward; for a negative count, backward.
fn completion(positive: bool) -> Cmd
    ensures { result ≡ (if positive then Complete else CompleteBackward) }
{
    if positive {
        Cmd::Complete
    } else {
        Cmd::CompleteBackward
    }
}
