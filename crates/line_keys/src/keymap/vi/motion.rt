//! Motions after Vi's operators, and searches for a character.

ghost use Rattle.std.specs.Prelude.{◌≡◌, option_map, true};
ghost use Rattle.line_keys.specs.Tables.{look};
ghost use Rattle.line_keys.specs.ViMotions.{opposite, search_movement};
ghost use Rattle.line_keys.specs.ViTables.{motion_rows, change_motion_rows, motion_of};

use crate::flags::Modifiers;
use crate::handler::Decides;
use crate::key::{KeyCode, KeyEvent};
use crate::keymap::InputState;
use crate::keymap::emacs::plain_char;
use crate::keymap::vi::count::multiplied;
use crate::refresh::Refresher;
use crate::tty::RawReader;
use line_buffer::{At, CharSearch, Movement, RepeatCount, Word};
use line_config::ReadlineError;
use std::alloc::Global;

const CHANGE: KeyEvent = KeyEvent(KeyCode::Char('c'), Modifiers::NONE);

/// A way to search for a character.
#[derive(Clone, Copy)]
pub enum Search {
    Forward,
    ForwardBefore,
    Backward,
    BackwardAfter,
}

impl Search {
    ghost use Rattle.line_keys.specs.ViMotions.{search_of};

    pub(crate) fn to(self, c: char) -> CharSearch
        ensures { result ≡ search_of self c }
    {
        match self {
            Search::Forward => CharSearch::Forward(c),
            Search::ForwardBefore => CharSearch::ForwardBefore(c),
            Search::Backward => CharSearch::Backward(c),
            Search::BackwardAfter => CharSearch::BackwardAfter(c),
        }
    }
}

/// The meaning of a key after an operator.
#[derive(Drop)]
pub enum Motion {
    /// By a movement.
    Go(Movement),
    /// To the next typed character.
    Seek(Search),
    /// The last search again.
    Again,
    /// The last search in the other direction.
    Back,
}

/// The search in the other direction.
pub(crate) fn opposite(search: Option<CharSearch>) -> Option<CharSearch>
    ensures { result ≡ option_map opposite search }
{
    let opposite = match search? {
        CharSearch::Forward(c) => CharSearch::Backward(c),
        CharSearch::ForwardBefore(c) => CharSearch::BackwardAfter(c),
        CharSearch::Backward(c) => CharSearch::Forward(c),
        CharSearch::BackwardAfter(c) => CharSearch::ForwardBefore(c),
    };
    Some(opposite)
}

/// The movement by a search.
pub(crate) fn searching(n: RepeatCount, search: Option<CharSearch>) -> Option<Movement>
    ensures { result ≡ search_movement n search }
{
    Some(Movement::ViCharSearch(n, search?))
}

/// The rows of motions.
fn motion_row(key: KeyEvent, n: RepeatCount) -> Option<Motion>
    ensures { result ≡ look n true key motion_rows }
{
    use KeyCode as K;
    use KeyEvent as E;
    use Modifiers as M;
    use Motion as G;

    match key {
        E(K::Char('$'), M::NONE) => Some(G::Go(Movement::EndOfLine)),
        E(K::Char('0'), M::NONE) => Some(G::Go(Movement::BeginningOfLine)),
        E(K::Char('^'), M::NONE) => Some(G::Go(Movement::ViFirstPrint)),
        E(K::Char('b'), M::NONE) => Some(G::Go(Movement::BackwardWord(n, Word::Vi))),
        E(K::Char('B'), M::NONE) => Some(G::Go(Movement::BackwardWord(n, Word::Big))),
        E(K::Char('e'), M::NONE) => Some(G::Go(Movement::ForwardWord(n, At::AfterEnd, Word::Vi))),
        E(K::Char('E'), M::NONE) => Some(G::Go(Movement::ForwardWord(n, At::AfterEnd, Word::Big))),
        E(K::Char('f'), M::NONE) => Some(G::Seek(Search::Forward)),
        E(K::Char('t'), M::NONE) => Some(G::Seek(Search::ForwardBefore)),
        E(K::Char('F'), M::NONE) => Some(G::Seek(Search::Backward)),
        E(K::Char('T'), M::NONE) => Some(G::Seek(Search::BackwardAfter)),
        E(K::Char(';'), M::NONE) => Some(G::Again),
        E(K::Char(','), M::NONE) => Some(G::Back),
        E(K::Char('h'), M::NONE) | E(K::Char('H'), M::CTRL) | E::BACKSPACE => {
            Some(G::Go(Movement::BackwardChar(n)))
        }
        E(K::Char('l' | ' '), M::NONE) => Some(G::Go(Movement::ForwardChar(n))),
        E(K::Char('j' | '+'), M::NONE) => Some(G::Go(Movement::LineDown(n))),
        E(K::Char('k' | '-'), M::NONE) => Some(G::Go(Movement::LineUp(n))),
        E(K::Char('w'), M::NONE) => Some(G::Go(Movement::ForwardWord(n, At::Start, Word::Vi))),
        E(K::Char('W'), M::NONE) => Some(G::Go(Movement::ForwardWord(n, At::Start, Word::Big))),
        _ => None,
    }
}

/// The rows of motions of a change, which doesn't include blanks after a word.
fn change_row(key: KeyEvent, n: RepeatCount) -> Option<Motion>
    ensures { result ≡ look n true key change_motion_rows }
{
    match key {
        KeyEvent(KeyCode::Char('w'), Modifiers::NONE) => {
            Some(Motion::Go(Movement::ForwardWord(n, At::AfterEnd, Word::Vi)))
        }
        KeyEvent(KeyCode::Char('W'), Modifiers::NONE) => {
            Some(Motion::Go(Movement::ForwardWord(n, At::AfterEnd, Word::Big)))
        }
        _ => None,
    }
}

/// The meaning of a key after an operator, which may be a change.
#[tactic(auto, using(crate::proofs::Steps::motions), unfolding(crate::specs::ViTables::motion_of))]
fn motion_of(changing: bool, key: KeyEvent, n: RepeatCount) -> Option<Motion>
    ensures { result ≡ motion_of changing n key }
{
    if !changing {
        return motion_row(key, n);
    }
    match change_row(key, n) {
        Some(motion) => Some(motion),
        None => motion_row(key, n),
    }
}

impl<D: Decides> InputState<'_, D> {
    ghost use Rattle.line_keys.specs.InputStates.{FollowsOn, input_of, custom_in, Follows, silent};
    ghost use Rattle.line_keys.specs.Requests.{AsksInOrder, Begins, IsKey, IsLater, NextKey};
    ghost use Rattle.std.specs.Prelude.{false};
    ghost use Rattle.line_keys.specs.ViMotions.{motion_by, vi_motion, search_of_next_key};

    /// The motion after an operator's key; `None` if another key follows.
    pub(crate) fn vi_cmd_motion<R: RawReader, W: Refresher>(
        &mut self,
        alloc: Global,
        rdr: &mut R,
        wrt: &mut W,
        operator: KeyEvent,
        n: RepeatCount,
    ) -> Result<Option<Movement>, ReadlineError>
        ensures motion { FollowsOn (λ custom. vi_motion operator n)
            self.old self.new D.decides W.display wrt.old wrt.new
            (R.feed rdr.old) (R.feed rdr.new) result }
        ensures asks { Begins R.asked (NextKey false) IsLater rdr.old rdr.new }
        ensures bindings { self.new.custom_bindings ≡ self.old.custom_bindings }
    {
        let key = rdr.next_key(false)?;
        if key == operator {
            return Ok(Some(Movement::WholeLine));
        }
        let (second, key) = self.counted_key(alloc, rdr, wrt, key)?;
        self.motion_by(rdr, operator, multiplied(n, second), key)
    }

    /// The motion of the key after a second count.
    fn motion_by<R: RawReader>(
        &mut self,
        rdr: &mut R,
        operator: KeyEvent,
        n: RepeatCount,
        key: KeyEvent,
    ) -> Result<Option<Movement>, ReadlineError>
        ensures motion { let input = input_of self.old in
            let script = motion_by operator n input key in
            Follows silent (custom_in self.old D.decides) script
            tt input tt (input_of self.new) (R.feed rdr.old) (R.feed rdr.new) result }
        ensures asks { AsksInOrder R.asked (IsKey false) rdr.old rdr.new }
        ensures bindings { self.new.custom_bindings ≡ self.old.custom_bindings }
    {
        match motion_of(operator == CHANGE, key, n) {
            Some(Motion::Go(movement)) => Ok(Some(movement)),
            Some(Motion::Seek(search)) => self.vi_char_search(rdr, search, n),
            Some(Motion::Again) => Ok(searching(n, self.last_char_search)),
            Some(Motion::Back) => Ok(searching(n, opposite(self.last_char_search))),
            None => Ok(None),
        }
    }

    /// The movement to the next typed character. The search is remembered.
    pub(crate) fn vi_char_search<R: RawReader>(
        &mut self,
        rdr: &mut R,
        search: Search,
        n: RepeatCount,
    ) -> Result<Option<Movement>, ReadlineError>
        ensures sought { let input = input_of self.old in
            let script = search_of_next_key search n input in
            Follows silent (custom_in self.old D.decides) script
            tt input tt (input_of self.new) (R.feed rdr.old) (R.feed rdr.new) result }
        ensures asks { R.asked rdr.old (NextKey false) rdr.new }
        ensures bindings { self.new.custom_bindings ≡ self.old.custom_bindings }
    {
        let key = rdr.next_key(false)?;
        let Some(c) = plain_char(key) else {
            return Ok(None);
        };
        let search = search.to(c);
        self.last_char_search = Some(search);
        Ok(Some(Movement::ViCharSearch(n, search)))
    }
}
