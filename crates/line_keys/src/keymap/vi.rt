//! The keys of Vi mode.

mod count;
pub mod motion;
pub mod table;

ghost use Rattle.std.specs.Prelude.{◌≡◌, true, false};
ghost use Rattle.line_keys.specs.KeyFeeds.{Key, ReadsBy, from_key_at};
ghost use Rattle.line_keys.specs.Requests.{AsksInOrder, IsLater, NextKey};
ghost use Rattle.std.specs.Option.{option_map_or};
ghost use Rattle.line_keys.specs.declared.command.Cmd.TheVariants.{Move};
ghost use Rattle.line_keys.specs.Vi.{key_replacement, char_command};

use crate::command::{Cmd, InputMode};
use crate::flags::Modifiers;
use crate::handler::Decides;
use crate::key::{KeyCode, KeyEvent};
use crate::keymap::InputState;
use crate::keymap::common::term_binding;
use crate::keymap::count::{SignedCount, times};
use crate::keymap::vi::count::typed_count;
use crate::keymap::vi::motion::{opposite, searching};
use crate::keymap::vi::table::{InsertAction, Operator, ViAction, vi_command_row, vi_insert_row};
use crate::refresh::Refresher;
use crate::tty::RawReader;
use line_buffer::{Movement, RepeatCount};
use line_config::ReadlineError;
use std::alloc::Global;

#[tactic(auto, using(crate::proofs::Steps::calls), unfolding(crate::specs::Vi::vi_command, crate::specs::Vi::vi_counted, crate::specs::Vi::command_table, crate::specs::Vi::vi_insert, crate::specs::Vi::insert_table))]
impl<D: Decides> InputState<'_, D> {
    ghost use Rattle.line_keys.specs.Commands.{flags_of};
    ghost use Rattle.line_keys.specs.Counts.{how_often, typed_count};
    ghost use Rattle.line_keys.specs.CustomKeys.{situation};
    ghost use Rattle.line_keys.specs.InputStates.{FollowsOn, input_of};
    ghost use Rattle.line_keys.specs.PhraseScripts.{and_then, keep_then};
    ghost use Rattle.line_keys.specs.Vi.{Remembers, change_part, changes, command_of, command_table, insert_mode_if, insert_table};
    ghost use Rattle.line_keys.specs.Vi.{is_new, operation, insert_part, vi_command, vi_counted};
    ghost use Rattle.line_keys.specs.Vi.{vi_insert, vi_phrase};

    /// The command that starts with this key.
    pub(crate) fn vi<R: RawReader, W: Refresher>(
        &mut self,
        alloc: Global,
        rdr: &mut R,
        wrt: &mut W,
        key: KeyEvent,
    ) -> Result<Cmd, ReadlineError>
        ensures phrase { FollowsOn (λ custom input shown. vi_phrase custom input shown key)
            self.old self.new D.decides W.display wrt.old wrt.new
            (R.feed rdr.old) (R.feed rdr.new) result }
        ensures asks { AsksInOrder R.asked IsLater rdr.old rdr.new }
        ensures bindings { self.new.custom_bindings ≡ self.old.custom_bindings }
    {
        match self.input_mode {
            InputMode::Command => self.vi_command(alloc, rdr, wrt, key),
            InputMode::Insert | InputMode::Replace => self.vi_insert(alloc, rdr, wrt, key),
        }
    }

    /// The command that starts with this key in command mode.
    fn vi_command<R: RawReader, W: Refresher>(
        &mut self,
        alloc: Global,
        rdr: &mut R,
        wrt: &mut W,
        key: KeyEvent,
    ) -> Result<Cmd, ReadlineError>
        ensures phrase { FollowsOn (λ custom. vi_command custom key)
            self.old self.new D.decides W.display wrt.old wrt.new
            (R.feed rdr.old) (R.feed rdr.new) result }
        ensures asks { AsksInOrder R.asked IsLater rdr.old rdr.new }
        ensures bindings { self.new.custom_bindings ≡ self.old.custom_bindings }
    {
        let (count, key) = self.counted_key(alloc, rdr, wrt, key)?;
        self.vi_counted(alloc, rdr, wrt, count, key)
    }

    /// The command of the key after a count.
    fn vi_counted<R: RawReader, W: Refresher>(
        &mut self,
        alloc: Global,
        rdr: &mut R,
        wrt: &mut W,
        count: Option<i16>,
        key: KeyEvent,
    ) -> Result<Cmd, ReadlineError>
        ensures phrase { FollowsOn (λ custom. vi_counted custom (count, key))
            self.old self.new D.decides W.display wrt.old wrt.new
            (R.feed rdr.old) (R.feed rdr.new) result }
        ensures asks { AsksInOrder R.asked IsLater rdr.old rdr.new }
        ensures bindings { self.new.custom_bindings ≡ self.old.custom_bindings }
    {
        let plus = SignedCount {
            n: times(count),
            positive: true,
        };
        match self.custom_binding(alloc, wrt, key, plus)? {
            Some(cmd) => cmd.made_anew(alloc, wrt, typed_count(count)),
            None => match term_binding(rdr, wrt, key) {
                Some(cmd) => Ok(cmd),
                None => self.vi_changed(alloc, rdr, wrt, count, key),
            },
        }
    }

    /// The command of the table. A change is remembered.
    fn vi_changed<R: RawReader, W: Refresher>(
        &mut self,
        alloc: Global,
        rdr: &mut R,
        wrt: &mut W,
        count: Option<i16>,
        key: KeyEvent,
    ) -> Result<Cmd, ReadlineError>
        ensures phrase { FollowsOn (λ custom input shown.
            let s = situation custom input shown (how_often count) true in
            and_then input shown (command_table (typed_count count) s key) change_part)
            self.old self.new D.decides W.display wrt.old wrt.new
            (R.feed rdr.old) (R.feed rdr.new) result }
        ensures asks { AsksInOrder R.asked IsLater rdr.old rdr.new }
        ensures bindings { self.new.custom_bindings ≡ self.old.custom_bindings }
    {
        let cmd = self.vi_done(alloc, rdr, wrt, count, key)?;
        self.changed_by(alloc, cmd)
    }

    /// The action of the key's row, or the one common to both modes.
    fn vi_done<R: RawReader, W: Refresher>(
        &mut self,
        alloc: Global,
        rdr: &mut R,
        wrt: &mut W,
        count: Option<i16>,
        key: KeyEvent,
    ) -> Result<Cmd, ReadlineError>
        ensures phrase { FollowsOn (λ custom input shown.
            let s = situation custom input shown (how_often count) true in
            command_table (typed_count count) s key)
            self.old self.new D.decides W.display wrt.old wrt.new
            (R.feed rdr.old) (R.feed rdr.new) result }
        ensures asks { AsksInOrder R.asked IsLater rdr.old rdr.new }
        ensures bindings { self.new.custom_bindings ≡ self.old.custom_bindings }
    {
        let n = times(count);
        match vi_command_row(self.modal_commands, key, n) {
            Some(ViAction::Give(cmd)) => Ok(cmd),
            Some(ViAction::Insert(cmd)) => {
                self.input_mode = InputMode::Insert;
                wrt.doing_insert()?;
                Ok(cmd)
            }
            Some(ViAction::Turn(mode, cmd)) => {
                self.input_mode = mode;
                Ok(cmd)
            }
            Some(ViAction::Operate(operator)) => self.vi_operation(
                alloc, rdr, wrt, key, n, operator,
            ),
            Some(ViAction::Search(search)) => {
                let movement = self.vi_char_search(rdr, search, n)?;
                Ok(move_or(Cmd::Unknown, movement))
            }
            Some(ViAction::Again) => Ok(move_or(Cmd::Noop, searching(n, self.last_char_search))),
            Some(ViAction::Back) => {
                let search = opposite(self.last_char_search);
                Ok(move_or(Cmd::Noop, searching(n, search)))
            }
            Some(ViAction::Repeat) => self.last_cmd.repeated(alloc, wrt, typed_count(count)),
            Some(ViAction::Replace) => replacement(rdr, n),
            None => {
                let plus = SignedCount { n, positive: true };
                self.common(alloc, rdr, wrt, key, plus)
            }
        }
    }

    /// The command of an operator with its motion. A change switches to insert mode before its
    /// motion is read.
    fn vi_operation<R: RawReader, W: Refresher>(
        &mut self,
        alloc: Global,
        rdr: &mut R,
        wrt: &mut W,
        key: KeyEvent,
        n: RepeatCount,
        operator: Operator,
    ) -> Result<Cmd, ReadlineError>
        ensures phrase { FollowsOn (λ custom input shown.
            let s = situation custom input shown n true in
            let within = insert_mode_if (changes operator) input in
            keep_then within (operation s key (command_of operator) within))
            self.old self.new D.decides W.display wrt.old wrt.new
            (R.feed rdr.old) (R.feed rdr.new) result }
        ensures asks { AsksInOrder R.asked IsLater rdr.old rdr.new }
        ensures bindings { self.new.custom_bindings ≡ self.old.custom_bindings }
    {
        self.enter(operator);
        let motion = self.vi_cmd_motion(alloc, rdr, wrt, key, n)?;
        Ok(operator.command(motion))
    }

    fn enter(&mut self, operator: Operator)
        ensures input { input_of self.new ≡ insert_mode_if (changes operator) (input_of self.old) }
        ensures bindings { self.new.custom_bindings ≡ self.old.custom_bindings }
    {
        match operator {
            Operator::Change => self.input_mode = InputMode::Insert,
            Operator::Delete | Operator::Yank | Operator::Dedent | Operator::Indent => {}
        }
    }

    /// Each change is remembered as the last one.
    fn changed_by(&mut self, alloc: Global, cmd: Cmd) -> Result<Cmd, ReadlineError>
        ensures remembers { let is = (flags_of cmd).is_change in
            Remembers is cmd (input_of self.old) (input_of self.new) result }
        ensures bindings { self.new.custom_bindings ≡ self.old.custom_bindings }
    {
        if cmd.is_repeatable_change() {
            self.last_cmd = cmd.try_clone(alloc)?;
        }
        Ok(cmd)
    }

    /// The command that starts with this key in insert and replace mode.
    fn vi_insert<R: RawReader, W: Refresher>(
        &mut self,
        alloc: Global,
        rdr: &mut R,
        wrt: &mut W,
        key: KeyEvent,
    ) -> Result<Cmd, ReadlineError>
        ensures phrase { FollowsOn (λ custom. vi_insert custom key)
            self.old self.new D.decides W.display wrt.old wrt.new
            (R.feed rdr.old) (R.feed rdr.new) result }
        ensures asks { AsksInOrder R.asked IsLater rdr.old rdr.new }
        ensures bindings { self.new.custom_bindings ≡ self.old.custom_bindings }
    {
        let untyped = SignedCount {
            n: 0,
            positive: true,
        };
        match self.custom_binding(alloc, wrt, key, untyped)? {
            Some(cmd) => cmd.made_anew(alloc, wrt, None),
            None => match term_binding(rdr, wrt, key) {
                Some(cmd) => Ok(cmd),
                None => self.vi_typed(alloc, rdr, wrt, key),
            },
        }
    }

    /// The command of the table. A new change is remembered.
    fn vi_typed<R: RawReader, W: Refresher>(
        &mut self,
        alloc: Global,
        rdr: &mut R,
        wrt: &mut W,
        key: KeyEvent,
    ) -> Result<Cmd, ReadlineError>
        ensures phrase { FollowsOn (λ custom input shown.
            and_then input shown (insert_table custom input shown key) insert_part)
            self.old self.new D.decides W.display wrt.old wrt.new
            (R.feed rdr.old) (R.feed rdr.new) result }
        ensures asks { AsksInOrder R.asked IsLater rdr.old rdr.new }
        ensures bindings { self.new.custom_bindings ≡ self.old.custom_bindings }
    {
        let cmd = self.vi_inserted(alloc, rdr, wrt, key)?;
        self.typed_by(alloc, cmd)
    }

    /// The action of the key's row, or the one common to both modes.
    fn vi_inserted<R: RawReader, W: Refresher>(
        &mut self,
        alloc: Global,
        rdr: &mut R,
        wrt: &mut W,
        key: KeyEvent,
    ) -> Result<Cmd, ReadlineError>
        ensures phrase { FollowsOn (λ custom input shown. insert_table custom input shown key)
            self.old self.new D.decides W.display wrt.old wrt.new
            (R.feed rdr.old) (R.feed rdr.new) result }
        ensures asks { AsksInOrder R.asked IsLater rdr.old rdr.new }
        ensures bindings { self.new.custom_bindings ≡ self.old.custom_bindings }
    {
        match vi_insert_row(self.modal_commands, wrt, key) {
            Some(InsertAction::Give(cmd)) => Ok(cmd),
            Some(InsertAction::Typed(c)) => Ok(typed_in(self.input_mode, c)),
            Some(InsertAction::Leave(cmd)) => {
                self.input_mode = InputMode::Command;
                wrt.done_inserting()?;
                Ok(cmd)
            }
            Some(InsertAction::Command(c)) => {
                self.input_mode = InputMode::Command;
                wrt.done_inserting()?;
                self.vi_command(alloc, rdr, wrt, KeyEvent(KeyCode::Char(c), Modifiers::NONE))
            }
            None => {
                let once = SignedCount {
                    n: 1,
                    positive: true,
                };
                self.common(alloc, rdr, wrt, key, once)
            }
        }
    }

    /// Each change is remembered as the last one, except for typed characters that continue it.
    fn typed_by(&mut self, alloc: Global, cmd: Cmd) -> Result<Cmd, ReadlineError>
        ensures remembers { let is = is_new cmd (input_of self.old) in
            Remembers is cmd (input_of self.old) (input_of self.new) result }
        ensures bindings { self.new.custom_bindings ≡ self.old.custom_bindings }
    {
        match (&self.last_cmd, &cmd) {
            (Cmd::Replace(..) | Cmd::SelfInsert(..), Cmd::SelfInsert(..)) => Ok(cmd),
            _ => self.changed_by(alloc, cmd),
        }
    }
}

fn move_or(other: Cmd, movement: Option<Movement>) -> Cmd
    ensures { result ≡ option_map_or Move movement other }
{
    match movement {
        Some(movement) => Cmd::Move(movement),
        None => other,
    }
}

/// The command of a typed character.
fn typed_in(mode: InputMode, c: char) -> Cmd
    ensures { result ≡ char_command mode c }
{
    match mode {
        InputMode::Replace => Cmd::Overwrite(c),
        InputMode::Insert | InputMode::Command => Cmd::SelfInsert(1, c),
    }
}

/// The next typed character replaces those under the cursor.
fn replacement<R: RawReader>(rdr: &mut R, n: RepeatCount) -> Result<Cmd, ReadlineError>
    ensures reads { let given = from_key_at (key_replacement n) in
        ReadsBy Key given (R.feed rdr.old) (R.feed rdr.new) result }
    ensures asks { R.asked rdr.old (NextKey false) rdr.new }
{
    let key = rdr.next_key(false)?;
    Ok(replaced_by(key, n))
}

/// The command of the key after the one for replacing.
fn replaced_by(key: KeyEvent, n: RepeatCount) -> Cmd
    ensures { result ≡ key_replacement n key }
{
    match key {
        KeyEvent(KeyCode::Char(c), Modifiers::NONE) => Cmd::ReplaceChar(n, c),
        KeyEvent::ESC => Cmd::Noop,
        _ => Cmd::Unknown,
    }
}
