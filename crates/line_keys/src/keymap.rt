//! From keys to commands, in Emacs and in Vi mode.
#![tactic(auto, using(crate::proofs::Steps::calls))]

// The actions of the tables are public: proofs of the crates above go through them.
pub mod common;
mod count;
pub mod custom;
pub mod emacs;
mod quoted;
pub mod vi;

ghost use Rattle.std.specs.Prelude.{◌≡◌, ◌<◌, OnOk, MatchResult, None};
ghost use Rattle.line_keys.specs.KeyFeeds.{Key, ReadsBy, key_at};
ghost use Rattle.line_keys.specs.Requests.{AsksInOrder, Begins, IsLater, abort_in, first_request};

use crate::binding::EventMap;
use crate::command::{Cmd, InputMode};
use crate::handler::{Decides, EventHandler};
use crate::key::KeyEvent;
use crate::refresh::Refresher;
use crate::tty::{Event, RawReader};
use line_buffer::CharSearch;
use line_config::{Config, EditMode, ReadlineError};
use std::alloc::Global;

/// Turns keys into commands, and keeps the state that Vi's commands share.
#[derive(Drop)]
pub struct InputState<'b, D: Decides = EventHandler> {
    pub(crate) mode: EditMode,
    custom_bindings: &'b EventMap<D>,
    pub(crate) input_mode: InputMode,
    /// Vi's last change.
    last_cmd: Cmd,
    /// Vi's last search for a character.
    last_char_search: Option<CharSearch>,
    /// Whether the commands act that go on over several keys.
    pub(crate) modal_commands: bool,
}

impl<'b, D: Decides> InputState<'b, D> {
    ghost use Rattle.line_keys.specs.declared.command.Cmd.TheVariants.{Noop};
    ghost use Rattle.line_keys.specs.declared.command.InputMode.TheVariants.{Command, Insert};
    ghost use Rattle.line_keys.specs.InputStates.{FollowsOn, input_of, new_input};
    ghost use Rattle.line_keys.specs.InputStates.{phrase, phrase_from};
    ghost use Rattle.line_keys.specs.PhraseScripts.{is_emacs, is_vi_command};

    /// A state with the mode and the modal commands of the configuration, and an empty memory.
    pub fn new(
        _alloc: Global,
        config: &Config,
        custom_bindings: &'b EventMap<D>,
    ) -> Result<Self, ReadlineError>
        ensures { MatchResult result (λ s. (input_of s ≡ new_input config.now)
            × (s.custom_bindings ≡ custom_bindings.entry)) (λ _. ⊥) }
    {
        Ok(InputState {
            mode: config.edit_mode(),
            custom_bindings,
            input_mode: InputMode::Insert,
            last_cmd: Cmd::Noop,
            last_char_search: None,
            modal_commands: config.modal_commands(),
        })
    }

    /// Whether the keymap is Emacs's.
    pub fn is_emacs_mode(&self) -> bool
        ensures { result ≡ is_emacs self.now.mode }
    {
        self.mode == EditMode::Emacs
    }

    /// Whether Vi is in command mode.
    pub fn is_vi_cmd_mode(&self) -> bool
        ensures { result ≡ is_vi_command self.now.mode self.now.input_mode }
    {
        self.input_mode == InputMode::Command && self.mode == EditMode::Vi
    }

    /// The next command. Only its own keys and pastes are read.
    ///
    /// `single_esc_abort` is passed to the reader. If `ignore_external_print` is set, the first key
    /// is read as a key, otherwise as a report of the terminal.
    pub fn next_cmd<R: RawReader, W: Refresher>(
        &mut self,
        alloc: Global,
        rdr: &mut R,
        wrt: &mut W,
        single_esc_abort: bool,
        ignore_external_print: bool,
    ) -> Result<Cmd, ReadlineError>
        ensures phrase { FollowsOn phrase
            self.old self.new D.decides W.display wrt.old wrt.new
            (R.feed rdr.old) (R.feed rdr.new) result }
        ensures bindings { self.new.custom_bindings ≡ self.old.custom_bindings }
        ensures asks { let flag = abort_in self.old.mode single_esc_abort in
            let first = first_request flag ignore_external_print in
            Begins R.asked first IsLater rdr.old rdr.new }
        ensures falls { OnOk result ((R.feed rdr.new).bound < (R.feed rdr.old).bound) }
    {
        let single_esc_abort = self.single_esc_abort(single_esc_abort);
        let key = first_key(rdr, single_esc_abort, ignore_external_print)?;
        self.begun(alloc, rdr, wrt, key)
    }

    /// The command that starts with this key.
    fn begun<R: RawReader, W: Refresher>(
        &mut self,
        alloc: Global,
        rdr: &mut R,
        wrt: &mut W,
        key: KeyEvent,
    ) -> Result<Cmd, ReadlineError>
        ensures phrase { FollowsOn
            (λ custom input shown. phrase_from input.mode custom input shown key)
            self.old self.new D.decides W.display wrt.old wrt.new
            (R.feed rdr.old) (R.feed rdr.new) result }
        ensures asks { AsksInOrder R.asked IsLater rdr.old rdr.new }
        ensures bindings { self.new.custom_bindings ≡ self.old.custom_bindings }
    {
        match self.mode {
            EditMode::Emacs => self.emacs(alloc, rdr, wrt, key),
            EditMode::Vi => self.vi(alloc, rdr, wrt, key),
        }
    }

    /// Only Emacs's keys need not wait after Esc.
    fn single_esc_abort(&self, single_esc_abort: bool) -> bool
        ensures { result ≡ abort_in self.now.mode single_esc_abort }
    {
        match self.mode {
            EditMode::Emacs => single_esc_abort,
            EditMode::Vi => false,
        }
    }
}

/// The first key of a command.
fn first_key<R: RawReader>(
    rdr: &mut R,
    single_esc_abort: bool,
    ignore_external_print: bool,
) -> Result<KeyEvent, ReadlineError>
    ensures reads { ReadsBy Key key_at (R.feed rdr.old) (R.feed rdr.new) result }
    ensures asks { let first = first_request single_esc_abort ignore_external_print in
        R.asked rdr.old first rdr.new }
{
    if ignore_external_print {
        return rdr.next_key(single_esc_abort);
    }
    let Event::KeyPress(key) = rdr.wait_for_input(single_esc_abort)?;
    Ok(key)
}
