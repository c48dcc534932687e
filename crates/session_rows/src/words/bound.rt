//! Keys bound by a setting: `bind:C-X→b⇒Kill·ForwardChar·2` binds Ctrl-X and then `b`, and
//! `bind:any⇒Count` any key without a binding of its own. The words of a command are separated by
//! dots.

ghost use Rattle.std.specs.Prelude.{◌≡◌};

use crate::words::notation::number_after;
use line_buffer::RepeatCount;
use line_config::{HookFault, ReadlineError};
use line_keys::{Cmd, ConditionalEventHandler, Event, EventContext, KeyEvent, Keys, Text};
use stand_ins::commands::command_named;
use stand_ins::handlers::{HintOrKill, OneWay};
use stand_ins::key_names::key_named;
use stand_ins::tables::word_and_rest;
use std::alloc::{AllocError, Global};

/// The handlers of the tests.
#[derive(Drop)]
pub enum Answering {
    OneWay(OneWay),
    HintOrKill(HintOrKill),
    /// Always this command.
    Always(Cmd),
}

impl ConditionalEventHandler for Answering {
    ghost use Rattle.std.specs.Prelude.{Some};
    ghost use Rattle.line_keys.specs.Replies.{gives};
    ghost use Rattle.session_rows.specs.declared.words.bound.Answering.TheVariants as kinds;
    ghost use Rattle.stand_ins.specs.Handlers.{hint_or_kill, one_way};

    ghost meaning = { λ h s. elim h [
      | kinds.OneWay way ↦ one_way way s
      | kinds.HintOrKill asking ↦ hint_or_kill asking.most s
      | kinds.Always cmd ↦ gives (Some cmd)
    ] };

    fn handle(
        &self,
        alloc: Global,
        evt: &Event,
        n: RepeatCount,
        positive: bool,
        ctx: &EventContext<'_>,
    ) -> Result<Option<Cmd>, HookFault> {
        match self {
            Answering::OneWay(way) => way.handle(alloc, evt, n, positive, ctx),
            Answering::HintOrKill(asking) => asking.handle(alloc, evt, n, positive, ctx),
            Answering::Always(cmd) => match cmd.try_clone(alloc) {
                Ok(cmd) => Ok(Some(cmd)),
                Err(_) => Err(HookFault::Memory),
            },
        }
    }
}

/// A binding: a command, or a handler.
#[derive(Drop)]
pub enum Action {
    Command(Cmd),
    Handler(Answering),
}

/// An event, and its binding.
#[derive(Drop)]
pub struct Bound {
    pub event: Event,
    pub action: Action,
}

/// The keys with these names, separated by arrows.
fn event_named(alloc: Global, names: &str) -> Result<Event, ReadlineError> {
    if names == "any" {
        return Ok(Event::Any);
    }
    let mut keys = Vec::new(alloc);
    for name in names.split('→') {
        if let Some(key) = key_named(name) {
            keys.push(key)?;
        }
    }
    Ok(Event::KeySeq(Keys::from(keys)))
}

/// These words, with a blank for each dot.
fn spaced(alloc: Global, words: &str) -> Result<String, AllocError> {
    let mut text = String::new(alloc);
    for c in words.chars() {
        text.push(if c == '·' { ' ' } else { c })?;
    }
    Ok(text)
}

fn command_of(alloc: Global, words: &str) -> Cmd {
    command_named(alloc, words).unwrap_or(Cmd::Unknown)
}

/// The command with these words, or the handler with this name.
fn action_named(alloc: Global, words: &str) -> Action {
    let (name, rest) = word_and_rest(words);
    let handler = match name {
        "Count" => Answering::OneWay(OneWay::Count),
        "Nothing" => Answering::OneWay(OneWay::Nothing),
        "Fails" => Answering::OneWay(OneWay::Fails),
        "WantsMemory" => Answering::OneWay(OneWay::WantsMemory),
        "HintOrKill" => {
            let most = rest.parse().unwrap_or(9);
            Answering::HintOrKill(HintOrKill { most })
        }
        "Always" => Answering::Always(command_of(alloc, rest)),
        _ => return Action::Command(command_of(alloc, words)),
    };
    Action::Handler(handler)
}

fn bound_as(alloc: Global, keys: &str, words: &str) -> Result<Bound, ReadlineError> {
    let words = spaced(alloc, words)?;
    Ok(Bound {
        event: event_named(alloc, keys)?,
        action: action_named(alloc, words.as_str()),
    })
}

/// Adds so many characters, from 一 on, each bound to a command that inserts it twice.
fn put_many(alloc: Global, all: &mut Vec<Bound>, count: usize) -> Result<(), ReadlineError> {
    for c in ('一'..='\u{9FFF}').take(count) {
        let twice = format!(in alloc; "{c}{c}")?;
        all.push(Bound {
            event: Event::from_key(alloc, KeyEvent::from(c))?,
            action: Action::Command(Cmd::Insert(1, Text::from(twice))),
        })?;
    }
    Ok(())
}

/// All bindings of a setting's words.
pub fn bound_by(alloc: Global, words: &str) -> Result<Vec<Bound>, ReadlineError> {
    let mut all = Vec::new(alloc);
    put_many(alloc, &mut all, number_after(words, "many:", 0))?;
    for word in words.split_whitespace() {
        if let Some(bound) = word.strip_prefix("bind:")
            && let Some((keys, named)) = bound.split_once('⇒')
        {
            all.push(bound_as(alloc, keys, named)?)?;
        }
    }
    Ok(all)
}
