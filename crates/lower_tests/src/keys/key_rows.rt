//! Bindings, and keys in their normal form.

use crate::keys::commands::bind_command;
use line_config::ReadlineError;
use line_keys::{Bindings, EventHandler, KeyEvent, Modifiers};
use stand_ins::key_names::{key_named, write_key};
use stand_ins::rows::{Player, misread, raised, rows_hold};
use stand_ins::tables::{meant, parted, shown, word_and_rest};
use stand_ins::typing::event;
use std::alloc::{AllocError, Global};
use std::test::Fail;

// The old or current binding: a command.
fn handler_told(alloc: Global, handler: Option<&EventHandler>) -> Result<String, AllocError> {
    match handler {
        Some(EventHandler::Simple(cmd)) => shown(alloc, cmd),
        Some(_) => String::from_str(alloc, "handler"),
        None => String::from_str(alloc, "none"),
    }
}

// Calls of bindings; `bind` has keys and a command.
const SEQUENCES: &str = "
    bind C-x C-e: Noop      = none
    begins C-X              = true
    begins C-O              = false
    begins C-x              = false
    get C-X C-E             = Noop
    get C-x C-e             = none
";

// Without keys, any key is meant.
const OLD_ONES: &str = "
    bind F1: Noop           = none
    bind F1: Abort          = Noop
    bind: Complete          = none
    unbind F1               = Abort
    unbind F1               = none
    get                     = Complete
";

const SIX_KEYS: &str = "
    bind Backspace: Undo 0    = none
    bind C-Backspace: Undo 1  = none
    bind Enter: Undo 2        = none
    bind C-Enter: Undo 3      = none
    bind Tab: Undo 4          = none
    bind C-Tab: Undo 5        = none
    get Backspace             = Undo(0)
    get C-Backspace           = Undo(1)
    get Enter                 = Undo(2)
    get C-Enter               = Undo(3)
    get Tab                   = Undo(4)
    get C-Tab                 = Undo(5)
";

// Whether bindings have a sequence that starts with a key.
fn begun_told(alloc: Global, bindings: &Bindings, key: &str) -> Result<String, AllocError> {
    match key_named(key) {
        Some(key) => shown(alloc, &bindings.begins(&[key])),
        None => String::from_str(alloc, "no key"),
    }
}

fn bound_told(
    alloc: Global,
    bindings: &mut Bindings,
    keys: &str,
    cmd: &str,
) -> Result<String, ReadlineError> {
    let old = bind_command(alloc, bindings, keys, cmd)?;
    raised(handler_told(alloc, old.as_ref()))
}

fn unbound_told(
    alloc: Global,
    bindings: &mut Bindings,
    keys: &str,
) -> Result<String, ReadlineError> {
    let event = event(alloc, keys)?;
    let old = bindings.unbind_sequence(event);
    raised(handler_told(alloc, old.as_ref()))
}

fn got_told(alloc: Global, bindings: &Bindings, keys: &str) -> Result<String, ReadlineError> {
    let event = event(alloc, keys)?;
    raised(handler_told(alloc, bindings.get(&event)))
}

/// Bindings that the rows of a table change.
#[derive(Drop)]
struct Binder {
    bindings: Bindings,
}

impl Player for Binder {
    fn play(&mut self, alloc: Global, call: &str) -> Result<String, Fail> {
        let (call, cmd) = parted(call, ":");
        let (call, keys) = word_and_rest(call);
        let bindings = &mut self.bindings;
        let said = match call {
            "begins" => return raised(begun_told(alloc, bindings, keys)),
            "bind" => bound_told(alloc, bindings, keys, cmd.trim()),
            "unbind" => unbound_told(alloc, bindings, keys),
            _ => got_told(alloc, bindings, keys),
        };
        raised(said)
    }
}

// Makes each row's call on new bindings.
fn binds(alloc: Global, table: &str) -> Result<(), Fail> {
    let bindings = Bindings::new(alloc)?;
    rows_hold(alloc, &mut Binder { bindings }, table)
}

// A character and its key; a key and its normal form.
const KEYS_HAVE_ONE_FORM: &str = "
    new ␛                   = Esc
    from ␉                  = Tab
    alt ␡                   = A-Backspace
    from ␈                  = Backspace
    from ␍                  = Enter
    normalize ␁             = C-A
    normalize C-a           = C-A
    normalize S-A           = A
    normalize S-Tab         = BackTab
";

fn key_made(call: &str, word: &str) -> Option<KeyEvent> {
    if call == "normalize" {
        return Some(KeyEvent::normalize(key_named(word)?));
    }
    let c = word.chars().next()?;
    match call {
        "new" => Some(KeyEvent::new(c, Modifiers::NONE)),
        "alt" => Some(KeyEvent::alt(c)),
        _ => Some(KeyEvent::from(c)),
    }
}

/// The key of each row.
#[derive(Clone, Copy, Drop)]
struct Forms;

impl Player for Forms {
    fn play(&mut self, alloc: Global, call: &str) -> Result<String, Fail> {
        let (call, word) = word_and_rest(call);
        let word = meant(alloc, word)?;
        match key_made(call, word.as_str()) {
            Some(key) => raised(key_told(alloc, key)),
            None => Err(misread("no key", call)),
        }
    }
}

fn key_told(alloc: Global, key: KeyEvent) -> Result<String, AllocError> {
    let mut said = String::new(alloc);
    write_key(&mut said, key)?;
    Ok(said)
}

#[test]
fn bindings_and_keys(rt: HostRuntime) -> Result<(), Fail> {
    binds(rt.alloc(), SEQUENCES)?;
    binds(rt.alloc(), OLD_ONES)?;
    binds(rt.alloc(), SIX_KEYS)?;
    rows_hold(rt.alloc(), &mut Forms, KEYS_HAVE_ONE_FORM)
}
