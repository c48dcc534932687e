//! How the keys of commands are requested.

use crate::keys::commands::bind_command;
use crate::keys::tables::Desk;
use crate::keys::telling::line_marked;
use line_config::{Config, EditMode, ReadlineError};
use line_keys::{InputState, KeyEvent};
use stand_ins::asked_keys::{AskedKeys, requests_in_words};
use stand_ins::refreshers::PlainLine;
use stand_ins::rows::{Player, misread, raised, rows_hold};
use stand_ins::typing::keys_named;
use std::alloc::Global;
use std::test::Fail;

/// What is passed to `next_cmd`.
#[derive(Clone, Copy, Drop)]
struct Flags {
    single_esc_abort: bool,
    first_by_key: bool,
}

// Commands until the keys end.
fn take_commands(
    alloc: Global,
    state: &mut InputState<'_>,
    reader: &mut AskedKeys<'_>,
    line: &mut PlainLine,
    flags: Flags,
) -> Result<(), ReadlineError> {
    for _ in 0..20 {
        let (abort, by_key) = (flags.single_esc_abort, flags.first_by_key);
        match state.next_cmd(alloc, reader, line, abort, by_key) {
            Ok(_) => {}
            Err(ReadlineError::Eof) => return Ok(()),
            Err(why) => return Err(why),
        }
    }
    Ok(())
}

// How the keys were requested, in words.
fn asked(desk: &Desk<'_>, flags: Flags, keys: &[KeyEvent]) -> Result<String, ReadlineError> {
    let alloc = desk.alloc;
    let config = Config::builder()
        .edit_mode(desk.mode)
        .modal_commands(desk.modal)
        .build();
    let mut state = InputState::new(alloc, &config, &desk.bindings)?;
    let mut line = line_marked(alloc, desk.line)?;
    let mut reader = AskedKeys::new(alloc, keys);
    take_commands(alloc, &mut state, &mut reader, &mut line, flags)?;
    raised(requests_in_words(alloc, reader.requests()))
}

// The mode, whether Esc alone ends the wait of a first key, whether it is requested as a key, and
// whether the commands act that go on over several keys; then the keys. How each is requested.
const ASKED: &str = "
    Emacs: x                  = report
    Emacs key: x              = key
    Emacs abort: x            = report abort
    Emacs abort key: x        = key abort
    Emacs: x y                = report, report
    Emacs abort key: x y      = key abort, key abort
    Emacs: A-3 4 x            = report, key abort, key abort
    Emacs: C-X C-U x          = report, key abort, report
    Emacs: C-O x y            = report, key abort, report
    Emacs: C-O C-P x y        = report, key abort, key abort, report
    Emacs: C-O C-P C-Q x      = report, key abort, key abort, report
    Emacs: C-X C-P C-Q x      = report, key abort, key abort, report
    Emacs: C-] x              = report, key
    Emacs: C-A-] x            = report, key
    Emacs: C-V x              = report, report
    Emacs modal: C-V x y      = report, key abort, report

    Vi: x                     = report
    Vi key: x                 = key
    Vi abort: x               = report
    Vi abort key: x           = key
    Vi: Esc 3 4 x             = report, report, key, key
    Vi: Esc d d x             = report, report, key, report
    Vi: Esc d 2 w x           = report, report, key, key, report
    Vi: Esc d f x y           = report, report, key, key, report
    Vi: Esc f x y             = report, report, key, report
    Vi: Esc r x y             = report, report, key, report
    Vi: C-O x y               = report, key abort, report
    Vi modal: C-V Esc x       = report, key abort, report
    Vi abort: Esc C-O C-P C-Q = report, report, key abort, key abort
";

/// How keys are requested.
#[derive(Clone, Copy, Drop)]
struct Requests;

impl Player for Requests {
    fn play(&mut self, alloc: Global, call: &str) -> Result<String, Fail> {
        let Some((settings, keys)) = call.split_once(": ") else {
            return Err(misread("no keys", call));
        };
        let mode = if settings.contains("Vi") {
            EditMode::Vi
        } else {
            EditMode::Emacs
        };
        let flags = Flags {
            single_esc_abort: settings.contains("abort"),
            first_by_key: settings.contains("key"),
        };
        let mut desk = Desk::new(alloc, mode)?;
        desk.modal = settings.contains("modal");
        bind_command(alloc, &mut desk.bindings, "C-O C-P C-Q", "Repaint")?;
        bind_command(alloc, &mut desk.bindings, "C-X C-P C-Q", "Repaint")?;
        let keys = keys_named(alloc, keys)?;
        raised(asked(&desk, flags, &keys))
    }
}

#[test]
fn keys_are_requested_as_said(rt: HostRuntime) -> Result<(), Fail> {
    rows_hold(rt.alloc(), &mut Requests, ASKED)
}
