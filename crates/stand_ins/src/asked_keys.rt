//! A reader that notes how each key was asked for.

ghost use Rattle.std.specs.Prelude.{◌≡◌, ◌<◌, ◌≤◌, IfErr, OnOk, length};
ghost use Rattle.line_config.specs.declared.errors.ReadlineError.{ReadlineError};
ghost use Rattle.line_keys.specs.KeyFeeds.{IsReaderRefusal};
ghost use Rattle.stand_ins.specs.Asking.{Notes, key_request};

use line_config::ReadlineError;
use line_keys::tty::Event as Report;
use line_keys::{Cmd, KeyCode, KeyEvent, Modifiers, RawReader, Text};
use std::alloc::{AllocError, Global};

/// How a key was requested.
#[derive(Clone, Copy, Drop)]
pub struct KeyRequest {
    /// As a report of the terminal, and not as a key.
    pub report: bool,
    pub single_esc_abort: bool,
}

/// Gives keys in order, and notes how each was asked for.
#[derive(Drop)]
pub struct AskedKeys<'t> {
    keys: &'t [KeyEvent],
    requests: Vec<KeyRequest>,
}

impl<'t> AskedKeys<'t> {
    pub fn new(alloc: Global, keys: &'t [KeyEvent]) -> Self {
        AskedKeys {
            keys,
            requests: Vec::new(alloc),
        }
    }

    /// How each key was requested, in order.
    pub fn requests(&self) -> &[KeyRequest] {
        &self.requests
    }

    fn give(&mut self, report: bool, single_esc_abort: bool) -> Result<KeyEvent, ReadlineError>
        ensures falls { OnOk result (length self.new.keys.now < length self.old.keys.now) }
        ensures keeps { length self.new.keys.now ≤ length self.old.keys.now }
        ensures err { IfErr result IsReaderRefusal }
        ensures notes { Notes (key_request report single_esc_abort) self.old self.new }
    {
        let [key, rest @ ..] = self.keys else {
            return Err(ReadlineError::Eof);
        };
        self.requests.push(KeyRequest {
            report,
            single_esc_abort,
        })?;
        self.keys = rest;
        Ok(*key)
    }
}

impl RawReader for AskedKeys<'_> {
    ghost use Rattle.std.specs.Prelude.{None};
    ghost use Rattle.stand_ins.specs.Asking.{asked_keys_feed, requests_noted};

    type Buffer = u8;

    ghost feed = { asked_keys_feed };

    ghost asked = { requests_noted };

    ghost kept = { λ _. None };

    fn next_key(&mut self, single_esc_abort: bool) -> Result<KeyEvent, ReadlineError> {
        self.give(false, single_esc_abort)
    }

    fn wait_for_input(&mut self, single_esc_abort: bool) -> Result<Report, ReadlineError> {
        Ok(Report::KeyPress(self.give(true, single_esc_abort)?))
    }

    fn next_char(&mut self) -> Result<char, ReadlineError> {
        self.give(false, false)?;
        Ok('x')
    }

    fn read_pasted_text(&mut self, _alloc: Global) -> Result<Text, ReadlineError> {
        Err(ReadlineError::PasteOutOfPlace)
    }

    fn find_binding(&self, key: &KeyEvent) -> Option<Cmd> {
        match *key {
            KeyEvent(KeyCode::Char('C' | '\\'), Modifiers::CTRL) => Some(Cmd::Interrupt),
            KeyEvent(KeyCode::Char('D'), Modifiers::CTRL) => Some(Cmd::EndOfFile),
            KeyEvent(KeyCode::Char('Z'), Modifiers::CTRL) => Some(Cmd::Suspend),
            _ => None,
        }
    }

    fn unbuffer(self) -> Option<u8> {
        None
    }
}

/// How each key was requested, separated by commas: `report` or `key`, with `abort` after it if
/// Esc alone ends the wait.
pub fn requests_in_words(alloc: Global, requests: &[KeyRequest]) -> Result<String, AllocError> {
    let mut said = String::new(alloc);
    for request in requests {
        if !said.is_empty() {
            said.push_str(", ")?;
        }
        said.push_str(in_words(*request))?;
    }
    Ok(said)
}

fn in_words(request: KeyRequest) -> &'static str {
    match (request.report, request.single_esc_abort) {
        (true, true) => "report abort",
        (true, false) => "report",
        (false, true) => "key abort",
        (false, false) => "key",
    }
}
