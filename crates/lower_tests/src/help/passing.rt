//! When the rows of a history are passed on.

use crate::help::history::add_lines;
use line_config::ReadlineError;
use line_help::FileHistory;
use stand_ins::rows::{Player, raised, rows_hold};
use stand_ins::sinks::FailingSink;
use stand_ins::tables::{pictured_bytes, word_and_rest};
use std::alloc::Global;
use std::test::Fail;

// Calls of one history, and what they write to one sink, with a bar for each flush.
const PASSED_ON: &str = "
    save        = nothing
    append      = nothing
    add ab      = nothing
    add cd      = nothing
    save        = #V2␊ab␊cd␊|
    save        = nothing
    append      = nothing
    add ef      = nothing
    add g       = nothing
    append      = ef␊g␊|
    append      = nothing
    add h       = nothing
    save        = #V2␊ab␊cd␊ef␊g␊h␊|
";

/// A history and its sink.
#[derive(Drop)]
struct Desk {
    history: FileHistory,
    sink: FailingSink,
}

impl Desk {
    fn made(&mut self, alloc: Global, call: &str) -> Result<(), ReadlineError> {
        let (call, line) = word_and_rest(call);
        match call {
            "save" => self.history.save_to(&mut self.sink),
            "append" => self.history.append_to(&mut self.sink),
            "add" => add_lines(alloc, &mut self.history, line),
            _ => Err(ReadlineError::Helper),
        }
    }
}

impl Player for Desk {
    fn play(&mut self, alloc: Global, call: &str) -> Result<String, Fail> {
        let before = self.sink.bytes().len();
        self.made(alloc, call)?;
        let said = match self.sink.bytes().get(before..) {
            Some(written) => pictured_bytes(alloc, written),
            None => String::from_str(alloc, "less than before"),
        };
        raised(said)
    }
}

/// All rows of a call are passed on at once, after the last of them.
#[test]
fn rows_are_passed_on_at_their_end(rt: HostRuntime) -> Result<(), Fail> {
    let history = FileHistory::new(rt.alloc());
    let mut sink = FailingSink::with_room(usize::MAX);
    sink.mark_flushes();
    rows_hold(rt.alloc(), &mut Desk { history, sink }, PASSED_ON)
}
