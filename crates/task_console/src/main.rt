//! A list of tasks, in memory: `add TEXT`, `list`, `done NUMBER` and `quit`.
#![tactic(auto)]

mod help;
mod keys;
mod tasks;

use crate::help::{Continued, Usages};
use crate::tasks::answer;
use keyline::{
    HelperParts, LineEditor, ReadlineError, StandardEditor, StandardHighlighter, WordCompleter,
    standard_builder,
};
use std::alloc::{AllocError, Global};

type Help = HelperParts<WordCompleter, Usages, StandardHighlighter, Continued>;

/// The commands, which Tab completes.
fn commands(alloc: Global) -> Result<Vec<String>, AllocError> {
    let mut words = Vec::new(alloc);
    for word in &["add", "list", "done", "quit"] {
        words.push(String::from_str(alloc, word)?)?;
    }
    Ok(words)
}

/// Reads commands and answers them, until `quit` or the end of the input.
fn converse(rt: &HostRuntime, editor: &mut StandardEditor<Help>) -> Result<(), ReadlineError> {
    let mut tasks = Vec::new(rt.alloc());
    for _ in 0..u64::MAX {
        match editor.read_line("task> ") {
            Ok(line) if line.as_str().trim() == "quit" => break,
            Ok(line) => answer(rt, &mut tasks, line.as_str())?,
            Err(ReadlineError::Interrupted) => {}
            Err(ReadlineError::Eof) => break,
            Err(why) => return Err(why),
        }
    }
    Ok(())
}

fn main(rt: HostRuntime) -> Result<(), ReadlineError> {
    let helper = HelperParts {
        completer: WordCompleter::new(commands(rt.alloc())?),
        hinter: Usages,
        highlighter: StandardHighlighter::new(),
        validator: Continued,
    };
    let session = standard_builder(&rt)
        .bindings(keys::bindings(rt.alloc())?)
        .helper(helper)
        .open()?;
    converse(&rt, &mut LineEditor::new(session))
}
