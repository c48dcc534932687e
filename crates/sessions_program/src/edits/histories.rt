//! Calls of histories that take memory, each with its required result if it succeeds and if it
//! fails.

use crate::edits::row_sink::RowSink;
use line_config::{HookFault, ReadlineError, SliceSource, VecSink};
use line_help::{Context, FileHistory, Hinter, History, HistoryHinter};
use std::alloc::Global;
use std::io;

/// Lines that differ in length, so that their texts and the list of them grow at different ones.
const LINES: [&str; 10] = [
    "one",
    "two words",
    "a line that is longer than the ones before it, so that its text takes more room than theirs",
    "\u{6F22}\u{5B57}",
    "five",
    "six and seven",
    "eight",
    "nine",
    "ten",
    "a last one that is longer than all of them, with many words in it, so that what holds a row of the text grows again",
];

/// A text with escapes, some of them wrong, its entries, and the rows that are saved for them.
const ESCAPED: &[u8] =
    b"#V2\na\\nb\nc\\\\\nd\\e\r\n\na row that takes more room than those\\nbefore it\nf\\";

const ENTRIES: [&str; 6] = [
    "old",
    "a\nb",
    "c\\",
    "d\\e",
    "a row that takes more room than those\nbefore it",
    "f\\",
];

const ROWS: [&str; 5] = [
    "a\\nb",
    "c\\\\",
    "d\\\\e",
    "a row that takes more room than those\\nbefore it",
    "f\\\\",
];

/// One call, or several of them.
#[derive(Clone, Copy)]
enum Call {
    Add,
    AddWhereFull,
    AddOwned,
    Load,
    Save,
    Append,
    Hint,
}

const CALLS: [(Call, &str); 7] = [
    (Call::Add, "history add"),
    (Call::AddWhereFull, "history add where full"),
    (Call::AddOwned, "history add_owned"),
    (Call::Load, "history load_from"),
    (Call::Save, "history save_to"),
    (Call::Append, "history append_to"),
    (Call::Hint, "history hint"),
];

/// Whether everything was done, and whether the result is as required.
#[derive(Clone, Copy)]
struct Came {
    done: bool,
    stands: bool,
}

fn has_entries(history: &FileHistory, entries: &[&str]) -> bool {
    if history.len() != entries.len() {
        return false;
    }
    for (entry, wanted) in history.iter().zip(entries) {
        if entry.as_str() != *wanted {
            return false;
        }
    }
    true
}

/// Whether exactly these rows are still to be appended.
fn has_new(history: &mut FileHistory, rows: &[&str]) -> bool {
    let mut sink = RowSink::new(rows);
    history.append_to(&mut sink).is_ok() && sink.are_taken()
}

fn add(
    alloc: Global,
    history: &mut FileHistory,
    line: &str,
    owned: bool,
) -> Result<bool, ReadlineError> {
    if !owned {
        return history.add(alloc, line);
    }
    let text = String::from_str(alloc, line)?;
    history.add_owned(alloc, text)
}

/// Adds the lines, each once, until one fails: how many, and whether each answer is right.
fn add_lines(alloc: Global, history: &mut FileHistory, owned: bool) -> (usize, bool) {
    let mut count = 0usize;
    for line in &LINES {
        match add(alloc, history, line, owned) {
            Ok(true) => count = count.saturating_add(1),
            Ok(false) => return (count, false),
            Err(error) => return (count, error == ReadlineError::Memory),
        }
    }
    (count, true)
}

/// Adds the lines until one fails. Those before it are the entries, as far as the history keeps
/// them, and all of them are new.
fn add_all(alloc: Global, size: usize, owned: bool) -> Came {
    let mut history = FileHistory::new(alloc);
    history.set_max_len(size);
    let (count, right) = add_lines(alloc, &mut history, owned);
    let added = &LINES[..count.min(LINES.len())];
    let kept = &added[added.len().saturating_sub(size)..];
    let stands = right && has_entries(&history, kept) && has_new(&mut history, kept);
    Came {
        done: count == LINES.len(),
        stands,
    }
}

/// Loads after an entry that was saved. A failed load leaves the rows before it, which are new.
fn load(alloc: Global) -> Option<Came> {
    let mut history = with_saved(alloc, &["old"])?;
    let answer = history.load_from(alloc, &mut SliceSource::new(ESCAPED));
    let count = history.len().saturating_sub(1);
    let new = match answer {
        Ok(_) => 0,
        Err(_) => count,
    };
    let right = match answer {
        Ok(whole) => whole && count == ROWS.len(),
        Err(error) => error == ReadlineError::Memory,
    };
    let stands = right
        && has_entries(&history, &ENTRIES[..history.len().min(ENTRIES.len())])
        && has_new(&mut history, &ROWS[..new.min(ROWS.len())]);
    Some(Came {
        done: answer.is_ok(),
        stands,
    })
}

/// A history with these entries, none of them new.
fn with_saved(alloc: Global, lines: &[&str]) -> Option<FileHistory> {
    let mut history = with_new(alloc, lines)?;
    if !has_new(&mut history, lines) {
        return None;
    }
    Some(history)
}

fn with_new(alloc: Global, lines: &[&str]) -> Option<FileHistory> {
    let mut history = FileHistory::new(alloc);
    for line in lines {
        if history.add(alloc, line).is_err() {
            return None;
        }
    }
    Some(history)
}

/// Saves to memory. A failed allocation of the sink is its failure, and leaves all entries new.
fn save(alloc: Global) -> Option<Came> {
    let mut history = with_new(alloc, &LINES)?;
    let answer = history.save_to(&mut VecSink::new(alloc));
    Some(written(&mut history, answer))
}

/// The same for appended entries.
fn append(alloc: Global) -> Option<Came> {
    let mut history = with_new(alloc, &LINES)?;
    let answer = history.append_to(&mut VecSink::new(alloc));
    Some(written(&mut history, answer))
}

fn written(history: &mut FileHistory, answer: Result<(), ReadlineError>) -> Came {
    let new = match answer {
        Ok(()) => 0,
        Err(_) => LINES.len(),
    };
    let right = answer.is_ok() || answer == Err(ReadlineError::HistoryText);
    let stands = right && has_entries(history, &LINES) && has_new(history, &LINES[..new]);
    Came {
        done: answer.is_ok(),
        stands,
    }
}

fn hint(alloc: Global) -> Option<Came> {
    let history = with_new(alloc, &["hello world"])?;
    let answer = HistoryHinter::new().hint(alloc, "hello", 5, &Context::new(&history));
    let stands = match &answer {
        Ok(Some(rest)) => rest.as_str() == " world",
        Ok(None) => false,
        Err(fault) => *fault == HookFault::Memory,
    };
    Some(Came {
        done: answer.is_ok(),
        stands,
    })
}

fn made(alloc: Global, call: Call) -> Option<Came> {
    match call {
        Call::Add => Some(add_all(alloc, 100, false)),
        Call::AddWhereFull => Some(add_all(alloc, 3, false)),
        Call::AddOwned => Some(add_all(alloc, 100, true)),
        Call::Load => load(alloc),
        Call::Save => save(alloc),
        Call::Append => append(alloc),
        Call::Hint => hint(alloc),
    }
}

/// Makes the calls, and prints a row for each.
pub(crate) fn check(rt: &impl Print, alloc: Global) -> io::Result<()> {
    for (call, name) in &CALLS {
        let words = match made(alloc, *call) {
            None => "not begun",
            Some(Came { stands: false, .. }) => "WRONG",
            Some(Came { done: true, .. }) => "done",
            Some(Came { done: false, .. }) => "refused",
        };
        println!(rt; "{name}: {words}")?;
    }
    Ok(())
}
