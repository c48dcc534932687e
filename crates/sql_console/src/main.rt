//! A console over a database in memory: statements from edited lines, answers on standard output.
#![tactic(auto)]

mod answer;
mod arguments;
mod highlighter;
mod keys;
mod mistake;
mod requests;
mod statements;
mod table;
mod tokens;

use crate::arguments::{Asked, USAGE, read_arguments};
use crate::highlighter::StatementHighlighter;
use crate::requests::{COMMANDS, Request, request_of};
use crate::statements::Statements;
use anyhow::{Context, Result, bail};
use keyline::{
    Ending, HelperParts, LineEditor, ReadlineError, SliceSource, StandardEditor, VecSink,
    WholeWordCompleter, standard_builder,
};
use keyline_files::{HistoryFile, load_history_lossy};
use sqlite::Connection;
use std::io::IsTerminal;
use std::process::ExitCode;

/// What a terminal shows before the first prompt.
const GREETING: &str = "A database in memory: .help lists commands, .quit leaves.";

/// The status if an argument is wrong.
const WRONG_ARGUMENTS: u8 = 2;

type Help = HelperParts<WholeWordCompleter, Statements, StatementHighlighter, Statements>;

/// An editor whose history is kept.
type Editor = StandardEditor<Help, VecSink>;

/// Completes the names of tables, a sole one with a space after it, draws a statement in colours,
/// and waits for its end.
fn helper(tables: Vec<String>) -> Help {
    HelperParts {
        completer: WholeWordCompleter::new(tables, " "),
        hinter: Statements,
        highlighter: StatementHighlighter,
        validator: Statements,
    }
}

/// Appends the rows of the new entries to the history's file, if there is one. If that fails, they
/// are appended with the next ones.
fn keep(editor: &mut Editor, file: &mut Option<HistoryFile<'_>>) -> Result<()> {
    if let Some(file) = file {
        file.add(&editor.take_new_rows()?)?;
        let _ = file.append();
    }
    Ok(())
}

/// Reads statements and answers them, until `.quit` or the end of the input.
fn converse(
    rt: &HostRuntime,
    editor: &mut Editor,
    file: &mut Option<HistoryFile<'_>>,
) -> Result<()> {
    let mut conn = Connection::open_in_memory(rt.alloc())?;
    let mut text = String::new(rt.alloc());
    for _ in 0..u64::MAX {
        let prompt = if text.is_empty() { "sql> " } else { "...> " };
        match editor.read_line(prompt) {
            Ok(line) => {
                keep(editor, file)?;
                text.push_str(line.as_str())?;
            }
            Err(ReadlineError::Interrupted) => text.clear(),
            Err(_) => break,
        }
        match request_of(text.as_str()) {
            Request::More => continue,
            Request::Quit => break,
            Request::Help => print!(rt; "{COMMANDS}")?,
            Request::Tables => answer::print_tables(rt, &mut conn)?,
            Request::Unknown(word) => requests::refuse(rt, word)?,
            Request::Statement(sql) => answer::print(rt, &mut conn, sql)?,
        }
        editor
            .session
            .set_helper(Some(helper(answer::tables(rt.alloc(), &mut conn))));
        text.clear();
    }
    Ok(())
}

/// Converses in lines, with the history that the file at the path keeps, if one is given.
fn console(rt: &HostRuntime, path: Option<&str>) -> Result<()> {
    if rt.stdin().is_terminal() {
        eprintln!(rt; "{GREETING}")?;
    }
    let old = match path {
        Some(path) => load_history_lossy(rt, path).context("the history does not load")?,
        None => Vec::new(rt.alloc()),
    };
    let session = standard_builder(rt)
        .bindings(keys::bindings(rt.alloc())?)
        .helper(helper(Vec::new(rt.alloc())))
        .history(SliceSource::new(&old), VecSink::new(rt.alloc()))
        .open()
        .map_err(|unopened| unopened.why)?;
    let mut editor = LineEditor::new(session);
    let mut file = match path {
        Some(path) => Some(HistoryFile::new(rt, path)),
        None => None,
    };
    let answered = converse(rt, &mut editor, &mut file);
    if let Some(file) = &mut file {
        file.append().context("the history is not saved")?;
    }
    answered?;
    match editor.finish().ending {
        Ending::Eof => Ok(()),
        ending => bail!("{}", ending.text()),
    }
}

/// Does what the arguments ask for, and answers the status.
fn run(rt: &HostRuntime) -> Result<ExitCode> {
    match read_arguments(rt)? {
        Asked::Console(path) => console(rt, path.as_deref())?,
        Asked::Help => print!(rt; "{USAGE}")?,
        Asked::Unknown => {
            eprint!(rt; "sql_console: unknown arguments\n{USAGE}")?;
            return Ok(ExitCode::from(WRONG_ARGUMENTS));
        }
    }
    Ok(ExitCode::SUCCESS)
}

fn main(rt: HostRuntime) -> ExitCode {
    run(&rt).unwrap_or_else(|error| {
        let _ = eprintln!(rt; "sql_console: {error:#}");
        ExitCode::FAILURE
    })
}
