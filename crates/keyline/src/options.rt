//! The program's options, parsed from a command line.

ghost use Rattle.std.specs.Prelude.{◌≡◌, ◌≤◌, ◌↔◌, IfOk, IfSome, IsTrue, MatchOption, MatchResult, Some, codes, map};
ghost use Rattle.std.specs.Prelude.{false, option_map, string_bytes};
ghost use Rattle.clap.specs.Words.{app_of, first_of, found_of, kind_of, new_app};
ghost use Rattle.clap.specs.Words.{rows_of, rule_of};
ghost use Rattle.keyline.specs.Options.{ParsesTo, AreColumns, Chooses, ChoosesNone, FailsBy};
ghost use Rattle.keyline.specs.Options.{HasColumns, IsSize, mode_name};
ghost use Rattle.keyline.specs.Options.{Says, command_line, text_option_with_default, flag, text_option};

use crate::help::keys;
use clap::error::ErrorKind;
use clap::{Arg, ArgAction, ArgMatches, Command, Error};
use line_config::EditMode;
use line_help::Span;
use std::alloc::{AllocError, Global};
use std::convert::AsStr;

/// How the program is to run.
#[derive(Debug, Drop)]
pub struct Options {
    /// The keymap.
    pub mode: EditMode,
    /// The number of columns of a row, 2 to 1,000.
    pub columns: u16,
    /// The prompt of each line.
    pub prompt: String,
    /// The prompt's styles, which a display with colours has. [`parse`] gives none.
    pub prompt_styles: Vec<Span>,
    /// The path of the history file, if any.
    pub history: Option<String>,
    /// The most entries of the history, 1 to 1,000,000, if they are given.
    pub history_size: Option<usize>,
    /// The path of the file with words to complete, if any.
    pub words: Option<String>,
    /// Whether a line with open brackets continues in a new row.
    pub brackets: bool,
}

/// The meaning of a command line.
#[derive(Debug, Drop)]
pub enum Parsed {
    /// A session with these options.
    Run(Options),
    /// The help text, for standard output; the program then ends with status 0.
    Help(String),
    /// What is wrong with the command line, and the usage, for standard error; the status is 2.
    Usage(String),
    /// Unknown: an allocation failed.
    Memory,
}

/// Parses a command line; the first word is the program's name: `[--mode emacs|vi] [--columns
/// 2..1000] [--prompt TEXT] [--history FILE] [--history-size 1..1000000] [--words FILE]
/// [--brackets]`.
pub fn parse<S: AsStr>(alloc: Global, words: &[S]) -> Parsed
    ensures answers { ParsesTo (map S.text words.now) result }
    ensures columns { HasColumns result }
{
    match try_parse(alloc, words) {
        Ok(options) => Parsed::Run(options),
        Err(error) => refused(alloc, &error),
    }
}

// The answer to a command line without options.
fn refused(alloc: Global, error: &Error) -> Parsed
    ensures says { Says (kind_of error.now) result }
    ensures columns { HasColumns result }
{
    let Ok(text) = error.to_string(alloc) else {
        return Parsed::Memory;
    };
    match error.kind() {
        ErrorKind::DisplayHelp => Parsed::Help(text),
        ErrorKind::OutOfMemory => Parsed::Memory,
        _ => Parsed::Usage(text),
    }
}

fn try_parse<'a, S: AsStr>(alloc: Global, words: &'a [S]) -> Result<Options, Error>
    ensures gives { MatchResult result
        (λ options. ParsesTo (map S.text words.now) (Parsed.Run options))
        (λ error. FailsBy (map S.text words.now) (kind_of error)) }
    ensures columns { IfOk result (λ options. (2 ≤ options.columns) × (options.columns ≤ 1000)) }
{
    let matches = command_line(alloc)?.try_get_matches_from(words)?;
    match chosen(alloc, &matches)? {
        Some(options) => Ok(options),
        None => Err(none_chosen(alloc, given(&matches, "history-size"))?),
    }
}

// The error if the texts choose no options, by that of `--history-size`.
fn none_chosen(alloc: Global, size: Option<&str>) -> Result<Error, AllocError>
    ensures { IfOk result (λ error. kind_of error ≡ ErrorKind.InvalidValue) }
{
    let what = match size_of(size) {
        Some(_) => "--mode is emacs or vi, and --columns a number from 2 to 1000",
        None => "--history-size is a number from 1 to 1000000",
    };
    command_line(alloc)?.error(ErrorKind::InvalidValue, what)
}

fn command_line<'a>(alloc: Global) -> Result<Command<'a>, AllocError>
    ensures { IfOk result (λ command. app_of command ≡ command_line) }
{
    described(alloc)?
        .arg(defaulted(alloc, "mode", "emacs|vi", "emacs", "Keymap"))?
        .arg(defaulted(alloc, "columns", "2..1000", "80", COLUMNS))?
        .arg(defaulted(
            alloc,
            "prompt",
            "TEXT",
            "> ",
            "What stands before each line",
        ))?
        .arg(text_option(
            alloc,
            "history",
            "FILE",
            "File that keeps the lines [default: none]",
        ))?
        .arg(text_option(alloc, "history-size", "N", HISTORY_SIZE))?
        .arg(text_option(alloc, "words", "FILE", WORDS))?
        .arg(flag(alloc, "brackets", BRACKETS))
}

const COLUMNS: &str = "Columns of a row; ./keyline takes the terminal's";

const HISTORY_SIZE: &str = "Most lines of the history [default: 100; with --extended 100000]";

const WORDS: &str = "File of words that Tab completes, one a row [default: none]";

const BRACKETS: &str = "Lets a line go on while a bracket is open [default: off]";

// The command, with the same usage line whatever its file is called.
fn described<'a>(alloc: Global) -> Result<Command<'a>, AllocError>
    ensures { IfOk result (λ command. app_of command ≡ new_app (codes "keyline")) }
{
    Command::new(alloc, "keyline")
        .about("A line editor: keys from standard input, accepted lines to standard output")
        .after_help(keys())
        .bin_name("keyline")
}

fn text_option<'a>(alloc: Global, id: &'a str, value: &'a str, help: &'a str) -> Arg<'a>
    ensures rule { rule_of result ≡ text_option id.entry.now }
    ensures local { result.global ≡ false }
{
    Arg::new(alloc, id).long(id).value_name(value).help(help)
}

fn defaulted<'a>(
    alloc: Global,
    id: &'a str,
    value: &'a str,
    text: &'a str,
    help: &'a str,
) -> Arg<'a>
    ensures rule { rule_of result ≡ text_option_with_default id.entry.now text.entry.now }
    ensures local { result.global ≡ false }
{
    Arg::new(alloc, id)
        .long(id)
        .value_name(value)
        .default_value(text)
        .help(help)
}

fn flag<'a>(alloc: Global, id: &'a str, help: &'a str) -> Arg<'a>
    ensures rule { rule_of result ≡ flag id.entry.now }
    ensures local { result.global ≡ false }
{
    Arg::new(alloc, id)
        .long(id)
        .action(ArgAction::SetTrue)
        .help(help)
}

fn chosen(alloc: Global, matches: &ArgMatches<'_>) -> Result<Option<Options>, AllocError>
    ensures choice { IfOk result (λ options. MatchOption options
        (ChoosesNone (rows_of (found_of matches.now)))
        (Chooses (rows_of (found_of matches.now)))) }
    ensures columns { IfOk result (λ options. IfSome options (λ o.
        (2 ≤ o.columns) × (o.columns ≤ 1000))) }
{
    let Some(mode) = mode_of(given(matches, "mode")) else {
        return Ok(None);
    };
    let Some(columns) = columns_of(given(matches, "columns")) else {
        return Ok(None);
    };
    let Some(prompt) = given(matches, "prompt") else {
        return Ok(None);
    };
    let Some(history_size) = size_of(given(matches, "history-size")) else {
        return Ok(None);
    };
    Ok(Some(Options {
        mode,
        columns,
        prompt: String::from_str(alloc, prompt)?,
        prompt_styles: Vec::new(alloc),
        history: owned(alloc, given(matches, "history"))?,
        history_size,
        words: owned(alloc, given(matches, "words"))?,
        brackets: is_on(given(matches, "brackets")),
    }))
}

// The text of an option.
fn given<'a>(matches: &ArgMatches<'a>, id: &str) -> Option<&'a str>
    ensures { option_map (λ s. s.now) result ≡ first_of id.now (rows_of (found_of matches.now)) }
{
    matches.get_str(id)
}

// A copy of the text, if there is one.
fn owned(alloc: Global, text: Option<&str>) -> Result<Option<String>, AllocError>
    ensures { IfOk result (λ own. option_map string_bytes own
        ≡ option_map (λ s. s.now) text.entry) }
{
    match text {
        Some(text) => Ok(Some(String::from_str(alloc, text)?)),
        None => Ok(None),
    }
}

fn mode_of(name: Option<&str>) -> Option<EditMode>
    ensures { MatchOption result
        ((mode : _) → option_map (λ s. s.now) name.entry ≡ Some (mode_name mode) → ⊥)
        (λ mode. option_map (λ s. s.now) name.entry ≡ Some (mode_name mode)) }
{
    match name? {
        "emacs" => Some(EditMode::Emacs),
        "vi" => Some(EditMode::Vi),
        _ => None,
    }
}

fn columns_of(text: Option<&str>) -> Option<u16>
    ensures choice { MatchOption result
        ((columns : _) → AreColumns (option_map (λ s. s.now) text.entry) columns → ⊥)
        (AreColumns (option_map (λ s. s.now) text.entry)) }
    ensures range { IfSome result (λ columns. (2 ≤ columns) × (columns ≤ 1000)) }
{
    match text?.parse::<u16>() {
        Ok(columns) if 2 <= columns && columns <= 1000 => Some(columns),
        _ => None,
    }
}

// The number of entries that the text writes, if there is one; `None` for another text.
fn size_of(text: Option<&str>) -> Option<Option<usize>>
    ensures { MatchOption result
        ((size : _) → IsSize (option_map (λ s. s.now) text.entry) size → ⊥)
        (IsSize (option_map (λ s. s.now) text.entry)) }
{
    let Some(text) = text else {
        return Some(None);
    };
    match text.parse::<usize>() {
        Ok(size) if 1 <= size && size <= 1_000_000 => Some(Some(size)),
        _ => None,
    }
}

fn is_on(text: Option<&str>) -> bool
    ensures { IsTrue result ↔ (option_map (λ s. s.now) text.entry ≡ Some (codes "true")) }
{
    text == Some("true")
}
