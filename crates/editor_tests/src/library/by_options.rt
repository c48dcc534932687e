//! Command lines, and sessions with the options that they mean.

ghost use Rattle.std.specs.Prelude.{◌≤◌};

use crate::library::told::{lines_by_bytes, text_of_play};
use keyline::{Ending, Options, Parsed, parse};
use stand_ins::rows::{Player, raised, rows_hold};
use stand_ins::tables::{meant_bytes, parted, pictured_bytes, shown};
use std::alloc::{AllocError, Global};
use std::test::Fail;

/// Parses a row's command line. If a history and keys follow, plays two sessions with the options,
/// and tells the lines of the first one, whose reads give a byte each, and the history's text that
/// the second one makes.
#[derive(Drop)]
struct CommandLine;

impl Player for CommandLine {
    fn play(&mut self, alloc: Global, call: &str) -> Result<String, Fail> {
        let (line, devices) = parted(call, " : ");
        let words: Vec<&str> = line.split_whitespace().collect(alloc)?;
        raised(answer(alloc, words.as_slice(), devices))
    }
}

fn answer(alloc: Global, words: &[&str], devices: &str) -> Result<String, AllocError> {
    match parse(alloc, words) {
        Parsed::Run(options) => answer_to(alloc, &options, devices),
        Parsed::Help(_) => String::from_str(alloc, "help"),
        Parsed::Usage(_) => String::from_str(alloc, "usage"),
        Parsed::Memory => String::from_str(alloc, "memory"),
    }
}

fn answer_to(alloc: Global, options: &Options, devices: &str) -> Result<String, AllocError>
    requires { (2 ≤ options.now.columns) × (options.now.columns ≤ 1000) }
{
    if devices.is_empty() {
        return format!(in alloc; "{options:?}");
    }
    let (history, keys) = parted(devices, " : ");
    let (history, keys) = (meant_bytes(alloc, history)?, meant_bytes(alloc, keys)?);
    played(alloc, options, &history, &keys)
}

fn played(
    alloc: Global,
    options: &Options,
    history: &[u8],
    keys: &[u8],
) -> Result<String, AllocError>
    requires { (2 ≤ options.now.columns) × (options.now.columns ≤ 1000) }
{
    let lines = told(alloc, &lines_by_bytes(alloc, options, history, keys))?;
    let text = told(alloc, &text_of_play(alloc, options, history, keys))?;
    format!(in alloc; "{lines} {text}")
}

/// What a session made, or how it ended.
fn told(alloc: Global, made: &Result<Vec<u8>, Ending>) -> Result<String, AllocError> {
    match made {
        Ok(bytes) => {
            let pictured = pictured_bytes(alloc, bytes)?;
            format!(in alloc; "<{pictured}>")
        }
        Err(ending) => shown(alloc, *ending),
    }
}

const COMMAND_LINES: &str = r#"
    keyline = Options { mode: Emacs, columns: 80, prompt: "> ", prompt_styles: [], history: None, history_size: None, words: None, brackets: false }
    keyline --mode vi --columns 1000 = Options { mode: Vi, columns: 1000, prompt: "> ", prompt_styles: [], history: None, history_size: None, words: None, brackets: false }
    keyline --mode=emacs --columns=2 --prompt=$ = Options { mode: Emacs, columns: 2, prompt: "$", prompt_styles: [], history: None, history_size: None, words: None, brackets: false }
    keyline --prompt ? --history=kept --brackets = Options { mode: Emacs, columns: 80, prompt: "?", prompt_styles: [], history: Some("kept"), history_size: None, words: None, brackets: true }
    keyline --words listed = Options { mode: Emacs, columns: 80, prompt: "> ", prompt_styles: [], history: None, history_size: None, words: Some("listed"), brackets: false }
    keyline --brackets --words=a --history b = Options { mode: Emacs, columns: 80, prompt: "> ", prompt_styles: [], history: Some("b"), history_size: None, words: Some("a"), brackets: true }
    keyline --words= = Options { mode: Emacs, columns: 80, prompt: "> ", prompt_styles: [], history: None, history_size: None, words: Some(""), brackets: false }
    keyline --columns 1 = usage
    keyline --columns 1001 = usage
    keyline --columns 70000 = usage
    keyline --columns -5 = usage
    keyline --columns eighty = usage
    keyline --columns = usage
    keyline --columns= = usage
    keyline --mode ed = usage
    keyline --mode Vi = usage
    keyline --mode vi --mode vi = usage
    keyline --brackets=on = usage
    keyline --history = usage
    keyline --words = usage
    keyline --words a --words b = usage
    keyline --word a = usage
    keyline --colours = usage
    keyline -x = usage
    keyline word = usage
    keyline --help = help
    keyline --mode ed --help = help
    keyline -h = help

    keyline : #V2␊ : ab␍c␍ = <ab␊c␊> <>
    keyline : #V2␊old␊ : ␐␍ = <old␊> <>
    keyline : #V2␊ : a␃ = Interrupted <>
    keyline : ‹ff› : ab␍ = HistoryText HistoryText
    keyline --mode vi : #V2␊ : ab␛x␍ = <a␊> <>
    keyline --history notes : #V2␊ : ␍ = <␊> <>
    keyline --history notes : #V2␊ : (␍)␍ = <(␊)␊> <#V2␊(␊)␊>
    keyline --history notes --brackets : #V2␊ : (␍)␍ = <(␊)␊> <#V2␊(\n)␊>
"#;

#[test]
fn command_lines_and_sessions(rt: HostRuntime) -> Result<(), Fail> {
    rows_hold(rt.alloc(), &mut CommandLine, COMMAND_LINES)
}
