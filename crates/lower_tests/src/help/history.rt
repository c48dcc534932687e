//! Histories, call by call. An entry has a bar after it.

use crate::help::asks::{Ask, Try};
use crate::help::words::source_of;
use line_config::{ReadlineError, SliceSource, Source, VecSink};
use line_help::{FileHistory, History, SearchDirection, SearchResult};
use stand_ins::rows::{Player, raised, rows_hold, trimmed};
use stand_ins::tables::{marked, meant, meant_bytes, pictured, pictured_bytes, word_and_rest};
use std::alloc::{AllocError, Global};
use std::test::Fail;

// An answer, and the entries of a history, a bar after each.
fn told_with_entries(
    alloc: Global,
    history: &FileHistory,
    answer: &str,
) -> Result<String, AllocError> {
    let mut text = String::from_str(alloc, answer)?;
    write_entries(alloc, history, &mut text)?;
    Ok(text)
}

fn write_entries(
    alloc: Global,
    history: &FileHistory,
    text: &mut String,
) -> Result<(), AllocError> {
    for index in 0..history.len() {
        if let Some(found) = history.get(index, SearchDirection::Forward) {
            write_entry(alloc, text, found.entry)?;
        }
    }
    Ok(())
}

/// An entry, and a bar after it.
pub(crate) fn write_entry(alloc: Global, text: &mut String, entry: &str) -> Result<(), AllocError> {
    let entry = pictured(alloc, entry)?;
    write!(text, "{entry}|")
}

// Adds a line.
fn add_line(alloc: Global, history: &mut FileHistory, line: &str) -> Result<bool, ReadlineError> {
    let line = meant(alloc, line)?;
    history.add(alloc, line.as_str())
}

fn add_owned(alloc: Global, history: &mut FileHistory, line: &str) -> Result<bool, ReadlineError> {
    let line = meant(alloc, line)?;
    history.add_owned(alloc, line)
}

/// Adds lines, each of which ends in a bar.
pub(crate) fn add_lines(
    alloc: Global,
    history: &mut FileHistory,
    lines: &str,
) -> Result<(), ReadlineError> {
    for line in lines.split_terminator('|') {
        let _ = add_line(alloc, history, line)?;
    }
    Ok(())
}

// A history to which these lines were added, each of which ends in a bar.
fn with_lines(alloc: Global, lines: &str) -> Result<FileHistory, ReadlineError> {
    let mut history = FileHistory::new(alloc);
    add_lines(alloc, &mut history, lines)?;
    Ok(history)
}

// The text that a save of the history writes, if it succeeds.
fn saved(alloc: Global, history: &mut FileHistory) -> Result<String, ReadlineError> {
    let mut sink = VecSink::new(alloc);
    history.save_to(&mut sink)?;
    raised(pictured_bytes(alloc, sink.bytes()))
}

// The answer of loading a text: whether the text was whole, or why it failed.
fn answer_told(answer: Result<bool, ReadlineError>) -> &'static str {
    match answer {
        Ok(true) => "whole ",
        Ok(false) => "part ",
        Err(ReadlineError::HistoryText) => "HistoryText ",
        Err(ReadlineError::Reader) => "Reader ",
        Err(_) => "another ",
    }
}

// A text that a new history loads; whether it was whole, the entries, and which of them are new
// then. After a text that is cut the source fails.
const LOADED: &str = r"
    whole #V2␊a\nb␊c\\d␊e\x␊         = whole a␊b|c\d|e\x|
    whole a\nb␊                      = part a\nb|
    whole                            = part
    whole #V2␊                       = whole
    whole #V2                        = whole
    whole #V2␍␊x␍␊␍␊y␍               = whole x|y␍|
    whole ␊#V2␊a␊                    = part #V2|a|
    whole #V2␊␊␊a␊                   = whole a|
    whole #V2␊a␊a␊b␊                 = part a|b|
    whole #V2␊a\                     = whole a\|
    whole #V2␊\n\\n\q␊\\\n␊          = whole \n\\n\q|\␊|
    whole a␍␍␊b                      = part a␍|b|
    whole ‹ff›␊a␊                    = HistoryText
    whole #V2␊a␊‹c3›␊b␊              = HistoryText a|, new #V2␊a␊
    whole #V2␊a␊b␊‹e2 82›            = HistoryText a|b|, new #V2␊a␊b␊
    cut                              = Reader
    cut #                            = Reader
    cut #V                           = Reader
    cut #V2                          = Reader
    cut #V2␊                         = Reader
    cut #V2␊a                        = Reader
    cut #V2␊a\                       = Reader
    cut #V2␊a\n                      = Reader
    cut #V2␊a\nb                     = Reader
    cut #V2␊a\nb␊                    = Reader a␊b|, new #V2␊a\nb␊
    cut #V2␊a\nb␊c                   = Reader a␊b|, new #V2␊a\nb␊
    cut #V2␊a\nb␊c␊                  = Reader a␊b|c|, new #V2␊a\nb␊c␊
    cut #V2␊a\nb␊c␊d                 = Reader a␊b|c|, new #V2␊a\nb␊c␊
    cut a␊‹ff›␊b                     = HistoryText a|, new #V2␊a␊
";

/// The answer of a history to a source that it loads, and its entries then.
pub(crate) fn load_told<S: Source>(
    alloc: Global,
    history: &mut FileHistory,
    source: &mut S,
) -> Result<String, AllocError> {
    let answer = answer_told(history.load_from(alloc, source));
    told_with_entries(alloc, history, answer)
}

// The same, and which of the entries are new.
fn loaded(
    alloc: Global,
    history: &mut FileHistory,
    source: &mut SliceSource<'_>,
) -> Result<String, ReadlineError> {
    let said = load_told(alloc, history, source)?;
    let new = saved(alloc, history)?;
    let mark = if new.is_empty() { "" } else { ", new " };
    raised(format!(in alloc; "{said}{mark}{new}"))
}

/// The answer of a new history to a row's text.
pub(crate) fn loaded_anew(alloc: Global, call: &str) -> Result<String, ReadlineError> {
    let (end, text) = word_and_rest(call);
    let text = meant_bytes(alloc, text)?;
    let mut source = source_of(end, &text);
    loaded(alloc, &mut FileHistory::new(alloc), &mut source)
}

// A text that is loaded by histories with these settings: the most entries, and what is ignored.
const SETTINGS_TEXT: &str = "#V2\na\na\n b\n\u{3000}c\nd\n";

const SETTINGS: &str = "
    100                 = whole a|a| b|\u{3000}c|d|
    100 repeated        = part a| b|\u{3000}c|d|
    100 spaces          = part a|a|d|
    100 spaces repeated = part a|d|
    2                   = whole \u{3000}c|d|
    1                   = whole d|
    1 spaces repeated   = part d|
    0                   = part
";

/// The answer of a history with a row's settings to the text, and its entries then.
pub(crate) fn loaded_under(alloc: Global, settings: &str) -> Result<String, AllocError> {
    let (size, ignored) = word_and_rest(settings);
    let mut history = FileHistory::new(alloc);
    history.set_max_len(size.parse().unwrap_or(0));
    history.ignore_space(ignored.contains("spaces"));
    history.ignore_dups(ignored.contains("repeated"));
    let mut source = SliceSource::new(SETTINGS_TEXT.as_bytes());
    load_told(alloc, &mut history, &mut source)
}

#[test]
fn texts_that_are_loaded(rt: HostRuntime) -> Result<(), Fail> {
    rows_hold(rt.alloc(), &mut Try::Loaded, LOADED)?;
    rows_hold(rt.alloc(), &mut Ask::Settings, SETTINGS)
}

// Where a search found an entry: the index of the entry, and the entry with a bar at the place in
// it.
fn hit_told(alloc: Global, found: Option<SearchResult<'_>>) -> Result<String, AllocError> {
    match found {
        Some(found) => {
            let (place, entry) = (found.idx, marked(alloc, found.entry, found.pos)?);
            format!(in alloc; "{place} {entry}")
        }
        None => String::from_str(alloc, "none"),
    }
}

// Adds a line, and returns whether it did, in a word.
fn added(
    alloc: Global,
    history: &mut FileHistory,
    call: &str,
    text: &str,
) -> Result<&'static str, ReadlineError> {
    let added = match call {
        "add" => add_line(alloc, history, text),
        _ => add_owned(alloc, history, text),
    };
    Ok(if added? { "added " } else { "ignored " })
}

// Sets what is kept and what is ignored, which has no answer.
fn set(history: &mut FileHistory, call: &str, text: &str) -> &'static str {
    let (size, yes) = (text.parse().unwrap_or(0), text == "yes");
    match call {
        "max_len" => history.set_max_len(size),
        "ignore_dups" => history.ignore_dups(yes),
        "ignore_space" => history.ignore_space(yes),
        "clear" => history.clear(),
        _ => return "no call ",
    }
    ""
}

// Looks an entry up; or changes the history, and returns its answer and the entries then.
fn answered(
    alloc: Global,
    history: &mut FileHistory,
    call: &str,
    text: &str,
) -> Result<String, ReadlineError> {
    let answer = match call {
        "search" | "starts_with" | "get" => return raised(looked_up(alloc, history, call, text)),
        "add" | "add_owned" => added(alloc, history, call, text)?,
        _ => set(history, call, text),
    };
    raised(told_with_entries(alloc, history, answer))
}

// Looks an entry up, like `search forward 3 line` does from the index 3 on.
fn looked_up(
    alloc: Global,
    history: &FileHistory,
    call: &str,
    text: &str,
) -> Result<String, AllocError> {
    let (dir, place, term) = direction_place_and_term(text);
    let found = match call {
        "search" => history.search(term, place, dir),
        "starts_with" => history.starts_with(term, place, dir),
        _ => history.get(place, dir),
    };
    hit_told(alloc, found)
}

// The direction of the search, the index from which it starts, and the term.
fn direction_place_and_term(text: &str) -> (SearchDirection, usize, &str) {
    let (dir, rest) = word_and_rest(text);
    let (place, term) = word_and_rest(rest);
    let place = place.parse().unwrap_or(0);
    match dir {
        "forward" => (SearchDirection::Forward, place, term),
        _ => (SearchDirection::Reverse, place, term),
    }
}

// A history, and the text of its saves.
#[derive(Drop)]
struct Desk {
    history: FileHistory,
    file: VecSink,
}

impl Desk {
    // Makes a call, and returns its result: for a save the text that it writes, and for an addition
    // the whole text then.
    fn made(&mut self, alloc: Global, call: &str, text: &str) -> Result<String, ReadlineError> {
        match call {
            "save" => self.save(alloc),
            "append" => self.append(alloc),
            "reload" => self.reload(alloc),
            _ => answered(alloc, &mut self.history, call, text),
        }
    }

    // A save that writes nothing leaves the text as it is.
    fn save(&mut self, alloc: Global) -> Result<String, ReadlineError> {
        let mut sink = VecSink::new(alloc);
        self.history.save_to(&mut sink)?;
        let written = pictured_bytes(alloc, sink.bytes())?;
        if !written.is_empty() {
            self.file = sink;
        }
        Ok(written)
    }

    fn append(&mut self, alloc: Global) -> Result<String, ReadlineError> {
        self.history.append_to(&mut self.file)?;
        raised(pictured_bytes(alloc, self.file.bytes()))
    }

    fn reload(&mut self, alloc: Global) -> Result<String, ReadlineError> {
        self.history = FileHistory::new(alloc);
        self.history.set_max_len(2);
        loaded(
            alloc,
            &mut self.history,
            &mut SliceSource::new(self.file.bytes()),
        )
    }
}

impl Player for Desk {
    fn play(&mut self, alloc: Global, call: &str) -> Result<String, Fail> {
        let (call, text) = word_and_rest(call);
        let said = self.made(alloc, call, text)?;
        trimmed(alloc, said.as_str())
    }
}

// Plays a table on a history with these lines.
fn plays_with(alloc: Global, lines: &str, table: &str) -> Result<(), Fail> {
    let history = with_lines(alloc, lines)?;
    let file = VecSink::new(alloc);
    rows_hold(alloc, &mut Desk { history, file }, table)
}

const SAVED: &str = r"
    save                = #V2␊x\\y␊
    save                = nothing
    add z               = added x\y|z|
    append              = #V2␊x\\y␊z␊
    append              = #V2␊x\\y␊z␊
    add new             = added x\y|z|new|
    clear               = nothing
    save                = nothing
";

// Rows appended after a saved text. More lines are added than the history keeps, and the first of
// them equals the last saved one. Loading still restores the list, and so it does after a second
// round, in which a repeated row is ignored.
const APPENDED: &str = r"
    max_len 2           = nothing
    add a               = added a|
    add b               = added a|b|
    save                = #V2␊a␊b␊
    add c               = added b|c|
    add b               = added c|b|
    add d               = added b|d|
    append              = #V2␊a␊b␊b␊d␊
    reload              = part b|d|
    add d               = ignored b|d|
    add ␊               = added d|␊|
    add e               = added ␊|e|
    append              = #V2␊a␊b␊b␊d␊\n␊e␊
    reload              = part ␊|e|
";

const SEARCHES: &str = "
    search reverse 1 line       = 1 |line2
    search reverse 1 none       = none
    search reverse 1            = none
    search reverse 3 line       = none
    search reverse 2 1          = 0 line|1
    search forward 0 3          = 2 line|3
    search forward 1 1          = none
    starts_with reverse 2 line  = 2 line|3
    starts_with reverse 2 ine   = none
    max_len 1                   = line3|
    save                        = #V2␊line3␊
";

const ADDED: &str = "
    ignore_space yes    = nothing
    add line2           = added line2|
    add line2           = ignored line2|
    add                 = ignored line2|
    add ␠line3          = ignored line2|
    add \u{3000}line3   = ignored line2|
    add line3           = added line2|line3|
    add line2           = added line2|line3|line2|
    ignore_dups no      = line2|line3|line2|
    add_owned line2     = added line2|line3|line2|line2|
    max_len 2           = line2|line2|
    ignore_space no     = line2|line2|
    add ␠a              = added line2| a|
    max_len 0           = nothing
    add b               = ignored
    max_len 1           = nothing
    add b               = added b|
    add c               = added c|
    get forward 0       = 0 |c
    get forward 1       = none
    clear               = nothing
";

#[test]
fn histories_with_texts(rt: HostRuntime) -> Result<(), Fail> {
    plays_with(rt.alloc(), r"x\y|", SAVED)?;
    plays_with(rt.alloc(), "", APPENDED)?;
    plays_with(rt.alloc(), "", ADDED)?;
    plays_with(rt.alloc(), "line1|line2|line3|", SEARCHES)
}
