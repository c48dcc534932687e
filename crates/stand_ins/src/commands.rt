//! Commands and movements by their names: `Kill ForwardWord 2 Start Vi`, `SelfInsert 1 x`, `Insert
//! 2 ab c`. A control character, or a blank at an end, is written as its picture.

use crate::tables::{meant, named, word_and_rest};
use line_buffer::{Anchor, At, CharSearch, Movement, RepeatCount, Word};
use line_keys::{Cmd, SearchAgain, Text};
use std::alloc::Global;

// The character of a word.
fn char_named(alloc: Global, word: &str) -> Option<char> {
    let text = meant(alloc, word).ok()?;
    text.as_str().chars().next()
}

fn count_named(word: &str) -> Option<RepeatCount> {
    word.parse().ok()
}

fn word_kind(name: &str) -> Word {
    match name {
        "Big" => Word::Big,
        "Vi" => Word::Vi,
        _ => Word::Emacs,
    }
}

fn at_named(name: &str) -> At {
    match name {
        "Start" => At::Start,
        "BeforeEnd" => At::BeforeEnd,
        _ => At::AfterEnd,
    }
}

fn search_named(name: &str, c: char) -> CharSearch {
    match name {
        "Forward" => CharSearch::Forward(c),
        "ForwardBefore" => CharSearch::ForwardBefore(c),
        "BackwardAfter" => CharSearch::BackwardAfter(c),
        _ => CharSearch::Backward(c),
    }
}

// A movement with a count.
fn counted_movement(alloc: Global, name: &str, n: RepeatCount, rest: &str) -> Option<Movement> {
    let (first, second) = word_and_rest(rest);
    let movement = match name {
        "BackwardChar" => Movement::BackwardChar(n),
        "ForwardChar" => Movement::ForwardChar(n),
        "LineUp" => Movement::LineUp(n),
        "LineDown" => Movement::LineDown(n),
        "BackwardWord" => Movement::BackwardWord(n, word_kind(first)),
        "ForwardWord" => Movement::ForwardWord(n, at_named(first), word_kind(second)),
        "ViCharSearch" => {
            Movement::ViCharSearch(n, search_named(first, char_named(alloc, second)?))
        }
        _ => return None,
    };
    Some(movement)
}

const MOVEMENTS: [(&str, Movement); 7] = [
    ("WholeLine", Movement::WholeLine),
    ("BeginningOfLine", Movement::BeginningOfLine),
    ("EndOfLine", Movement::EndOfLine),
    ("ViFirstPrint", Movement::ViFirstPrint),
    ("WholeBuffer", Movement::WholeBuffer),
    ("BeginningOfBuffer", Movement::BeginningOfBuffer),
    ("EndOfBuffer", Movement::EndOfBuffer),
];

/// The movement with this name.
pub fn movement_named(alloc: Global, words: &str) -> Option<Movement> {
    let (name, rest) = word_and_rest(words);
    if let Some(movement) = named(&MOVEMENTS, name) {
        return Some(movement);
    }
    let (count, rest) = word_and_rest(rest);
    counted_movement(alloc, name, count_named(count)?, rest)
}

// A command of one word.
fn bare_command(name: &str) -> Option<Cmd> {
    let cmd = match name {
        "Abort" => Cmd::Abort,
        "EndOfFile" => Cmd::EndOfFile,
        "Interrupt" => Cmd::Interrupt,
        "Noop" => Cmd::Noop,
        "Repaint" => Cmd::Repaint,
        "ClearScreen" => Cmd::ClearScreen,
        "Suspend" => Cmd::Suspend,
        "Unknown" => Cmd::Unknown,
        _ => return accepting_command(name),
    };
    Some(cmd)
}

// A command that accepts the line or inserts a newline.
fn accepting_command(name: &str) -> Option<Cmd> {
    let cmd = match name {
        "AcceptLine" => Cmd::AcceptLine,
        "Newline" => Cmd::Newline,
        "AcceptOrInsertLine" => Cmd::AcceptOrInsertLine {
            accept_in_the_middle: true,
        },
        "AcceptAtEndOrInsertLine" => Cmd::AcceptOrInsertLine {
            accept_in_the_middle: false,
        },
        _ => return history_command(name),
    };
    Some(cmd)
}

// A command of the history.
fn history_command(name: &str) -> Option<Cmd> {
    let cmd = match name {
        "BeginningOfHistory" => Cmd::BeginningOfHistory,
        "EndOfHistory" => Cmd::EndOfHistory,
        "ForwardSearchHistory" => Cmd::ForwardSearchHistory,
        "HistorySearchBackward" => Cmd::HistorySearchBackward,
        "HistorySearchForward" => Cmd::HistorySearchForward,
        "NextHistory" => Cmd::NextHistory,
        "PreviousHistory" => Cmd::PreviousHistory,
        "ReverseSearchHistory" => Cmd::ReverseSearchHistory,
        _ => return changing_command(name),
    };
    Some(cmd)
}

// A command that changes the text at the cursor.
fn changing_command(name: &str) -> Option<Cmd> {
    let cmd = match name {
        "CapitalizeWord" => Cmd::CapitalizeWord,
        "Complete" => Cmd::Complete,
        "CompleteBackward" => Cmd::CompleteBackward,
        "CompleteHint" => Cmd::CompleteHint,
        "DowncaseWord" => Cmd::DowncaseWord,
        "QuotedInsert" => Cmd::QuotedInsert,
        "TransposeChars" => Cmd::TransposeChars,
        "UpcaseWord" => Cmd::UpcaseWord,
        "YankPop" => Cmd::YankPop,
        _ => return None,
    };
    Some(cmd)
}

// A command with a movement, and perhaps a text after `with`; or one with the direction of a search.
fn moving_command(alloc: Global, name: &str, rest: &str) -> Option<Cmd> {
    match name {
        "Replace" => replacement(alloc, rest),
        "SearchAgain" => Some(Cmd::SearchAgain(way_named(rest))),
        _ => command_over(name, movement_named(alloc, rest)?),
    }
}

fn way_named(name: &str) -> SearchAgain {
    match name {
        "Opposite" => SearchAgain::Opposite,
        _ => SearchAgain::Same,
    }
}

fn replacement(alloc: Global, rest: &str) -> Option<Cmd> {
    match rest.split_once(" with ") {
        Some((words, text)) => {
            let movement = movement_named(alloc, words)?;
            Some(Cmd::Replace(movement, Some(text_meant(alloc, text)?)))
        }
        None => Some(Cmd::Replace(movement_named(alloc, rest)?, None)),
    }
}

fn text_meant(alloc: Global, shown: &str) -> Option<Text> {
    Some(Text::from(meant(alloc, shown).ok()?))
}

fn command_over(name: &str, movement: Movement) -> Option<Cmd> {
    let cmd = match name {
        "Move" => Cmd::Move(movement),
        "Kill" => Cmd::Kill(movement),
        "ViYankTo" => Cmd::ViYankTo(movement),
        "Indent" => Cmd::Indent(movement),
        "Dedent" => Cmd::Dedent(movement),
        _ => return None,
    };
    Some(cmd)
}

// A command with a count.
fn counted_command(alloc: Global, name: &str, n: RepeatCount, rest: &str) -> Option<Cmd> {
    let cmd = match name {
        "Yank" => Cmd::Yank(n, anchor_named(rest)),
        "TransposeWords" => Cmd::TransposeWords(n),
        "Undo" => Cmd::Undo(n),
        "LineUpOrPreviousHistory" => Cmd::LineUpOrPreviousHistory(n),
        "LineDownOrNextHistory" => Cmd::LineDownOrNextHistory(n),
        "Insert" => Cmd::Insert(n, text_meant(alloc, rest)?),
        _ => return typing_command(name, n, char_named(alloc, rest)?),
    };
    Some(cmd)
}

fn anchor_named(name: &str) -> Anchor {
    match name {
        "After" => Anchor::After,
        _ => Anchor::Before,
    }
}

// A command with a count and a character.
fn typing_command(name: &str, n: RepeatCount, c: char) -> Option<Cmd> {
    match name {
        "SelfInsert" => Some(Cmd::SelfInsert(n, c)),
        "ReplaceChar" => Some(Cmd::ReplaceChar(n, c)),
        _ => None,
    }
}

/// The command with this name. The text of a `Replace` follows `with`; `AcceptAtEndOrInsertLine` is
/// the command that doesn't accept in the middle.
pub fn command_named(alloc: Global, words: &str) -> Option<Cmd> {
    let (name, rest) = word_and_rest(words);
    if let Some(cmd) = bare_command(name) {
        return Some(cmd);
    }
    if name == "Overwrite" {
        return Some(Cmd::Overwrite(char_named(alloc, rest)?));
    }
    let (first, behind) = word_and_rest(rest);
    match count_named(first) {
        Some(n) => counted_command(alloc, name, n, behind),
        None => moving_command(alloc, name, rest),
    }
}
