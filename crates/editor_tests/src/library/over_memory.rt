//! Whole sessions over memory.

use keyline::over_memory::{Transcript, transcribe};
use keyline::{Bindings, Cmd, Config, EditMode, EventHandler, ReadlineError};
use stand_ins::rows::{Player, raised, rows_hold};
use stand_ins::tables::{meant_bytes, parted, pictured_bytes, shown, words_in};
use stand_ins::typing::bind;
use std::alloc::{AllocError, Global};
use std::test::Fail;

/// Runs a session with the keys of Vi by a row's words, history and keys. The words stand with a
/// comma between two. Esc ends the session.
#[derive(Drop)]
struct Transcribed;

impl Player for Transcribed {
    fn play(&mut self, alloc: Global, call: &str) -> Result<String, Fail> {
        let (words, devices) = parted(call, " : ");
        let (history, keys) = parted(devices, " : ");
        let (history, keys) = (meant_bytes(alloc, history)?, meant_bytes(alloc, keys)?);
        raised(told(alloc, &session_of(alloc, words, &history, &keys)))
    }
}

fn words_of(alloc: Global, listed: &str) -> Result<Option<Vec<String>>, AllocError> {
    match listed {
        "none" => Ok(None),
        _ => Ok(Some(words_in(alloc, listed, ',')?)),
    }
}

fn session_of(
    alloc: Global,
    words: &str,
    history: &[u8],
    keys: &[u8],
) -> Result<Transcript, ReadlineError> {
    let mut bindings: Bindings = Bindings::new(alloc)?;
    let ending = EventHandler::Simple(Cmd::Interrupt);
    bind(alloc, &mut bindings, "Esc", ending)?;
    let words = words_of(alloc, words)?;
    let config = Config::builder()
        .edit_mode(EditMode::Vi)
        .auto_add_history(true)
        .build();
    transcribe(alloc, config, words, bindings, "> ", 80, history, keys)
}

/// How a session ended, with its lines, the history's text, the display bytes and the keys that were
/// not read; or why there is none.
fn told(
    alloc: Global,
    transcript: &Result<Transcript, ReadlineError>,
) -> Result<String, AllocError> {
    match transcript {
        Ok(it) => {
            let mut said = String::new(alloc);
            tell(alloc, it, &mut said)?;
            Ok(said)
        }
        Err(why) => shown(alloc, *why),
    }
}

fn tell(alloc: Global, it: &Transcript, said: &mut String) -> Result<(), AllocError> {
    write!(said, "{:?}", it.ending)?;
    tell_bytes(alloc, &it.lines, said)?;
    tell_bytes(alloc, &it.history, said)?;
    tell_bytes(alloc, &it.display, said)?;
    tell_bytes(alloc, &it.unread, said)
}

/// Writes bytes with pictures, in angle brackets.
pub(crate) fn tell_bytes(alloc: Global, bytes: &[u8], said: &mut String) -> Result<(), AllocError> {
    let pictured = pictured_bytes(alloc, bytes)?;
    write!(said, " <{pictured}>")
}

/// After Esc one more byte is read, which shows that it is a key by itself.
const SESSIONS: &str = "
    none : #V2␊ : ab␍ = Eof <ab␊> <#V2␊ab␊> <␍␛[J␛[m> ␛[m␛[m␛[mab␍␊␍␛[J␛[m> ␛[m␛[m␛[m␍␊> <>
    none : #V2␊old␊ : ␛[A␍ = Eof <old␊> <> <␍␛[J␛[m> ␛[m␛[m␛[m␍␛[J␛[m> ␛[mold␛[m␛[m␍␊␍␛[J␛[m> ␛[m␛[m␛[m␍␊> <>
    none : #V2␊ : a␃bc = Interrupted <> <> <␍␛[J␛[m> ␛[m␛[m␛[ma␍␊> <bc>
    none : #V2␊ : a␃␛[ = Interrupted <> <> <␍␛[J␛[m> ␛[m␛[m␛[ma␍␊> <␛[>
    none : #V2␊ : a␛bc = Interrupted <> <> <␍␛[J␛[m> ␛[m␛[m␛[ma␍␊> <bc>
    none : #V2␊ : ‹ff›a = NotUtf8 <> <> <␍␛[J␛[m> ␛[m␛[m␛[m> <a>
    none : ‹ff› : ab␍ = HistoryText
    alpha,alpine : #V2␊ : al␉␃ = Interrupted <> <> <␍␛[J␛[m> ␛[m␛[m␛[mal␍␛[J␛[m> ␛[malp␛[m␛[m␍␊> <>
    ";

#[test]
fn sessions_over_memory(rt: HostRuntime) -> Result<(), Fail> {
    rows_hold(rt.alloc(), &mut Transcribed, SESSIONS)
}
