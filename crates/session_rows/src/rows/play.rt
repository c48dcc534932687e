//! Sessions, and their results.

ghost use Rattle.std.specs.Prelude.{◌≡◌, false};

use crate::words::advice::{Texts, texts_of};
use crate::words::aide::{Aide, aide_of};
use crate::words::bound::{Action, Bound, bound_by};
use crate::words::faults::{Faults, faults_of, sink_of};
use crate::words::notation::{
    Asking, Row, Setting, after, display_meant, field, lines_meant, number_after, row_of,
    setting_of, text_meant, typed,
};
use keyline::{
    Bindings, CompletionType, Config, Decides, Ended, Ending, EventHandler, Helper, ReadSource,
    ReadlineError, Session, Sink, SliceSource, Source, VecSink,
};
use stand_ins::devices::{Pieces, Turns};
use stand_ins::rows::raised;
use stand_ins::sinks::FailingSink;
use stand_ins::tables::{meant_bytes, pictured_bytes};
use std::alloc::{AllocError, Global};
use std::cell::Cell;

/// The result of a session over sinks in memory.
#[derive(Drop)]
pub struct Left {
    pub ending: Ending,
    pub lines: Vec<u8>,
    pub saved: Vec<u8>,
    pub shown: Vec<u8>,
}

/// What becomes of several candidates: they are listed, or come in turn.
fn completion_of(words: &str) -> CompletionType {
    if after(words, "listed").is_some() {
        CompletionType::List
    } else {
        CompletionType::Circular
    }
}

fn config_of(setting: &Setting<'_>) -> Result<Config, ReadlineError> {
    let config = Config::builder()
        .edit_mode(setting.mode)
        .auto_add_history(setting.adding)
        .modal_commands(setting.modal)
        .draw_colours(setting.colours)
        .draw_tabs(setting.tabs)
        .partial_redraw(setting.partial)
        .tab_stop(setting.stop)
        .completion_type(completion_of(setting.all))
        .completion_show_all_if_ambiguous(after(setting.all, "at-once").is_some())
        .completion_prompt_limit(number_after(setting.all, "limit:", 100))
        .grapheme_cluster_mode(setting.clusters)
        .max_history_size(number_after(setting.all, "size:", 100))?
        .build();
    Ok(config)
}

/// The texts with which a session is opened.
#[derive(Drop)]
struct Opening {
    loaded: Vec<u8>,
    prompt: String,
}

fn opening_of(alloc: Global, setting: &Setting<'_>) -> Result<Opening, ReadlineError> {
    let loaded = meant_bytes(alloc, setting.loaded)?;
    Ok(Opening {
        loaded,
        prompt: text_meant(alloc, setting.prompt)?,
    })
}

/// How a session gets its keys.
#[derive(Drop)]
struct Keyed {
    config: Config,
    bound: Vec<Bound>,
}

fn keyed_by(alloc: Global, setting: &Setting<'_>) -> Result<Keyed, ReadlineError> {
    let config = config_of(setting)?;
    Ok(Keyed {
        config,
        bound: bound_by(alloc, setting.all)?,
    })
}

/// What a session is opened with, besides its devices.
#[derive(Drop)]
struct Begun {
    opening: Opening,
    keyed: Keyed,
    advice: Texts,
    aide: Option<Aide>,
}

fn begun_with(alloc: Global, setting: &Setting<'_>) -> Result<Begun, ReadlineError> {
    let opening = opening_of(alloc, setting)?;
    let keyed = keyed_by(alloc, setting)?;
    let advice = texts_of(alloc, setting.all)?;
    Ok(Begun {
        opening,
        keyed,
        advice,
        aide: aide_of(alloc, setting)?,
    })
}

/// A session to its ending, by `read_line` and `finish`. Each returned line is appended to
/// `handed`.
fn asked<H: Helper, S: Source + Drop, D: Sink + Drop, L: Sink + Drop, T: Sink + Drop, B: Decides>(
    session: Session<S, H, D, L, T, B>,
    prompt: &str,
    handed: &mut Vec<u8>,
) -> Result<Ended<S, D, L, T>, AllocError>
where
    H: Drop,
{
    let mut session = session;
    for _ in 0..u64::MAX {
        let line = session.read_line(prompt);
        if let Some(why) = put_read(handed, line)? {
            return Ok(session.finish(why));
        }
    }
    Ok(session.finish(ReadlineError::Eof))
}

/// Appends a line, or returns why there is none.
fn put_read(
    lines: &mut Vec<u8>,
    read: Result<String, ReadlineError>,
) -> Result<Option<ReadlineError>, AllocError> {
    match read {
        Ok(line) => put_line(lines, line.as_str()),
        Err(why) => Ok(Some(why)),
    }
}

fn put_line(lines: &mut Vec<u8>, line: &str) -> Result<Option<ReadlineError>, AllocError> {
    lines.extend_from_slice(line.as_bytes())?;
    lines.extend_from_slice(b"\n")?;
    Ok(None)
}

/// A session with a helper over these devices, run to its ending; or why none was opened.
fn ended_with<H: Helper, S: Source + Drop, D: Sink + Drop, L: Sink + Drop, T: Sink + Drop>(
    alloc: Global,
    setting: &Setting<'_>,
    opening: Opening,
    keyed: Keyed,
    helper: Option<H>,
    source: S,
    display: D,
    lines: L,
    text: T,
    handed: &mut Vec<u8>,
) -> Result<Ended<S, D, L, T>, ReadlineError>
where
    H: Drop,
    requires source { (S.feed source).failed ≡ false }
    requires display { D.has_failed display ≡ false }
    requires lines { L.has_failed lines ≡ false }
    requires text { T.has_failed text ≡ false }
{
    // Handlers are boxed here: a function that returned them could promise nothing about them.
    let mut bindings = Bindings::new(alloc)?;
    for bound in keyed.bound {
        let Bound { event, action } = bound;
        let handler = match action {
            Action::Command(cmd) => EventHandler::Simple(cmd),
            Action::Handler(answering) => EventHandler::Conditional(Box::new(alloc, answering)?),
        };
        let _ = bindings.bind_sequence(event, handler)?;
    }
    let prompt = opening.prompt.as_str();
    let session = Session::open(
        alloc,
        keyed.config,
        bindings,
        SliceSource::new(&opening.loaded),
        helper,
        prompt,
        source,
        setting.columns.max(2).min(1000),
        display,
        lines,
        text,
    )?;
    match setting.asking {
        Asking::Run => Ok(session.run()),
        Asking::ReadLine => raised(asked(session, prompt, handed)),
    }
}

/// A session over these devices, to its ending, and the lines that it returned; or why none was
/// opened.
fn handed_back<S: Source + Drop, D: Sink + Drop, L: Sink + Drop, T: Sink + Drop>(
    alloc: Global,
    setting: &Setting<'_>,
    source: S,
    display: D,
    lines: L,
    text: T,
    handed: &mut Vec<u8>,
) -> Result<Ended<S, D, L, T>, ReadlineError>
    requires source { (S.feed source).failed ≡ false }
    requires display { D.has_failed display ≡ false }
    requires lines { L.has_failed lines ≡ false }
    requires text { T.has_failed text ≡ false }
{
    let Begun {
        opening,
        keyed,
        advice,
        aide,
    } = begun_with(alloc, setting)?;
    if setting.advised {
        let aide = Some(advice.adviser(setting.all));
        return ended_with(
            alloc, setting, opening, keyed, aide, source, display, lines, text, handed,
        );
    }
    ended_with(
        alloc, setting, opening, keyed, aide, source, display, lines, text, handed,
    )
}

/// A session over these devices, to its ending; or why none was opened.
pub fn ended<S: Source + Drop, D: Sink + Drop, L: Sink + Drop, T: Sink + Drop>(
    alloc: Global,
    setting: &Setting<'_>,
    source: S,
    display: D,
    lines: L,
    text: T,
) -> Result<Ended<S, D, L, T>, ReadlineError>
    requires source { (S.feed source).failed ≡ false }
    requires display { D.has_failed display ≡ false }
    requires lines { L.has_failed lines ≡ false }
    requires text { T.has_failed text ≡ false }
{
    let mut handed = Vec::new(alloc);
    handed_back(alloc, setting, source, display, lines, text, &mut handed)
}

/// A result with what `tell_handed` adds to it.
fn with_handed(setting: &Setting<'_>, left: Left, handed: &[u8]) -> Result<Left, AllocError> {
    let mut left = left;
    tell_handed(setting, &mut left, handed)?;
    Ok(left)
}

/// Also writes the returned lines, if they differ from those in the sink of lines, except for one
/// that a failure cut. If they don't differ, and for a session that was run, it takes no memory.
fn tell_handed(setting: &Setting<'_>, left: &mut Left, handed: &[u8]) -> Result<(), AllocError> {
    let torn = left.ending == Ending::Lines && left.lines.as_slice().starts_with(handed);
    let same = left.lines.as_slice() == handed;
    if setting.asking == Asking::Run || torn || same {
        return Ok(());
    }
    left.lines.extend_from_slice(b" handed back: ")?;
    left.lines.extend_from_slice(handed)
}

/// The result of a session over sinks that fail.
fn left_in_trays<S: Source + Drop>(
    alloc: Global,
    setting: &Setting<'_>,
    source: S,
    faults: Faults,
) -> Result<Left, ReadlineError>
    requires { (S.feed source).failed ≡ false }
{
    let (display, lines, text) = (
        sink_of(faults.display),
        sink_of(faults.lines),
        sink_of(faults.text),
    );
    let mut handed = Vec::new(alloc);
    let end = handed_back(alloc, setting, source, display, lines, text, &mut handed)?;
    raised(copied_with(alloc, setting, &end, &handed))
}

/// A copy of what a session over such sinks leaves, with the returned lines.
fn copied_with<S: Source>(
    alloc: Global,
    setting: &Setting<'_>,
    end: &Ended<S, FailingSink, FailingSink, FailingSink>,
    handed: &[u8],
) -> Result<Left, AllocError> {
    let (shown, lines) = (end.display.bytes(), end.lines.bytes());
    let left = copied(alloc, end.ending, shown, lines, end.text.bytes())?;
    with_handed(setting, left, handed)
}

/// What a session leaves, copied.
fn copied(
    alloc: Global,
    ending: Ending,
    shown: &[u8],
    lines: &[u8],
    saved: &[u8],
) -> Result<Left, AllocError> {
    let lines = Vec::from_slice(alloc, lines)?;
    let saved = Vec::from_slice(alloc, saved)?;
    let shown = Vec::from_slice(alloc, shown)?;
    Ok(Left {
        ending,
        lines,
        saved,
        shown,
    })
}

/// The result of a session over a source of keys. Over sinks that don't fail nothing of it is
/// copied: for a session that is run, memory can run out before a key is read, but not after that.
pub fn left_of<S: Source + Drop>(
    alloc: Global,
    setting: &Setting<'_>,
    source: S,
) -> Result<Left, ReadlineError>
    requires { (S.feed source).failed ≡ false }
{
    let faults = faults_of(setting.all);
    if faults.are_of_a_sink() {
        return left_in_trays(alloc, setting, source, faults);
    }
    let (display, lines, text) = (
        VecSink::new(alloc),
        VecSink::new(alloc),
        VecSink::new(alloc),
    );
    let mut handed = Vec::new(alloc);
    let end = handed_back(alloc, setting, source, display, lines, text, &mut handed)?;
    let left = Left {
        ending: end.ending,
        lines: end.lines.into_bytes(),
        saved: end.text.into_bytes(),
        shown: end.display.into_bytes(),
    };
    raised(with_handed(setting, left, &handed))
}

/// A result, in words.
fn told(alloc: Global, left: &Left) -> Result<String, AllocError> {
    let lines = pictured_bytes(alloc, &left.lines)?;
    let saved = pictured_bytes(alloc, &left.saved)?;
    let shown = pictured_bytes(alloc, &left.shown)?;
    let ending = left.ending;
    format!(in alloc; "{lines} | ends {ending:?} | saves {saved} | shows {shown}")
}

/// Whether it is what a row says. If lines aren't added to the history, nothing must be saved.
fn is_wanted(
    alloc: Global,
    setting: &Setting<'_>,
    left: &Left,
    row: Row<'_>,
) -> Result<bool, AllocError> {
    let ending = left.ending;
    let ending = format!(in alloc; "{ending:?}")?;
    if ending.as_str() != row.ends || left.lines != lines_meant(alloc, row.lines)? {
        return Ok(false);
    }
    if row.saves.is_none() && setting.adding {
        return shows(alloc, left, row);
    }
    if left.saved != meant_bytes(alloc, field(row.saves.unwrap_or("")))? {
        return Ok(false);
    }
    shows(alloc, left, row)
}

/// Whether the display is what a row says.
fn shows(alloc: Global, left: &Left, row: Row<'_>) -> Result<bool, AllocError> {
    match row.shows {
        Some(shows) => Ok(left.shown == display_meant(alloc, shows)?),
        None => Ok(true),
    }
}

/// The result of a row's keys over memory.
fn left_over_memory(
    alloc: Global,
    setting: &Setting<'_>,
    keys: &str,
) -> Result<Left, ReadlineError> {
    let keys = typed(alloc, keys)?;
    let source = match faults_of(setting.all).keys {
        Some(count) => SliceSource::failing_after(&keys[..count.min(keys.len())]),
        None => SliceSource::new(&keys),
    };
    left_of(alloc, setting, source)
}

/// One byte at each of so many reads, and then only a failure; or one byte at each read.
fn turns_of(alloc: Global, broken: Option<usize>) -> Result<String, AllocError> {
    let Some(count) = broken else {
        return String::from_str(alloc, "1..");
    };
    let mut turns = String::new(alloc);
    for _ in 0..count {
        turns.push_str("1 ")?;
    }
    turns.push_str("broken..")?;
    Ok(turns)
}

/// The result of a row's keys, read one byte at a time.
fn left_by_reads(alloc: Global, setting: &Setting<'_>, keys: &str) -> Result<Left, ReadlineError> {
    let keys = typed(alloc, keys)?;
    let broken = faults_of(setting.all).keys;
    let turns = turns_of(alloc, broken.map(|count| count.min(keys.len())))?;
    let calls = Cell::new(0);
    let reader = Pieces {
        bytes: &keys,
        turns: Turns::new(turns.as_str(), &calls),
    };
    left_of(alloc, setting, ReadSource::new(reader))
}

/// The result, if it isn't what the row says.
fn unless_wanted(
    alloc: Global,
    setting: &Setting<'_>,
    left: &Left,
    row: Row<'_>,
) -> Result<Option<String>, AllocError> {
    if is_wanted(alloc, setting, left, row)? {
        return Ok(None);
    }
    Ok(Some(told(alloc, left)?))
}

/// The result of a row over memory, if it isn't what the row says.
fn differs_by(
    alloc: Global,
    setting: &Setting<'_>,
    asking: Asking,
    row: Row<'_>,
) -> Result<Option<String>, ReadlineError> {
    let setting = Setting { asking, ..*setting };
    let left = left_over_memory(alloc, &setting, row.keys)?;
    raised(unless_wanted(alloc, &setting, &left, row))
}

/// The same with one byte per read.
fn differs_in_reads(
    alloc: Global,
    setting: &Setting<'_>,
    row: Row<'_>,
) -> Result<Option<String>, ReadlineError> {
    let left = left_by_reads(alloc, setting, row.keys)?;
    raised(unless_wanted(alloc, setting, &left, row))
}

/// Plays a row over memory, by `run` and by `read_line`, and then one byte per read. Returns the
/// result if it isn't what the row says.
fn differs(
    alloc: Global,
    setting: &Setting<'_>,
    row: Row<'_>,
) -> Result<Option<String>, ReadlineError> {
    match differs_by(alloc, setting, Asking::Run, row)? {
        None => {}
        found => return Ok(found),
    }
    match differs_by(alloc, setting, Asking::ReadLine, row)? {
        None => differs_in_reads(alloc, setting, row),
        found => Ok(found),
    }
}

/// The result of a table's sessions.
#[derive(Drop)]
pub struct Played {
    /// The number of sessions played.
    pub count: usize,
    /// Each row whose session differs from what it says, with the result.
    pub told: String,
}

fn play_row(
    alloc: Global,
    setting: &Setting<'_>,
    text: &str,
    played: &mut Played,
) -> Result<(), ReadlineError> {
    let Some(row) = row_of(text) else {
        return Ok(());
    };
    played.count = played.count.saturating_add(1);
    if let Some(found) = differs(alloc, setting, row)? {
        write!(played.told, "{text}\n  found {found}\n")?;
    }
    Ok(())
}

/// Plays the sessions of rows with these settings.
pub fn play(alloc: Global, settings: &str, rows: &str) -> Result<Played, ReadlineError> {
    let setting = setting_of(settings);
    let mut played = Played {
        count: 0,
        told: String::new(alloc),
    };
    for row in rows.lines() {
        play_row(alloc, &setting, row, &mut played)?;
    }
    Ok(played)
}
