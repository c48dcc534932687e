//! Sessions in which each read of a byte, each write and each flush fails in turn, until no call is
//! left; and sessions with a failed allocation. The result is compared with that of the whole
//! session, and a next session is run over the returned devices.

ghost use Rattle.std.specs.Prelude.{◌≡◌, false};

use crate::rows::play::{Played, ended};
use crate::words::faults::{Faults, sink_of};
use crate::words::notation::{Setting, row_of, setting_of, typed};
use keyline::{Ended, Ending, FileHistory, History, ReadlineError, Sink, Source};
use stand_ins::sinks::FailingSink;
use stand_ins::sources::Faltering;
use std::alloc::Global;

/// The result of a session over devices of the tests.
type Left<'a> = Ended<Faltering<'a>, FailingSink, FailingSink, FailingSink>;

/// More calls than any of the sessions makes.
const MOST: usize = 1000;

/// A device that fails.
#[derive(Clone, Copy)]
enum Device {
    Keys,
    Display,
    Lines,
    Text,
}

const DEVICES: [Device; 4] = [Device::Keys, Device::Display, Device::Lines, Device::Text];

impl Device {
    /// The device fails at this call.
    fn failing_at(self, call: usize) -> Faults {
        let call = Some(call);
        match self {
            Device::Keys => Faults {
                keys: call,
                ..Faults::NONE
            },
            Device::Display => Faults {
                display: call,
                ..Faults::NONE
            },
            Device::Lines => Faults {
                lines: call,
                ..Faults::NONE
            },
            Device::Text => Faults {
                text: call,
                ..Faults::NONE
            },
        }
    }

    /// The ending of a session in which it fails.
    fn ending(self) -> Ending {
        match self {
            Device::Keys => Ending::Reader,
            Device::Display => Ending::Display,
            Device::Lines => Ending::Lines,
            Device::Text => Ending::HistoryText,
        }
    }
}

/// A session over keys, with some devices that fail.
fn tried<'a>(
    alloc: Global,
    setting: &Setting<'_>,
    keys: &'a [u8],
    faults: Faults,
) -> Result<Left<'a>, ReadlineError> {
    let source = Faltering::failing_at(keys, faults.keys.unwrap_or(usize::MAX));
    let (display, lines) = (sink_of(faults.display), sink_of(faults.lines));
    ended(alloc, setting, source, display, lines, sink_of(faults.text))
}

fn rows_in(text: &[u8]) -> usize {
    let mut count: usize = 0;
    for byte in text {
        count = count.saturating_add(usize::from(*byte == b'\n'));
    }
    count
}

/// Whether a text ends at a row's end.
fn is_of_rows(text: &[u8]) -> bool {
    text.is_empty() || text.ends_with(b"\n")
}

/// The number of entries that a setting loads.
fn loaded_by(setting: &Setting<'_>) -> usize {
    setting.loaded.split('␊').count().saturating_sub(2)
}

/// The text after a line, if it begins with that.
fn behind_line<'t>(text: &'t [u8], line: &str) -> Option<&'t [u8]> {
    text.strip_prefix(line.as_bytes())?.strip_prefix(b"\n")
}

/// Whether a history has its old entries and each of these lines, and after them at most one more,
/// which may be written in part.
fn keeps(history: &FileHistory, loaded: usize, lines: &[u8]) -> bool {
    let mut left = lines;
    let mut is_over = false;
    for entry in history.iter().skip(loaded) {
        if is_over {
            return false;
        }
        match behind_line(left, entry.as_str()) {
            Some(rest) => left = rest,
            None => {
                is_over = entry.as_bytes().starts_with(left);
                left = b"";
                if !is_over {
                    return false;
                }
            }
        }
    }
    left.is_empty()
}

/// Whether the rows of the history were saved once, if any is new.
fn saved_once(left: &Left<'_>, loaded: usize) -> bool {
    let entries = left.history.len();
    let wanted = if entries > loaded {
        entries.saturating_add(1)
    } else {
        0
    };
    rows_in(left.text.bytes()) == wanted
}

/// Whether a device was called after it had failed.
fn was_asked_again(left: &Left<'_>) -> bool {
    left.source.asked_again()
        || left.display.asked_again()
        || left.lines.asked_again()
        || left.text.asked_again()
}

/// What is wrong with the result of a session that a fault cut short, if anything.
fn wrong_in(setting: &Setting<'_>, whole: &Left<'_>, cut: &Left<'_>) -> Option<&'static str> {
    let loaded = loaded_by(setting);
    if !whole.display.bytes().starts_with(cut.display.bytes()) {
        return Some("another display");
    }
    if !whole.lines.bytes().starts_with(cut.lines.bytes()) {
        return Some("other lines");
    }
    if !cut.lines.failed() && !is_of_rows(cut.lines.bytes()) {
        return Some("a part of a line");
    }
    if !whole.text.bytes().starts_with(cut.text.bytes()) {
        return Some("another text of the history");
    }
    if setting.adding && !keeps(&cut.history, loaded, cut.lines.bytes()) {
        return Some("another history");
    }
    if !cut.text.failed() && !saved_once(cut, loaded) {
        return Some("a history that isn't saved once");
    }
    if was_asked_again(cut) {
        return Some("a device that is asked again");
    }
    None
}

/// A sink that hasn't failed, or a new one.
fn sound(sink: FailingSink) -> FailingSink
    ensures { ⟦<FailingSink as Sink>⟧.has_failed result ≡ false }
{
    if sink.failed() { sink_of(None) } else { sink }
}

/// The keys that remain, with what was read ahead.
fn to_come<'a>(keys: &'a [u8], left: &Left<'_>) -> &'a [u8] {
    let count = left
        .source
        .left()
        .len()
        .saturating_add(usize::from(left.ahead.is_some()));
    &keys[keys.len().saturating_sub(count)..]
}

/// Whether one more line is added to the history and saved.
fn keeps_a_line(alloc: Global, history: &mut FileHistory) -> Result<bool, ReadlineError> {
    let mut text = sink_of(None);
    let added = history.add(alloc, "a further line")?;
    history.save_to(&mut text)?;
    Ok(added && rows_in(text.bytes()) == history.len().saturating_add(1))
}

/// A session over these keys and the returned devices.
fn next_over<'a>(
    alloc: Global,
    setting: &Setting<'_>,
    keys: &'a [u8],
    left: Left<'_>,
) -> Result<Left<'a>, ReadlineError> {
    let (display, lines, text) = (sound(left.display), sound(left.lines), sound(left.text));
    let source = Faltering::failing_at(keys, usize::MAX);
    ended(alloc, setting, source, display, lines, text)
}

fn ends_as(next: &Left<'_>, alone: &Left<'_>) -> bool {
    next.ending == alone.ending
        && next.display.bytes().ends_with(alone.display.bytes())
        && next.lines.bytes().ends_with(alone.lines.bytes())
        && next.text.bytes().ends_with(alone.text.bytes())
}

/// Whether a session did the same as one over new devices.
fn did_as_new(
    alloc: Global,
    setting: &Setting<'_>,
    keys: &[u8],
    next: &Left<'_>,
) -> Result<bool, ReadlineError> {
    let alone = tried(alloc, setting, keys, Faults::NONE)?;
    Ok(ends_as(next, &alone))
}

/// Whether a next session over the returned devices does the same as one over new devices.
fn goes_on(
    alloc: Global,
    setting: &Setting<'_>,
    keys: &[u8],
    left: Left<'_>,
) -> Result<bool, ReadlineError> {
    let keys = to_come(keys, &left);
    let next = next_over(alloc, setting, keys, left)?;
    did_as_new(alloc, setting, keys, &next)
}

/// What is wrong with the result of such a session, and with its history as it is used further.
fn wrong_before_the_next(
    alloc: Global,
    setting: &Setting<'_>,
    whole: &Left<'_>,
    cut: &mut Left<'_>,
) -> Result<Option<&'static str>, ReadlineError> {
    if let Some(wrong) = wrong_in(setting, whole, cut) {
        return Ok(Some(wrong));
    }
    if keeps_a_line(alloc, &mut cut.history)? {
        Ok(None)
    } else {
        Ok(Some("a history that keeps no more lines"))
    }
}

/// The result of a session with a fault in it.
enum Came {
    /// The fault didn't occur, and the session is the whole one.
    Whole,
    Right,
    Wrong(&'static str),
}

/// The result after a session that a fault cut short.
fn came_after(
    alloc: Global,
    setting: &Setting<'_>,
    keys: &[u8],
    whole: &Left<'_>,
    mut cut: Left<'_>,
) -> Result<Came, ReadlineError> {
    if let Some(wrong) = wrong_before_the_next(alloc, setting, whole, &mut cut)? {
        return Ok(Came::Wrong(wrong));
    }
    if goes_on(alloc, setting, keys, cut)? {
        Ok(Came::Right)
    } else {
        Ok(Came::Wrong("another next session"))
    }
}

/// The result of a session that ended like the whole one.
fn came_whole(whole: &Left<'_>, again: &Left<'_>) -> Came {
    let is_same = again.display.bytes() == whole.display.bytes()
        && again.lines.bytes() == whole.lines.bytes()
        && again.text.bytes() == whole.text.bytes();
    if is_same {
        Came::Whole
    } else {
        Came::Wrong("another whole session")
    }
}

/// Plays a session in which one call of a device fails.
fn play_failing(
    alloc: Global,
    setting: &Setting<'_>,
    keys: &[u8],
    whole: &Left<'_>,
    device: Device,
    call: usize,
) -> Result<Came, ReadlineError> {
    let cut = tried(alloc, setting, keys, device.failing_at(call))?;
    if cut.ending == whole.ending {
        return Ok(came_whole(whole, &cut));
    }
    if cut.ending != device.ending() {
        return Ok(Came::Wrong("another ending"));
    }
    came_after(alloc, setting, keys, whole, cut)
}

/// Makes each call of a device fail in turn, until none does, and writes the first wrong result.
/// Returns how many failed.
fn play_each(
    alloc: Global,
    setting: &Setting<'_>,
    keys: &[u8],
    whole: &Left<'_>,
    device: Device,
    told: &mut String,
) -> Result<usize, ReadlineError> {
    for call in 0..MOST {
        match play_failing(alloc, setting, keys, whole, device, call)? {
            Came::Right => {}
            Came::Whole => return Ok(call),
            Came::Wrong(wrong) => {
                let ending = device.ending();
                write!(told, "  {ending:?} at call {call}: {wrong}\n")?;
                return Ok(call);
            }
        }
    }
    told.push_str("  there is no end of calls\n")?;
    Ok(MOST)
}

/// Makes each call of each device fail in turn. Returns how many failed, and writes what is wrong.
fn play_row(
    alloc: Global,
    setting: &Setting<'_>,
    keys: &[u8],
    told: &mut String,
) -> Result<usize, ReadlineError> {
    let whole = tried(alloc, setting, keys, Faults::NONE)?;
    play_devices(alloc, setting, keys, &whole, told)
}

fn play_devices(
    alloc: Global,
    setting: &Setting<'_>,
    keys: &[u8],
    whole: &Left<'_>,
    told: &mut String,
) -> Result<usize, ReadlineError> {
    let mut count: usize = 0;
    for device in DEVICES {
        let failed = play_each(alloc, setting, keys, whole, device, told)?;
        count = count.saturating_add(failed);
    }
    Ok(count)
}

fn play_text(
    alloc: Global,
    setting: &Setting<'_>,
    text: &str,
    played: &mut Played,
) -> Result<(), ReadlineError> {
    if let Some(row) = row_of(text) {
        let keys = typed(alloc, row.keys)?;
        let failed = play_row(alloc, setting, &keys, &mut played.told)?;
        played.count = played.count.saturating_add(failed);
    }
    Ok(())
}

/// Plays the sessions of rows with these settings, with each call of each device failing in turn.
/// They are counted by calls.
pub fn play_refused(alloc: Global, settings: &str, rows: &str) -> Result<Played, ReadlineError> {
    let setting = setting_of(settings);
    let mut played = Played {
        count: 0,
        told: String::new(alloc),
    };
    for text in rows.lines() {
        play_text(alloc, &setting, text, &mut played)?;
    }
    Ok(played)
}

/// Plays a session in which an allocation may fail, and returns the result in a word. It is `done`
/// if none failed, `refused` if one did, `not judged` if one failed before or after it, or else
/// what is wrong.
pub fn play_grown(alloc: Global, settings: &str, row: &str) -> &'static str {
    match grown(alloc, &setting_of(settings), row) {
        Ok(Came::Whole) => "done",
        Ok(Came::Right) => "refused",
        Ok(Came::Wrong(wrong)) => wrong,
        Err(ReadlineError::Memory) => "not judged",
        Err(_) => "an error by another name",
    }
}

fn grown(alloc: Global, setting: &Setting<'_>, row: &str) -> Result<Came, ReadlineError> {
    let Some(row) = row_of(row) else {
        return Ok(Came::Whole);
    };
    let keys = typed(alloc, row.keys)?;
    grown_over(alloc, setting, &keys)
}

fn grown_over(alloc: Global, setting: &Setting<'_>, keys: &[u8]) -> Result<Came, ReadlineError> {
    let whole = tried(alloc, setting, keys, Faults::NONE)?;
    if whole.ending == Ending::Memory {
        return Err(ReadlineError::Memory);
    }
    grown_again(alloc, setting, keys, &whole)
}

/// Plays the session again, whole or cut short by a failed allocation.
fn grown_again(
    alloc: Global,
    setting: &Setting<'_>,
    keys: &[u8],
    whole: &Left<'_>,
) -> Result<Came, ReadlineError> {
    let cut = tried(alloc, setting, keys, Faults::NONE)?;
    if cut.ending == Ending::Memory {
        came_after(alloc, setting, keys, whole, cut)
    } else {
        Ok(came_whole(whole, &cut))
    }
}
