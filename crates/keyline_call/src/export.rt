//! The call that C makes, under the name of `keyline_c`.

ghost use Rattle.std.specs.Prelude.{[], ◌≡◌, ◌≢◌, ◌≤◌, ◌↔◌, IsTrue, MatchOption, MatchResult, Some, length, string_bytes};
ghost use Rattle.std.specs.Result.{result_unwrap_or};
ghost use Rattle.std.specs.Str.{IsUtf8};
ghost use Rattle.line_help.specs.HistoryText.{text_to_save};
ghost use Rattle.line_keys.specs.KeyFeeds.{answer_map};
ghost use Rattle.keyline_call.specs.declared.status.CallStatus.TheVariants.{Memory};
ghost use Rattle.keyline_call.specs.Call.{AnswersCall, Calls, status_in};
ghost use Rattle.keyline_call.specs.Lines.{IsRefused, ReadsKeys};
ghost use Rattle.keyline.specs.SessionCalls.{history_loaded_from};
ghost use Rattle.keyline.specs.Program.{config_of, word_texts};
ghost use Rattle.keyline_call.specs.Meant.{AreMeant, AreValid, mode_numbered, settings_by, whole, words_in};
ghost use Rattle.keyline_call.specs.Buffers.{FitsBuffers, GivesTexts, SameBuffers, if_wanted, buffer_texts, texts_in, texts_of, texts_wanted, with_lengths};
ghost use Rattle.keyline_call.specs.CallSteps.{Gives, GivesEnd, GivesOpen, open_place, open_text};

use crate::asking::bindings_of;
use crate::buffer::put;
use crate::line::{Left, read_line};
use crate::ring::{is_ring, ring_of, slots_of};
use crate::status::{CallStatus, status_of};
use keyline::{
    Config, Configurer, EditMode, FileHistory, Options, ReadlineError, Sink, SliceSource, VecSink,
    config_of, load_words,
};
use line_buffer::LineBuffer;
use std::alloc::Global;

/// How a line is read. Everything except `ended` and `sent` stays the same during a line.
#[repr(C)]
#[derive(Drop)]
pub struct KeylineOptions {
    /// The number of columns of a row, 2 to 1,000.
    pub columns: u16,
    /// The keymap: 0 is Emacs, 1 is Vi.
    pub mode: u8,
    /// Whether a line with an open bracket continues in a new row.
    pub brackets: bool,
    /// Whether no more keys follow these.
    pub ended: bool,
    /// The number of display bytes of this line that were sent before.
    pub sent: usize,
    /// The current slot of the kill ring.
    pub place: usize,
    /// The most entries of the history, equal neighbours too; 0 stands for 100 without these.
    pub entries: usize,
    /// The setting `modal_commands`.
    pub modal: bool,
}

/// The result of a call. If the status says that a buffer is too small, the lengths are those that
/// the texts need.
#[repr(C)]
#[derive(Drop)]
pub struct KeylineStep {
    /// How it ended.
    pub status: u8,
    /// The number of new display bytes.
    pub display: usize,
    /// The number of display bytes of this line so far.
    pub sent: usize,
    /// The length of the line, in bytes; of a line that continues, as it stands.
    pub line: usize,
    /// The number of key bytes that belong to the line; the keys after them are for the next one.
    pub keys: usize,
    /// The length of the history's new text, in bytes; 0 if no entry is new.
    pub history: usize,
    /// The length of the kill ring's texts, in bytes.
    pub kills: usize,
    /// The number of filled slots.
    pub slots: usize,
    /// The current slot.
    pub place: usize,
    /// The cursor's place in a line that continues, in bytes.
    pub cursor: usize,
}

/// Which texts are wanted. Of the others only the lengths are reported.
#[repr(C)]
#[derive(Drop)]
pub struct KeylineWants {
    pub display: bool,
    pub line: bool,
    pub history: bool,
    pub kills: bool,
    pub ends: bool,
}

/// The texts passed in.
#[derive(Drop)]
struct Handed<'k> {
    keys: &'k [u8],
    prompt: &'k [u8],
    words: &'k [u8],
    asks: &'k [u8],
    history: &'k [u8],
    kills: &'k [u8],
    ends: &'k [usize],
}

/// The texts to copy into the caller's buffers.
#[derive(Drop)]
struct Texts<'t> {
    display: &'t [u8],
    line: &'t [u8],
    history: &'t [u8],
    kills: &'t [u8],
    ends: &'t [usize],
}

/// The caller's buffers.
#[derive(Drop)]
struct Buffers<'r> {
    display: &'r mut [u8],
    line: &'r mut [u8],
    history: &'r mut [u8],
    kills: &'r mut [u8],
    ends: &'r mut [usize],
}

fn mode_numbered(code: u8) -> Option<EditMode>
    ensures { result ≡ mode_numbered code }
{
    match code {
        0 => Some(EditMode::Emacs),
        1 => Some(EditMode::Vi),
        _ => None,
    }
}

fn is_utf8(text: &[u8]) -> bool
    ensures { IsTrue result ↔ IsUtf8 text.now }
{
    str::from_utf8(text).is_ok()
}

/// The keymap and the prompt, if all arguments are valid. Allocates nothing.
fn meant<'k>(options: &KeylineOptions, handed: &Handed<'k>) -> Option<(EditMode, &'k str)>
    ensures { let valid = AreValid options.now handed.now.prompt.now handed.now.words.now
        handed.now.history.now handed.now.kills.now handed.now.ends.now in
        MatchOption result (valid → ⊥) (λ m. valid × (mode_numbered options.now.mode ≡ Some m.0)
        × (m.1.now ≡ handed.now.prompt.now)) }
{
    let mode = mode_numbered(options.mode)?;
    let prompt = str::from_utf8(handed.prompt).ok()?;
    if options.columns < 2 || options.columns > 1000 {
        return None;
    }
    if !is_utf8(handed.words) || !is_utf8(handed.history) {
        return None;
    }
    if !is_ring(handed.kills, handed.ends, options.place) {
        return None;
    }
    Some((mode, prompt))
}

/// The options of a line.
fn options_of(
    alloc: Global,
    options: &KeylineOptions,
    mode: EditMode,
    prompt: &str,
) -> Result<Options, CallStatus>
    requires mode { mode_numbered options.now.mode ≡ Some mode }
    requires columns { (2 ≤ options.now.columns) × (options.now.columns ≤ 1000) }
    ensures { MatchResult result (AreMeant options.now prompt.now) (λ e. e ≡ Memory) }
{
    Ok(Options {
        mode,
        columns: options.columns,
        prompt: String::from_str(alloc, prompt)?,
        prompt_styles: Vec::new(alloc),
        history: None,
        history_size: None,
        words: None,
        brackets: options.brackets,
    })
}

/// The words of a text, one per row; `None` for an empty text.
fn words_of(alloc: Global, text: &[u8]) -> Result<Option<Vec<String>>, CallStatus>
    ensures { MatchResult result (λ words. word_texts words ≡ words_in text.now)
        (λ e. (e ≡ Memory) × (text.now ≢ [])) }
{
    if text.is_empty() {
        return Ok(None);
    }
    Ok(Some(load_words(alloc, &mut SliceSource::new(text))?))
}

/// The settings of a line and of its history.
fn settings_by(options: &KeylineOptions, chosen: &Options) -> Config
    ensures { result ≡ settings_by options.now (config_of chosen.now) }
{
    let mut config = config_of(chosen);
    if options.entries > 0 {
        let _ = config.set_max_history_size(options.entries);
        let _ = config.set_history_ignore_dups(false);
    }
    config.set_modal_commands(options.modal);
    config
}

/// The history of a text.
fn history_of(alloc: Global, config: &Config, text: &[u8]) -> Result<FileHistory, CallStatus>
    ensures { MatchResult result
        (λ history. history ≡ history_loaded_from config.now (whole text.now))
        (λ e. (e ≡ Memory) × (text.now ≢ [])) }
{
    let mut history = FileHistory::with_config(alloc, config);
    if !text.is_empty() {
        history.load_from(alloc, &mut SliceSource::new(text))?;
    }
    Ok(history)
}

/// Reads the line of these keys.
fn play<'k>(
    alloc: Global,
    options: &KeylineOptions,
    handed: &Handed<'k>,
) -> Result<Left, CallStatus>
    ensures { let reads = ReadsKeys options.now handed.now.prompt.now handed.now.words.now
        handed.now.history.now handed.now.kills.now handed.now.ends.now in
        MatchResult result (reads ⟦<VecSink as Sink>⟧.held handed.now.keys.now handed.now.asks.now)
        (IsRefused options.now handed.now.prompt.now handed.now.words.now handed.now.history.now
        handed.now.kills.now handed.now.ends.now) }
{
    let Some((mode, prompt)) = meant(options, handed) else {
        return Err(CallStatus::Argument);
    };
    let chosen = options_of(alloc, options, mode, prompt)?;
    let words = words_of(alloc, handed.words)?;
    let config = settings_by(options, &chosen);
    let history = history_of(alloc, &config, handed.history)?;
    let bindings = bindings_of(alloc, chosen.mode, handed.asks)?;
    let ring = ring_of(alloc, handed.kills, handed.ends, options.place)?;
    let (keys, ended) = (handed.keys, options.ended);
    Ok(read_line(
        alloc, &config, &chosen, words, &bindings, history, ring, keys, ended,
    )?)
}

/// Reports the length of each text.
fn tell_lengths(texts: &Texts<'_>, step: &mut KeylineStep)
    ensures { step.new ≡ with_lengths (texts_of texts.now) step.old }
{
    step.display = texts.display.len();
    step.line = texts.line.len();
    step.history = texts.history.len();
    step.kills = texts.kills.len();
    step.slots = texts.ends.len();
}

/// Whether each text fits into its buffer.
fn fit(texts: &Texts<'_>, buffers: &Buffers<'_>) -> bool
    ensures { FitsBuffers (texts_of texts.now) (texts_in buffers.now) result }
{
    texts.display.len() <= buffers.display.len()
        && texts.line.len() <= buffers.line.len()
        && texts.history.len() <= buffers.history.len()
        && texts.kills.len() <= buffers.kills.len()
        && texts.ends.len() <= buffers.ends.len()
}

/// Copies each text into its buffer, or none of them if one doesn't fit.
fn put_all(texts: &Texts<'_>, buffers: &mut Buffers<'_>) -> Result<(), CallStatus>
    ensures gives { GivesTexts (texts_of texts.now)
        (texts_in buffers.old) (texts_in buffers.new) result }
    ensures same { SameBuffers buffers.old buffers.new }
{
    if !fit(texts, buffers) {
        return Err(CallStatus::Room);
    }
    put(texts.display, buffers.display);
    put(texts.line, buffers.line);
    put(texts.history, buffers.history);
    put(texts.kills, buffers.kills);
    put(texts.ends, buffers.ends);
    Ok(())
}

/// A text, if it is wanted.
fn if_wanted<T>(wants: bool, text: &[T]) -> &[T]
    ensures { result.now ≡ if_wanted wants text.now }
{
    if wants { text } else { &[] }
}

/// Copies each text that is wanted into its buffer, or none of them if one doesn't fit.
fn put_wanted(
    texts: &Texts<'_>,
    wants: &KeylineWants,
    buffers: &mut Buffers<'_>,
) -> Result<(), CallStatus>
    ensures gives { GivesTexts (texts_wanted wants.now (texts_of texts.now))
        (texts_in buffers.old) (texts_in buffers.new) result }
    ensures same { SameBuffers buffers.old buffers.new }
{
    let wanted = Texts {
        display: if_wanted(wants.display, texts.display),
        line: if_wanted(wants.line, texts.line),
        history: if_wanted(wants.history, texts.history),
        kills: if_wanted(wants.kills, texts.kills),
        ends: if_wanted(wants.ends, texts.ends),
    };
    put_all(&wanted, buffers)
}

/// The text of an open line, and the cursor's place in it.
fn open_parts(line: &Option<LineBuffer>) -> (&str, usize)
    ensures text { result.0.now ≡ open_text line.now }
    ensures place { result.1 ≡ open_place line.now }
{
    match line {
        Some(line) => (line.as_str(), line.pos()),
        None => ("", 0),
    }
}

/// Returns the texts of a line that is still open.
fn give_open(
    sent: usize,
    keys: usize,
    left: &Left,
    wants: &KeylineWants,
    buffers: &mut Buffers<'_>,
    step: &mut KeylineStep,
) -> Result<(), CallStatus>
    requires { sent ≤ length (⟦<VecSink as Sink>⟧.held left.now.display) }
    ensures gives { GivesOpen ⟦<VecSink as Sink>⟧.held sent keys wants.now left.now
        (texts_in buffers.old) (texts_in buffers.new) step.old step.new result }
    ensures same { SameBuffers buffers.old buffers.new }
{
    let bytes = left.display.bytes();
    let (line, cursor) = open_parts(&left.open_line);
    let texts = Texts {
        display: &bytes[sent..],
        line: line.as_bytes(),
        history: &[],
        kills: &[],
        ends: &[],
    };
    step.sent = bytes.len();
    step.keys = keys.saturating_sub(left.rest);
    step.cursor = cursor;
    tell_lengths(&texts, step);
    put_wanted(&texts, wants, buffers)
}

/// The text of a line; empty if there is none.
fn text_of(outcome: &Result<String, ReadlineError>) -> &str
    ensures { result.now ≡ result_unwrap_or (answer_map string_bytes outcome.now) [] }
{
    match outcome {
        Ok(text) => text.as_str(),
        Err(_) => "",
    }
}

/// The text of a history, if an entry is new.
fn saved(alloc: Global, history: FileHistory) -> Result<Vec<u8>, CallStatus>
    ensures { MatchResult result (λ text. text.items ≡ text_to_save history)
        (λ e. (e ≡ Memory) × (history.unsaved ≢ 0)) }
{
    let mut history = history;
    let mut text = VecSink::new(alloc);
    match history.save_to(&mut text) {
        Ok(()) => Ok(text.into_bytes()),
        Err(_) => Err(CallStatus::Memory),
    }
}

/// Returns the texts of a line that has ended.
fn give_end(
    alloc: Global,
    sent: usize,
    keys: usize,
    left: Left,
    wants: &KeylineWants,
    buffers: &mut Buffers<'_>,
    step: &mut KeylineStep,
) -> Result<(), CallStatus>
    requires { sent ≤ length (⟦<VecSink as Sink>⟧.held left.display) }
    ensures gives { GivesEnd ⟦<VecSink as Sink>⟧.held sent keys wants.now left
        (texts_in buffers.old) (texts_in buffers.new) step.old step.new result }
    ensures same { SameBuffers buffers.old buffers.new }
{
    let Left {
        outcome,
        display,
        history,
        ring,
        rest,
        ..
    } = left;
    let history = saved(alloc, history)?;
    let slots = slots_of(alloc, &ring)?;
    let texts = Texts {
        display: &display.bytes()[sent..],
        line: text_of(&outcome).as_bytes(),
        history: &history,
        kills: &slots.texts,
        ends: &slots.ends,
    };
    step.sent = display.bytes().len();
    step.keys = keys.saturating_sub(rest);
    step.place = slots.place;
    tell_lengths(&texts, step);
    put_wanted(&texts, wants, buffers)
}

/// Returns the texts of a line, and how it ended.
fn give(
    alloc: Global,
    options: &KeylineOptions,
    keys: usize,
    left: Left,
    wants: &KeylineWants,
    buffers: &mut Buffers<'_>,
    step: &mut KeylineStep,
) -> Result<CallStatus, CallStatus>
    ensures gives { Gives ⟦<VecSink as Sink>⟧.held options.now.sent keys wants.now left
        (texts_in buffers.old) (texts_in buffers.new) step.old step.new result }
    ensures same { SameBuffers buffers.old buffers.new }
{
    let status = status_of(&left.outcome);
    if status == CallStatus::Memory {
        return Err(status);
    }
    if left.display.bytes().len() < options.sent {
        return Err(CallStatus::Argument);
    }
    if status.is_open() {
        give_open(options.sent, keys, &left, wants, buffers, step)?;
        return Ok(status);
    }
    give_end(alloc, options.sent, keys, left, wants, buffers, step)?;
    Ok(status)
}

/// Reads the line of these keys, and returns its texts.
fn answer<'k>(
    alloc: Global,
    options: &KeylineOptions,
    handed: &Handed<'k>,
    wants: &KeylineWants,
    buffers: &mut Buffers<'_>,
    step: &mut KeylineStep,
) -> Result<CallStatus, CallStatus>
    ensures answers { AnswersCall ⟦<VecSink as Sink>⟧.held options.now handed.now.keys.now
        handed.now.prompt.now handed.now.words.now handed.now.asks.now handed.now.history.now
        handed.now.kills.now handed.now.ends.now wants.now
        (texts_in buffers.old) (texts_in buffers.new) step.old step.new result }
    ensures same { SameBuffers buffers.old buffers.new }
{
    let left = play(alloc, options, handed)?;
    give(
        alloc,
        options,
        handed.keys.len(),
        left,
        wants,
        buffers,
        step,
    )
}

/// How a call ended, whether it succeeded or failed.
fn status_in(ended: Result<CallStatus, CallStatus>) -> CallStatus
    ensures { result ≡ status_in ended }
{
    match ended {
        Ok(status) | Err(status) => status,
    }
}

/// The line of these keys, as far as they go. `words` has a word in each row, for Tab; `history` is
/// a history's text; `kills` and `ends` are the kill ring. Each buffer (`.._room`) gets the text
/// that its name says.
///
/// The numbers of the statuses, and what a caller does for each, are in `keyline.h`.
pub fn line_of_keys<'k>(
    alloc: Global,
    options: &KeylineOptions,
    keys: &'k [u8],
    prompt: &'k [u8],
    words: &'k [u8],
    asks: &'k [u8],
    history: &'k [u8],
    kills: &'k [u8],
    ends: &'k [usize],
    wants: &KeylineWants,
    display_room: &mut [u8],
    line_room: &mut [u8],
    history_room: &mut [u8],
    kills_room: &mut [u8],
    ends_room: &mut [usize],
    step: &mut KeylineStep,
)
    ensures { Calls ⟦<VecSink as Sink>⟧.held options.now keys.entry.now prompt.entry.now
        words.entry.now asks.entry.now history.entry.now kills.entry.now ends.entry.now wants.now
        (buffer_texts display_room.old line_room.old history_room.old kills_room.old ends_room.old)
        (buffer_texts display_room.new line_room.new history_room.new kills_room.new ends_room.new)
        step.new }
{
    *step = KeylineStep {
        status: 0,
        display: 0,
        sent: options.sent,
        line: 0,
        keys: 0,
        history: 0,
        kills: 0,
        slots: 0,
        place: 0,
        cursor: 0,
    };
    let handed = Handed {
        keys,
        prompt,
        words,
        asks,
        history,
        kills,
        ends,
    };
    let mut buffers = Buffers {
        display: display_room,
        line: line_room,
        history: history_room,
        kills: kills_room,
        ends: ends_room,
    };
    let status = status_in(answer(alloc, options, &handed, wants, &mut buffers, step));
    step.status = status.code();
}
