//! Commands of a line, by their names, over a renderer that takes no memory. Its bytes go to
//! standard error, and the state after each step with them.

use crate::edits::words::tell_ring;
use line_buffer::GraphemeClusterMode;
use line_config::{BellStyle, Config, ReadlineError, WriteSink};
use line_editor::{State, Status, execute};
use line_help::{
    Context, HelperParts, History, HistoryHinter, MatchingBracketValidator, MemHistory,
    WordCompleter,
};
use line_keys::{Bindings, Cmd, InputState};
use line_record::KillRing;
use line_screen::ScreenRenderer;
use stand_ins::commands::command_named;
use stand_ins::tables::{word_and_rest, words_in};
use std::alloc::Global;
use std::io::{self, Stderr};

const COLUMNS: u16 = 20;

/// Completion by words, hints from the history, and validation of brackets.
type Aide = HelperParts<WordCompleter, HistoryHinter, (), MatchingBracketValidator>;

type Edited<'h> = State<'h, 'h, ScreenRenderer<WriteSink<Stderr>>, Aide, MemHistory>;

fn history_of(alloc: Global, entries: &str) -> Result<MemHistory, ReadlineError> {
    let mut history = MemHistory::new(alloc);
    for entry in entries.split(',') {
        let _ = history.add(alloc, entry)?;
    }
    Ok(history)
}

/// The helper that completes these words; `None` without a word.
fn helper_of(alloc: Global, listed: &str) -> Result<Option<Aide>, ReadlineError> {
    if listed.is_empty() {
        return Ok(None);
    }
    Ok(Some(HelperParts {
        completer: WordCompleter::new(words_in(alloc, listed, ',')?),
        hinter: HistoryHinter::new(),
        highlighter: (),
        validator: MatchingBracketValidator::new(),
    }))
}

/// Removes the spare capacity of line and record.
fn tighten(alloc: Global, state: &mut Edited<'_>) -> Result<(), ReadlineError> {
    let recorded = &mut state.recorded;
    recorded.line = recorded.line.try_clone(alloc)?;
    recorded.changes = recorded.changes.try_clone(alloc)?;
    Ok(())
}

/// Runs a command, like a turn of a line does.
fn make(
    state: &mut Edited<'_>,
    input: &InputState<'_>,
    ring: &mut KillRing,
    cmd: Cmd,
) -> Result<Status, ReadlineError> {
    if cmd.should_reset_kill_ring() {
        ring.reset();
    }
    execute(cmd, state, input, ring)
}

fn word_of(answer: Result<Status, ReadlineError>) -> &'static str {
    match answer {
        Ok(Status::Proceed) => "done",
        Ok(Status::Submit) => "Submit",
        Err(ReadlineError::Memory) => "refused",
        Err(ReadlineError::Eof) => "Eof",
        Err(ReadlineError::Interrupted) => "Interrupted",
        Err(_) => "fault",
    }
}

/// Makes a step that is no command, if it is one.
fn prepare(alloc: Global, state: &mut Edited<'_>, step: &str) -> Option<Result<(), ReadlineError>> {
    let (name, text) = word_and_rest(step);
    match name {
        "put" => Some(state.edit_insert_text(text)),
        "restore" => Some(state.restore()),
        "tighten" => Some(tighten(alloc, state)),
        _ => None,
    }
}

/// Makes a step, and returns how it ended.
fn step_on(
    alloc: Global,
    state: &mut Edited<'_>,
    input: &InputState<'_>,
    ring: &mut KillRing,
    step: &str,
) -> &'static str {
    if let Some(done) = prepare(alloc, state, step) {
        return word_of(done.map(|()| Status::Proceed));
    }
    match command_named(alloc, step) {
        Some(cmd) => word_of(make(state, input, ring, cmd)),
        None => "unread",
    }
}

fn tell(rt: &HostRuntime, state: &Edited<'_>, ring: &KillRing, word: &str) -> io::Result<()> {
    let hint = match &state.hint {
        Some(hint) => hint.as_str(),
        None => "",
    };
    let layout = &state.layout;
    let (cursor, end) = (layout.cursor, layout.end);
    eprint!(rt;
        "\x1d{word}\t{}\t{}\t{hint}\t{}\t{} {} {} {}",
        state.recorded.line.as_str(),
        state.recorded.line.pos(),
        state.ctx.history_index(),
        cursor.row,
        cursor.col,
        end.row,
        end.col
    )?;
    tell_ring(rt, ring)
}

fn play_on(
    rt: &HostRuntime,
    state: &mut Edited<'_>,
    input: &InputState<'_>,
    ring: &mut KillRing,
    steps: &[String],
) -> io::Result<()> {
    for step in steps {
        let word = step_on(rt.alloc(), state, input, ring, step.as_str());
        tell(rt, state, ring, word)?;
    }
    Ok(())
}

fn play_with(
    rt: &HostRuntime,
    state: &mut Edited<'_>,
    config: &Config,
    steps: &[String],
) -> Result<io::Result<()>, ReadlineError> {
    let bindings = Bindings::new(rt.alloc())?;
    let input = InputState::new(rt.alloc(), config, &bindings)?;
    let mut ring = KillRing::new(rt.alloc(), 2)?;
    Ok(play_on(rt, state, &input, &mut ring, steps))
}

fn edited<'h>(
    rt: &HostRuntime,
    history: &'h MemHistory,
    helper: Option<Aide>,
    config: &'h Config,
) -> Result<Edited<'h>, ReadlineError> {
    let screen = ScreenRenderer::new(
        WriteSink::new(rt.stderr()),
        COLUMNS,
        GraphemeClusterMode::Unicode,
        BellStyle::Audible,
    );
    State::new(
        rt.alloc(),
        screen,
        "> ",
        helper,
        Context::new(history),
        config,
    )
}

fn play_over(
    rt: &HostRuntime,
    entries: &str,
    words: &str,
    steps: &[String],
) -> Result<io::Result<()>, ReadlineError> {
    let history = history_of(rt.alloc(), entries)?;
    let helper = helper_of(rt.alloc(), words)?;
    let config = Config::builder().build();
    let mut state = edited(rt, &history, helper, &config)?;
    play_with(rt, &mut state, &config, steps)
}

/// Makes the steps on a line over a history with these entries and a helper with these words, and
/// prints the state after each of them.
pub(crate) fn play(
    rt: &HostRuntime,
    entries: &str,
    words: &str,
    steps: &[String],
) -> io::Result<()> {
    match play_over(rt, entries, words, steps) {
        Ok(told) => told,
        Err(_) => eprintln!(rt; "not begun"),
    }
}
