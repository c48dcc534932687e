//! Tables of commands. A row is a line with a bar at the cursor, after `:` the commands, separated
//! by `; `, and after ` = ` their result.
//!
//! A row that begins with one of these words is a setting for the rows after it, and has no result.
//! For the display: `columns: 10` sets its columns, `colours: yes` whether it has colours,
//! `tabs: 8` how many columns apart tab stops are, `answered: 3` how many calls succeed.
//! `history: one,two` sets the entries, `mode: Vi` the keymap. `partial: yes` has lines drawn in
//! part, where that can be. `first:` sets the commands before those of each row.
//!
//! `helper:` sets a helper with an adviser's words (`session_rows::words::advice`), and `advised:`
//! puts words before those that it has.

use crate::calls::CallList;
use crate::{
    accepting, completing, faults, inserting, killing, moving, remembering, rewording, yanking,
};
use line_buffer::{LineBuffer, Unit};
use line_config::{Config, EditMode, ReadlineError};
use line_editor::commands::{Status, execute};
use line_editor::{RefreshKind, State};
use line_help::{Context, Helper, History, MemHistory};
use line_keys::{Bindings, Cmd, CmdKind, InputState};
use line_record::{Changeset, KillRing};
use session_rows::words::advice::{Adviser, Texts, texts_of};
use stand_ins::rows::{Player, Starts, raised, tables_hold, trimmed};
use stand_ins::tables::{marked, meant, word_and_rest};
use stand_ins::typing::command_of;
use std::alloc::{AllocError, Global};
use std::test::Fail;

/// The settings of a table's lines.
#[derive(Drop)]
pub(crate) struct Stage {
    pub columns: Unit,
    pub colours: bool,
    /// How many columns apart tab stops are; without them a tab is a question mark.
    pub tab: Option<u8>,
    pub history: MemHistory,
    /// The words of the helper; none without one.
    advice: String,
    /// How many calls of the renderer succeed for the last command; `None` for all.
    answered: Option<u32>,
    pub mode: EditMode,
    /// The commands that come before each row's own, with `; ` after each.
    first: String,
    /// None: a row has commands, and no keys.
    bindings: Bindings,
    /// The settings of a line.
    config: Config,
}

impl Stage {
    /// A display of 80 columns without colours, no history and no helper.
    pub(crate) fn new(alloc: Global) -> Result<Self, ReadlineError> {
        let bindings = Bindings::new(alloc)?;
        Ok(Stage {
            columns: 80,
            colours: false,
            tab: None,
            history: MemHistory::new(alloc),
            advice: String::new(alloc),
            answered: None,
            mode: EditMode::Emacs,
            first: String::new(alloc),
            bindings,
            config: Config::builder().build(),
        })
    }

    // The helper's texts.
    fn texts(&self, alloc: Global) -> Result<Texts, AllocError> {
        texts_of(alloc, self.advice.as_str())
    }

    // The helper, whose texts these are.
    fn helper<'t>(&self, texts: &'t Texts) -> Option<Adviser<'t>> {
        if self.advice.is_empty() {
            return None;
        }
        Some(texts.adviser(self.advice.as_str()))
    }

    /// Applies a row's setting, and returns whether the row has one.
    pub(crate) fn sets(&mut self, alloc: Global, row: &str) -> Result<bool, Fail> {
        let (word, rest) = word_and_rest(row);
        match word {
            "advised:" => self.advice = format!(in alloc; "{rest} {}", self.advice)?,
            "first:" => self.first = format!(in alloc; "{rest}; ")?,
            "helper:" => self.advice = String::from_str(alloc, rest)?,
            "history:" => self.history = history_of(alloc, rest)?,
            _ => return Ok(self.sets_display(word, rest)),
        }
        Ok(true)
    }

    fn sets_display(&mut self, word: &str, rest: &str) -> bool {
        match word {
            "answered:" => self.answered = rest.parse().ok(),
            "colours:" => self.colours = rest == "yes",
            "columns:" => self.columns = rest.parse().unwrap_or(80),
            "tabs:" => self.tab = rest.parse().ok(),
            "partial:" => {
                self.config = Config::builder().partial_redraw(rest == "yes").build();
            }
            "mode:" if rest == "Vi" => self.mode = EditMode::Vi,
            _ => return false,
        }
        true
    }
}

/// A line over a renderer that logs its calls. Functions that edit it don't name the helper's type:
/// with a named one the borrow checker finds no unique type for its hints.
type Desk<'h, H> = State<'h, 'h, CallList, H, MemHistory>;

// A history with these entries, oldest first, separated by commas.
fn history_of(alloc: Global, entries: &str) -> Result<MemHistory, ReadlineError> {
    let mut history = MemHistory::new(alloc);
    for entry in entries.split(',') {
        let text = meant(alloc, entry)?;
        let _ = history.add(alloc, text.as_str())?;
    }
    Ok(history)
}

// Inserts a text after the cursor.
fn put<H: Helper + Drop>(
    alloc: Global,
    desk: &mut Desk<'_, H>,
    shown: &str,
) -> Result<(), ReadlineError> {
    desk.edit_insert_text(meant(alloc, shown)?.as_str())
}

// Inserts texts before the cursor and after it.
fn put_around<H: Helper + Drop>(
    alloc: Global,
    desk: &mut Desk<'_, H>,
    before: &str,
    after: &str,
) -> Result<(), ReadlineError> {
    put(alloc, desk, before)?;
    desk.edit_move_buffer_end(CmdKind::Other)?;
    put(alloc, desk, after)
}

// Sets the line to that of a table, with an empty record.
fn set_line<H: Helper + Drop>(
    alloc: Global,
    desk: &mut Desk<'_, H>,
    shown: &str,
) -> Result<(), ReadlineError> {
    let (before, after) = shown.split_once('|').unwrap_or((shown, ""));
    put_around(alloc, desk, before, after)?;
    let changes = Changeset::new(alloc)?;
    let recorded = &mut desk.recorded;
    recorded.changes = changes;
    desk.repaint(RefreshKind::All)
}

// A state with nothing typed and nothing drawn.
fn empty_desk<'h, H: Helper + Drop>(
    alloc: Global,
    stage: &'h Stage,
) -> Result<Desk<'h, H>, ReadlineError> {
    let out = CallList::new(alloc, stage.columns, stage.colours, stage.tab);
    State::new(
        alloc,
        out,
        "> ",
        None,
        Context::new(&stage.history),
        &stage.config,
    )
}

// Runs a command, like a turn of a line does.
fn make<H: Helper + Drop>(
    desk: &mut Desk<'_, H>,
    input: &InputState<'_>,
    ring: &mut KillRing,
    cmd: Cmd,
) -> Result<Status, ReadlineError> {
    if cmd.should_reset_kill_ring() {
        ring.reset();
    }
    execute(cmd, desk, input, ring)
}

fn status_of(alloc: Global, answer: Result<Status, ReadlineError>) -> Result<String, Fail> {
    match answer {
        Ok(Status::Proceed) => Ok(String::new(alloc)),
        Ok(Status::Submit) => raised(String::from_str(alloc, "Submit ")),
        Err(refusal) => raised(format!(in alloc; "{refusal:?} ")),
    }
}

// A line in a table's notation: a blank at its start as its picture.
fn line_shown(alloc: Global, line: &LineBuffer) -> Result<String, AllocError> {
    let shown = marked(alloc, line.as_str(), line.pos())?;
    match shown.as_str().strip_prefix(' ') {
        Some(rest) => format!(in alloc; "␠{rest}"),
        None => Ok(shown),
    }
}

// Runs a command by its name, and keeps only its calls; how it ended.
fn make_named<H: Helper + Drop>(
    alloc: Global,
    desk: &mut Desk<'_, H>,
    input: &InputState<'_>,
    ring: &mut KillRing,
    answered: Option<u32>,
    words: &str,
) -> Result<String, Fail> {
    let cmd = command_of(alloc, words)?;
    let out = &mut desk.out;
    out.log.forget();
    out.log.answer(answered);
    status_of(alloc, make(desk, input, ring, cmd))
}

// Runs commands one after the other; how the last of them ended.
fn make_all<H: Helper + Drop>(
    alloc: Global,
    desk: &mut Desk<'_, H>,
    input: &InputState<'_>,
    ring: &mut KillRing,
    answered: Option<u32>,
    commands: &str,
) -> Result<String, Fail> {
    let mut status = String::new(alloc);
    for words in commands.split("; ") {
        status = make_named(alloc, desk, input, ring, answered, words.trim())?;
    }
    Ok(status)
}

// How the last command ended, the line, and the calls.
fn calls_told(
    alloc: Global,
    line: &LineBuffer,
    calls: &str,
    status: &str,
) -> Result<String, AllocError> {
    let line = line_shown(alloc, line)?;
    format!(in alloc; "{status}{line} / {calls}")
}

// Runs the commands of a row; their result.
fn made_and_told<H: Helper + Drop>(
    alloc: Global,
    stage: &Stage,
    desk: &mut Desk<'_, H>,
    input: &InputState<'_>,
    ring: &mut KillRing,
    commands: &str,
) -> Result<String, Fail> {
    let status = make_all(alloc, desk, input, ring, stage.answered, commands)?;
    let (recorded, out) = (&desk.recorded, &desk.out);
    raised(calls_told(alloc, &recorded.line, out.calls(), status.as_str()))
}

fn led_with<H: Helper + Drop>(
    alloc: Global,
    stage: &Stage,
    desk: &mut Desk<'_, H>,
    ring: &mut KillRing,
    commands: &str,
) -> Result<String, Fail> {
    let config = Config::builder().edit_mode(stage.mode).build();
    match &InputState::new(alloc, &config, &stage.bindings) {
        Ok(input) => made_and_told(alloc, stage, desk, input, ring, commands),
        Err(why) => Err(Fail::from(*why)),
    }
}

// Sets the line, and then the helper.
fn led_on<H: Helper + Drop>(
    alloc: Global,
    stage: &Stage,
    desk: &mut Desk<'_, H>,
    helper: Option<H>,
    shown: &str,
    commands: &str,
) -> Result<String, Fail> {
    set_line(alloc, desk, shown)?;
    desk.helper = helper;
    match &mut KillRing::new(alloc, 60) {
        Ok(ring) => led_with(alloc, stage, desk, ring, commands),
        Err(why) => Err(Fail::from(*why)),
    }
}

// Runs the commands of a row, over a helper.
fn led_over<H: Helper + Drop>(
    alloc: Global,
    stage: &Stage,
    helper: Option<H>,
    shown: &str,
    commands: &str,
) -> Result<String, Fail> {
    match &mut empty_desk(alloc, stage) {
        Ok(desk) => led_on(alloc, stage, desk, helper, shown, commands),
        Err(why) => Err(Fail::from(*why)),
    }
}

impl Stage {
    // The result of a row's commands.
    fn led_by(&self, alloc: Global, row: &str) -> Result<String, Fail> {
        let Some((shown, commands)) = row.split_once(": ") else {
            return Err(Fail::new(format_args!("no row: {row}")));
        };
        let commands = format!(in alloc; "{}{commands}", self.first)?;
        match &self.texts(alloc) {
            Ok(texts) => led_over(alloc, self, self.helper(texts), shown, commands.as_str()),
            Err(why) => Err(Fail::from(*why)),
        }
    }
}

impl Player for Stage {
    fn play(&mut self, alloc: Global, row: &str) -> Result<String, Fail> {
        if self.sets(alloc, row)? {
            return Ok(String::new(alloc));
        }
        let said = self.led_by(alloc, row)?;
        trimmed(alloc, said.as_str())
    }
}

/// Each row has, after ` = `, how the last command ends unless the line continues, the line then,
/// and after ` / ` the calls of that command.
impl Starts for Stage {
    fn start(alloc: Global) -> Result<Self, Fail> {
        raised(Stage::new(alloc))
    }
}

#[test]
fn tables_of_commands(rt: HostRuntime) -> Result<(), Fail> {
    tables_hold::<Stage>(rt.alloc(), &accepting::TABLES)?;
    tables_hold::<Stage>(rt.alloc(), &completing::TABLES)?;
    tables_hold::<Stage>(rt.alloc(), &faults::TABLES)?;
    tables_hold::<Stage>(rt.alloc(), &inserting::TABLES)?;
    tables_hold::<Stage>(rt.alloc(), &killing::TABLES)?;
    tables_hold::<Stage>(rt.alloc(), &moving::TABLES)?;
    tables_hold::<Stage>(rt.alloc(), &remembering::TABLES)?;
    tables_hold::<Stage>(rt.alloc(), &rewording::TABLES)?;
    tables_hold::<Stage>(rt.alloc(), &yanking::TABLES)
}
