//! Sessions: key bytes become accepted lines, a history and display bytes.

ghost use Rattle.std.specs.Prelude.{◌≡◌, ◌≤◌, [], IfErr, IfOk, IsTrue, OnErr, OnOk, cond, false, true, string_bytes};
ghost use Rattle.line_config.specs.declared.errors.ReadlineError.TheVariants.{Memory};
ghost use Rattle.line_help.specs.History.{takes};
ghost use Rattle.line_keys.specs.KeyFeeds.{answer_map};
ghost use Rattle.line_editor.specs.LineRun.{helper_from_hooks};
ghost use Rattle.keyline.specs.SessionEffects.{SavesIf, devices_by, ending_after};
ghost use Rattle.keyline.specs.SessionCalls.{HasGiven, ReadsNext, SetsScreen, desk_of, given_in, history_of, prompt_of, text_sink, with_entry, with_helper, with_saved, Finishes, LoadRefused, Loaded, Opens, Remains, RunsSession, Unopens};
ghost use Rattle.keyline.specs.declared.session.TheConstants.{KILL_RING_SIZE};
ghost use Rattle.line_record.specs.Ring.{new_ring};
ghost use Rattle.line_help.specs.HistoryText.{text_to_append};
ghost use Rattle.keyline.specs.Keeping.{AddsEntry, KeepsNewest, KeepsRows};

use crate::boxed::Boxed;
use crate::desk::{Desk, renderer_over};
use crate::ending::Ending;
use crate::held::Held;
use line_config::{ClosedSink, Config, ReadlineError, Sink, Source, VecSink};
use line_help::{FileHistory, Helper, History};
use line_keys::{Decides, EventHandler, EventMap};
use line_record::KillRing;
use line_screen::KeyReader;
use std::alloc::Global;
use std::{fmt, mem};

/// The number of slots of a session's kill ring.
pub const KILL_RING_SIZE: usize = 60;

/// An open session. It reads keys from a source, draws on a display, writes accepted lines to a
/// sink, and adds them to a history whose text goes to another sink.
#[derive(Drop)]
pub struct Session<S: Source, H, D: Sink, L: Sink, T: Sink, B: Decides = EventHandler> {
    alloc: Global,
    config: Config,
    bindings: EventMap<B>,
    prompt: String,
    pub(crate) desk: Desk<S, H, D, L>,
    text: T,
}

/// A session that was not opened, with the devices passed in for it. They were not used, except
/// that some of the history's text may have been read.
#[derive(Drop)]
pub struct Unopened<F, S, D, L, T> {
    /// Why: the history's text isn't UTF-8, its source has failed, or memory ran out.
    pub why: ReadlineError,
    /// The source of the history's text, after what was read of it.
    pub history: F,
    pub source: S,
    pub display: D,
    /// The sink of accepted lines.
    pub lines: L,
    /// The sink of the history's text.
    pub text: T,
}

impl<F, S, D, L, T> Unopened<F, S, D, L, T> {
    // Not inlined, and neither are `open` and `run`: if one function moves the devices to several
    // places, LLVM takes minutes for it.
    #[inline(never)]
    pub(crate) fn new(
        why: ReadlineError,
        history: F,
        source: S,
        display: D,
        lines: L,
        text: T,
    ) -> Self
        ensures { result ≡ record {
          why = why;
          history = history;
          source = source;
          display = display;
          lines = lines;
          text = text;
        } }
    {
        Unopened {
            why,
            history,
            source,
            display,
            lines,
            text,
        }
    }
}

/// Shown as the reason.
impl<F, S, D, L, T> fmt::Debug for Unopened<F, S, D, L, T> {
    fn fmt<W: fmt::Write>(&self, f: &mut fmt::Formatter<W>) -> fmt::Result {
        fmt::Debug::fmt(&self.why, f)
    }
}

impl<F: Drop, S: Drop, D: Drop, L: Drop, T: Drop> From<Unopened<F, S, D, L, T>> for ReadlineError {
    ghost use Rattle.std.specs.Prelude.{◌≡◌};

    ghost from_gives = { λ unopened why. why ≡ unopened.why };

    fn from(unopened: Unopened<F, S, D, L, T>) -> ReadlineError {
        unopened.why
    }
}

/// A session that has ended, with its history and its devices.
#[derive(Drop)]
pub struct Ended<S, D, L, T> {
    /// How it ended.
    pub ending: Ending,
    /// The history, without new entries if its text was saved.
    pub history: FileHistory,
    /// The source of key bytes, after the last byte read.
    pub source: S,
    /// The byte that was read ahead after an Esc and belongs to no key. It is the first byte of the
    /// remaining input.
    pub ahead: Option<u8>,
    pub display: D,
    /// The sink of accepted lines.
    pub lines: L,
    /// The sink of the history's text.
    pub text: T,
}

impl<S, D, L> Ended<S, D, L, VecSink> {
    /// The history's text, to be saved where it was loaded from. It is empty, and nothing must be
    /// saved, if no entry is new or if memory ran out for the whole text.
    pub fn text_to_save(&self) -> &[u8]
        ensures { result.now ≡ cond (⟦<VecSink as Sink>⟧.has_failed self.now.text) []
            (⟦<VecSink as Sink>⟧.held self.now.text) }
    {
        if self.text.failed() {
            &[]
        } else {
            self.text.bytes()
        }
    }
}

/// A new history, with the text of a source loaded into it.
fn load<F: Source>(
    alloc: Global,
    config: &Config,
    source: &mut F,
) -> Result<FileHistory, ReadlineError>
    ensures loaded { IfOk result (Loaded (IsTrue (F.feed source.new).told) config.now
        (F.feed source.old)) }
    ensures fault { IfErr result (LoadRefused config.now (F.feed source.old) (F.feed source.new)) }
    ensures remains { Remains (F.feed source.old) (F.feed source.new) }
{
    let mut history = FileHistory::with_config(alloc, config);
    history.load_from(alloc, source)?;
    Ok(history)
}

/// The parts with which a session begins whose allocation may fail.
pub(crate) struct Beginning {
    pub(crate) prompt: String,
    pub(crate) ring: KillRing,
    pub(crate) history: FileHistory,
}

/// The prompt, the ring, and last the history. So if a text was read whole, only its own content
/// can be the error.
fn begin<F: Source>(
    alloc: Global,
    config: &Config,
    prompt: &str,
    source: &mut F,
) -> Result<Beginning, ReadlineError>
    requires { (F.feed source.old).failed ≡ false }
    ensures history { IfOk result (λ b. Loaded (IsTrue (F.feed source.new).told) config.now
        (F.feed source.old) b.history) }
    ensures ring { IfOk result (λ b. b.ring ≡ new_ring KILL_RING_SIZE) }
    ensures prompt { IfOk result (λ b. string_bytes b.prompt ≡ prompt.now) }
    ensures fault { IfErr result (LoadRefused config.now (F.feed source.old) (F.feed source.new)) }
    ensures remains { Remains (F.feed source.old) (F.feed source.new) }
{
    let prompt = String::from_str(alloc, prompt)?;
    let ring = KillRing::new(alloc, KILL_RING_SIZE)?;
    let history = load(alloc, config, source)?;
    Ok(Beginning {
        prompt,
        ring,
        history,
    })
}

/// Saves the history if an entry is new, and returns whether the sink took it.
fn save<T: Sink>(history: &mut FileHistory, text: &mut T) -> bool
    ensures { SavesIf T.held T.has_failed true history.old history.new text.old text.new result }
{
    match history.save_to(text) {
        Ok(()) => true,
        Err(_) => false,
    }
}

/// The same if asked to. Otherwise nothing is done.
fn save_if<T: Sink>(asked: bool, history: &mut FileHistory, text: &mut T) -> bool
    ensures { SavesIf T.held T.has_failed asked history.old history.new text.old text.new result }
{
    if asked { save(history, text) } else { true }
}

/// The ending of a session: the failure of its history counts if no fault came before.
fn ending_after(why: ReadlineError, saved: bool) -> ReadlineError
    ensures { result ≡ ending_after why saved }
{
    match why {
        ReadlineError::Eof
        | ReadlineError::Interrupted
        | ReadlineError::NotUtf8
        | ReadlineError::PasteOutOfPlace
            if !saved => { ReadlineError::HistoryText }
        _ => why,
    }
}

impl<S: Source, H: Helper, D: Sink, L: Sink, T: Sink, B: Decides> Session<S, H, D, L, T, B>
where
    S: Drop,
    H: Drop,
    D: Drop,
    L: Drop,
    T: Drop,
{
    /// Opens a session: the history is loaded, no key is read, and nothing is drawn yet. Rows of
    /// the display have `columns` cells. If it fails, the devices are returned, with the source of
    /// the history's text after what was read from it.
    #[inline(never)]
    pub fn open<F: Source + Drop>(
        alloc: Global,
        config: Config,
        bindings: EventMap<B>,
        history: F,
        helper: Option<H>,
        prompt: &str,
        source: S,
        columns: u16,
        display: D,
        lines: L,
        text: T,
    ) -> Result<Self, Unopened<F, S, D, L, T>>
        requires columns { (2 ≤ columns) × (columns ≤ 1000) }
        requires history { (F.feed history).failed ≡ false }
        requires source { (S.feed source).failed ≡ false }
        requires display { D.has_failed display ≡ false }
        requires lines { L.has_failed lines ≡ false }
        requires text { T.has_failed text ≡ false }
        ensures desk { IfOk result (λ s. Opens F.feed S.feed config history helper source columns
            display lines (desk_of s)) }
        ensures given { IfOk result (HasGiven config bindings prompt.now text) }
        ensures refused { IfErr result (Unopens F.feed config history source display lines text) }
    {
        let mut history = history;
        let display = match Boxed::new(alloc, display) {
            Ok(display) => display,
            Err(display) => {
                let why = ReadlineError::Memory;
                return Err(Unopened::new(why, history, source, display, lines, text));
            }
        };
        let Beginning {
            prompt,
            ring,
            history: loaded,
        } = match begin(alloc, &config, prompt, &mut history) {
            Ok(beginning) => beginning,
            Err(why) => {
                let display = display.into_inner();
                return Err(Unopened::new(why, history, source, display, lines, text));
            }
        };
        let desk = Desk {
            reader: KeyReader::new(source, config.edit_mode()),
            out: Held::new(renderer_over(&config, columns, display)),
            helper,
            history: loaded,
            ring,
            last_query: String::new(alloc),
            lines,
            added: false,
        };
        Ok(Session {
            alloc,
            config,
            bindings,
            prompt,
            desk,
            text,
        })
    }

    /// Reads the next line, drawn after this prompt. An accepted line is added to the history if
    /// the settings say so, written, and returned.
    ///
    /// After each answer another line may be read. After `Interrupted`, which Ctrl-C gives, it
    /// begins with the same ring, last search and history. After `Eof` it ends again at once,
    /// unless the source has more to give.
    #[inline(never)]
    pub fn read_line(&mut self, prompt: &str) -> Result<String, ReadlineError>
        ensures { let helps =
            helper_from_hooks H.hint_of H.verdict_of H.completion_of H.update_of H.marks in
            let known = devices_by S.feed D.held D.waits D.has_failed L.held L.waits L.has_failed in
            ReadsNext known (given_in B.decides helps prompt.now) self.old self.new
            (answer_map string_bytes result) }
    {
        self.next_line(prompt)
    }

    /// The same. The desk then says whether the line became an entry of the history.
    fn next_line(&mut self, prompt: &str) -> Result<String, ReadlineError>
        ensures added { AddsEntry self.new.desk.added (history_of self.old) (history_of self.new) }
        ensures reads { let helps =
            helper_from_hooks H.hint_of H.verdict_of H.completion_of H.update_of H.marks in
            let known = devices_by S.feed D.held D.waits D.has_failed L.held L.waits L.has_failed in
            ReadsNext known (given_in B.decides helps prompt.now) self.old self.new
            (answer_map string_bytes result) }
    {
        let (config, bindings) = (&self.config, &self.bindings);
        self.desk.one_line(self.alloc, config, bindings, prompt)
    }

    /// Sets the number of columns of the display's rows for further lines. Nothing is drawn.
    pub fn set_columns(&mut self, columns: u16)
        requires { (2 ≤ columns) × (columns ≤ 1000) }
        ensures { SetsScreen (λ screen. record screen { columns = columns }) self.old self.new }
    {
        match &mut self.desk.out.value {
            Some(out) => out.set_columns(columns),
            None => unreachable!(),
        }
    }

    /// Sets whether the helper's styles are drawn in further lines. Nothing is drawn. At first they
    /// are if the setting `draw_colours` is on.
    pub fn set_colours(&mut self, colours: bool)
        ensures { SetsScreen (λ screen. record screen { colours = colours }) self.old self.new }
    {
        match &mut self.desk.out.value {
            Some(out) => out.set_colours(colours),
            None => unreachable!(),
        }
    }

    /// Adds a line to the history, whatever the settings say about accepted lines, and returns
    /// whether it did: some lines are ignored, as `History::add` says.
    pub fn add_history_entry(&mut self, line: &str) -> Result<bool, ReadlineError>
        ensures answer { IfOk result (λ b. b ≡ takes (history_of self.old) line.now) }
        ensures added { OnOk result (self.new ≡ with_entry line.now self.old) }
        ensures kept { OnErr result (self.new ≡ self.old) }
        ensures fault { IfErr result
            (λ e. (e ≡ Memory) × IsTrue (takes (history_of self.old) line.now)) }
    {
        self.desk.history.add(self.alloc, line)
    }

    /// Sets the helper from the next line on.
    pub fn set_helper(&mut self, helper: Option<H>)
        ensures { self.new ≡ with_helper helper self.old }
    {
        self.desk.helper = helper;
    }

    /// The history so far.
    pub fn history(&self) -> &FileHistory
        ensures { result.now ≡ history_of self.now }
    {
        &self.desk.history
    }

    /// The rows of the entries that are new since the history was loaded, or since these were last
    /// taken; empty if none is. They continue the history's text, where `append_history` of
    /// `keyline_files` appends them. Then no entry is new. If memory runs out, nothing changes.
    pub fn take_new_rows(&mut self) -> Result<Vec<u8>, ReadlineError>
        ensures rows { IfOk result (λ rows. rows.items ≡ text_to_append (history_of self.old)) }
        ensures taken { OnOk result (self.new ≡ with_saved self.old) }
        ensures kept { OnErr result (self.new ≡ self.old) }
        ensures fault { IfErr result (λ e. e ≡ Memory) }
    {
        let mut rows = VecSink::new(self.alloc);
        match self.desk.history.append_to(&mut rows) {
            Ok(()) => Ok(rows.into_bytes()),
            Err(_) => Err(ReadlineError::Memory),
        }
    }

    /// Hands the row of the last line to a sink, if the line became an entry. A sink that fails is
    /// left as it is.
    fn keep_newest<K: Sink>(&self, keeper: &mut K)
        ensures { KeepsNewest K.held K.has_failed self.now.desk.added (history_of self.now)
            keeper.old keeper.new }
    {
        if self.desk.added {
            let _ = self.desk.history.write_newest(keeper);
        }
    }

    /// Ends the session, for this reason: saves the history if an entry is new, and returns the
    /// devices. If the history can't be saved, that is the ending, unless a fault came before.
    pub fn finish(self, why: ReadlineError) -> Ended<S, D, L, T>
        ensures { Finishes S.feed T.held T.has_failed true (desk_of self) (text_sink self) why
            result }
    {
        self.close(why, true)
    }

    /// The same, but saves the history only if asked to.
    #[inline(never)]
    fn close(self, why: ReadlineError, saves: bool) -> Ended<S, D, L, T>
        ensures { Finishes S.feed T.held T.has_failed saves (desk_of self) (text_sink self) why
            result }
    {
        let Session { desk, mut text, .. } = self;
        let Desk {
            reader,
            out,
            mut history,
            lines,
            ..
        } = desk;
        let saved = save_if(saves, &mut history, &mut text);
        let ending = Ending::from(ending_after(why, saved));
        let (source, ahead) = reader.into_parts();
        Ended {
            ending,
            history,
            source,
            ahead,
            display: out.into_inner().into_sink().into_inner(),
            lines,
            text,
        }
    }

    /// Reads lines, draws and writes them, until the input or a fault ends it. The history is saved
    /// once, whatever the ending.
    pub fn run(self) -> Ended<S, D, L, T>
        ensures { let known = devices_by S.feed D.held D.waits D.has_failed L.held L.waits
            L.has_failed in
            let helps = helper_from_hooks H.hint_of H.verdict_of H.completion_of H.update_of
            H.marks in
            RunsSession known T.held T.has_failed true
            (given_in B.decides helps (prompt_of self) self) (desk_of self) (text_sink self)
            result }
    {
        self.run_to_end(true, &mut ClosedSink)
    }

    /// The same, but the row of each new entry is handed to a sink, and passed on, before the next
    /// line is read, and the history's text is not saved at the end. If this sink fails, lines are
    /// read on: the session doesn't end by it.
    pub fn run_keeping<K: Sink>(self, keeper: &mut K) -> Ended<S, D, L, T>
        ensures runs { let known = devices_by S.feed D.held D.waits D.has_failed L.held L.waits
            L.has_failed in
            let helps = helper_from_hooks H.hint_of H.verdict_of H.completion_of H.update_of
            H.marks in
            RunsSession known T.held T.has_failed false
            (given_in B.decides helps (prompt_of self) self) (desk_of self) (text_sink self)
            result }
        ensures kept { KeepsRows K.held K.has_failed (history_of self) result.history keeper.old
            keeper.new }
    {
        self.run_to_end(false, keeper)
    }

    /// Reads lines, draws and writes them, and saves the history at the end only if asked to. The
    /// row of each new entry is handed to a sink before the next line is read.
    #[inline(never)]
    pub(crate) fn run_to_end<K: Sink>(self, saves: bool, keeper: &mut K) -> Ended<S, D, L, T>
        ensures runs { let known = devices_by S.feed D.held D.waits D.has_failed L.held L.waits
            L.has_failed in
            let helps = helper_from_hooks H.hint_of H.verdict_of H.completion_of H.update_of
            H.marks in
            RunsSession known T.held T.has_failed saves
            (given_in B.decides helps (prompt_of self) self) (desk_of self) (text_sink self)
            result }
        ensures kept { KeepsRows K.held K.has_failed (history_of self) result.history keeper.old
            keeper.new }
    {
        let mut session = self;
        let empty = String::new(session.alloc);
        let prompt = mem::replace(&mut session.prompt, empty);
        loop {
            let line = session.next_line(prompt.as_str());
            session.keep_newest(keeper);
            match line {
                Ok(_) => {}
                Err(why) => return session.close(why, saves),
            }
        }
    }
}
