//! Reads, draws, stores and writes one line after the other.

ghost use Rattle.std.specs.Prelude.{◌≡◌, ◌≤◌, ◌++◌, ◌∷◌, ◌&&◌, [], IfErr, IfOk, IsTrue, MatchResult, OnOk, OnErr, string_bytes};
ghost use Rattle.line_config.specs.declared.errors.ReadlineError.TheVariants.{Display, Lines, Memory};
ghost use Rattle.line_config.specs.Sending.{Sends};
ghost use Rattle.line_help.specs.History.{takes};
ghost use Rattle.line_keys.specs.KeyFeeds.{answer_map};
ghost use Rattle.line_screen.specs.ScreenCalls.{screen_of, sink_of, NothingWaits};
ghost use Rattle.keyline.specs.SessionEffects.{Closes, DrawsEnd, RowIsCut, RowIsDrawn, breaks, work};
ghost use Rattle.keyline.specs.Sessions.{given_of, line_text, history_with_if, screen_by};
ghost use Rattle.keyline.specs.Keeping.{history_ended, is_added, is_ended};

use crate::boxed::Boxed;
use crate::held::Held;
use line_config::{Config, DeviceFailed, ReadlineError, Sink, Source};
use line_editor::{Ran, Renderer, run};
use line_help::{FileHistory, Helper, History};
use line_keys::{Decides, EventMap};
use line_record::KillRing;
use line_screen::{KeyReader, ScreenRenderer};
use std::alloc::Global;

/// What draws on a display by the settings, in rows of so many columns. Nothing is drawn yet.
pub fn renderer_over<D: Sink + Drop>(config: &Config, columns: u16, display: D) -> ScreenRenderer<D>
    requires { (2 ≤ columns) × (columns ≤ 1000) }
    ensures sink { sink_of result ≡ display }
    ensures screen { screen_of result ≡ screen_by config.now columns }
{
    let mode = config.grapheme_cluster_mode();
    let mut out = ScreenRenderer::new(display, columns, mode, config.bell_style());
    out.set_colours(config.draw_colours());
    out.set_tab_stop(config.drawn_tab_stop());
    out
}

/// Writes a text and a newline, and flushes them.
fn send_line<L: Sink>(lines: &mut L, text: &str) -> Result<(), DeviceFailed>
    ensures sends { Sends L.held L.has_failed (text.now ++ 0x0A ∷ []) lines.old lines.new
        result }
    ensures passes { NothingWaits L.waits L.has_failed lines.new }
{
    lines.write(text.as_bytes())?;
    lines.write(b"\n")?;
    lines.flush()?;
    Ok(())
}

/// Writes an accepted line, and returns it.
fn hand_out<L: Sink>(lines: &mut L, text: String) -> Result<String, ReadlineError>
    ensures sends { Sends L.held L.has_failed (line_text (string_bytes text)) lines.old lines.new
        result }
    ensures same { IfOk result (λ line. string_bytes line ≡ string_bytes text) }
    ensures fault { IfErr result (λ e. e ≡ Lines) }
    ensures passes { NothingWaits L.waits L.has_failed lines.new }
{
    match send_line(lines, text.as_str()) {
        Ok(()) => Ok(text),
        Err(_) => Err(ReadlineError::Lines),
    }
}

/// Whether the display gets a new row after this ending.
fn breaks(outcome: &Result<String, ReadlineError>) -> bool
    ensures { result ≡ breaks (answer_map string_bytes outcome.now) }
{
    matches!(
        outcome,
        Ok(_) | Err(ReadlineError::Eof | ReadlineError::Interrupted)
    )
}

/// Draws a new row, if the display gets one after this ending.
fn break_row<D: Sink + Drop>(
    outcome: &Result<String, ReadlineError>,
    out: &mut ScreenRenderer<D>,
) -> Result<(), ReadlineError>
    ensures row { let breaks = breaks (answer_map string_bytes outcome.now) in
        MatchResult result
        (λ _. RowIsDrawn D.held D.has_failed breaks (sink_of out.old) (sink_of out.new))
        (λ e. (e ≡ Display) × RowIsCut D.held D.has_failed breaks (sink_of out.old)
        (sink_of out.new)) }
    ensures screen { screen_of out.new ≡ screen_of out.old }
    ensures passes { NothingWaits D.waits D.has_failed (sink_of out.old)
        → NothingWaits D.waits D.has_failed (sink_of out.new) }
{
    if breaks(outcome) {
        return out.write_and_flush("\r\n");
    }
    Ok(())
}

/// Adds a line to the history, if the settings say so.
fn remember(
    alloc: Global,
    history: &mut FileHistory,
    text: &str,
    adds: bool,
) -> Result<(), ReadlineError>
    ensures added { OnOk result (history.new ≡ history_with_if adds (text.now ∷ []) history.old) }
    ensures kept { OnErr result (history.new ≡ history.old) }
    ensures fault { IfErr result
        (λ e. (e ≡ Memory) × IsTrue (adds && takes history.old text.now)) }
{
    if adds {
        history.add(alloc, text)?;
    }
    Ok(())
}

/// Draws the end of a line, and adds an accepted line to the history, if the settings say so.
pub fn end_line<D: Sink + Drop>(
    alloc: Global,
    outcome: &Result<String, ReadlineError>,
    adds: bool,
    out: &mut ScreenRenderer<D>,
    history: &mut FileHistory,
) -> Result<(), ReadlineError>
    ensures ends { DrawsEnd D.held D.has_failed adds (answer_map string_bytes outcome.now)
        (sink_of out.old) (sink_of out.new) history.old history.new result }
    ensures screen { screen_of out.new ≡ screen_of out.old }
    ensures passes { NothingWaits D.waits D.has_failed (sink_of out.old)
        → NothingWaits D.waits D.has_failed (sink_of out.new) }
{
    break_row(outcome, out)?;
    match outcome {
        Ok(text) => remember(alloc, history, text.as_str(), adds),
        Err(_) => Ok(()),
    }
}

/// Draws the end of a line. An accepted line is added to the history and written.
fn close<D: Sink + Drop, L: Sink>(
    alloc: Global,
    outcome: Result<String, ReadlineError>,
    adds: bool,
    out: &mut ScreenRenderer<D>,
    history: &mut FileHistory,
    lines: &mut L,
) -> Result<String, ReadlineError>
    ensures closes { Closes D.held D.has_failed L.held L.has_failed adds
        (answer_map string_bytes outcome)
        (work (sink_of out.old) lines.old history.old)
        (work (sink_of out.new) lines.new history.new) (answer_map string_bytes result) }
    ensures kept { history.new ≡ history_ended adds (answer_map string_bytes outcome)
        (answer_map string_bytes result) history.old }
    ensures screen { screen_of out.new ≡ screen_of out.old }
    ensures passes { NothingWaits D.waits D.has_failed (sink_of out.old)
        → NothingWaits D.waits D.has_failed (sink_of out.new) }
    ensures passes_lines { NothingWaits L.waits L.has_failed lines.old
        → NothingWaits L.waits L.has_failed lines.new }
{
    end_line(alloc, &outcome, adds, out, history)?;
    match outcome {
        Ok(text) => hand_out(lines, text),
        Err(why) => Err(why),
    }
}

/// Whether an accepted line is to become an entry of the history.
fn is_added(adds: bool, history: &FileHistory, outcome: &Result<String, ReadlineError>) -> bool
    ensures { result ≡ is_added adds history.now (answer_map string_bytes outcome.now) }
{
    match outcome {
        Ok(text) => adds && history.takes(text.as_str()),
        Err(_) => false,
    }
}

/// Whether the history has an accepted line after this result of its end.
fn is_ended(closed: &Result<String, ReadlineError>) -> bool
    ensures { result ≡ is_ended (answer_map string_bytes closed.now) }
{
    !matches!(closed, Err(ReadlineError::Display | ReadlineError::Memory))
}

/// The state that is passed from line to line, with the devices. The display, which each line takes
/// out, is in a box.
#[derive(Drop)]
pub struct Desk<S: Source, H, D: Sink, L: Sink> {
    /// Reads keys from the source, and stores what was read ahead.
    pub(crate) reader: KeyReader<S>,
    /// Draws on the display.
    pub(crate) out: Held<ScreenRenderer<Boxed<D>>>,
    pub(crate) helper: Option<H>,
    pub(crate) history: FileHistory,
    pub(crate) ring: KillRing,
    /// The text of the last search.
    pub(crate) last_query: String,
    /// The sink of accepted lines.
    pub(crate) lines: L,
    /// Whether the last line became an entry of the history.
    pub(crate) added: bool,
}

impl<S: Source + Drop, H: Helper + Drop, D: Sink + Drop, L: Sink + Drop> Desk<S, H, D, L> {
    ghost use Rattle.line_keys.specs.CustomBindings.{custom_of};
    ghost use Rattle.line_editor.specs.LineRun.{helper_from_hooks};
    ghost use Rattle.keyline.specs.Desks.{TakesLine};
    ghost use Rattle.keyline.specs.Keeping.{AddsEntry};
    ghost use Rattle.keyline.specs.SessionEffects.{devices_by};

    /// Reads a line and draws it. An accepted line is added to the history and written.
    pub(crate) fn one_line<B: Decides>(
        &mut self,
        alloc: Global,
        config: &Config,
        bindings: &EventMap<B>,
        prompt: &str,
    ) -> Result<String, ReadlineError>
        ensures added { AddsEntry self.new.added self.old.history self.new.history }
        ensures takes { let custom = custom_of bindings.now B.decides in
            let helps = helper_from_hooks H.hint_of H.verdict_of H.completion_of H.update_of
            H.marks in
            let given = given_of config.now custom prompt.now in
            let known = devices_by S.feed D.held D.waits D.has_failed L.held L.waits L.has_failed in
            TakesLine known (given (screen_of self.old.out) (helps self.old.helper))
            (given (screen_of self.new.out) (helps self.new.helper))
            self.old self.new (answer_map string_bytes result) }
    {
        let slot = &mut self.out.value;
        let Some(out) = slot.take() else {
            unreachable!();
        };
        let Ran {
            mut out,
            helper,
            outcome,
            ..
        } = run(
            alloc,
            &mut self.reader,
            out,
            prompt,
            self.helper.take(),
            &self.history,
            config,
            bindings,
            &mut self.ring,
            &mut self.last_query,
        );
        let adds = config.auto_add_history();
        let added = is_added(adds, &self.history, &outcome);
        let (history, lines) = (&mut self.history, &mut self.lines);
        let outcome = close(alloc, outcome, adds, &mut out, history, lines);
        self.added = added && is_ended(&outcome);
        *slot = Some(out);
        self.helper = helper;
        outcome
    }
}
