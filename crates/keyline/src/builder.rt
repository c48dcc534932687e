//! Builds a session from its requested parts, with the program's defaults for the rest.

ghost use Rattle.std.specs.Prelude.{◌≡◌, ◌≤◌, ◌⊎◌, ℕ, IfErr, IfOk, Some, [], false, true};
ghost use Rattle.line_config.specs.Adapters.{IsUnread, IsUnused, gave, bytes_taken};
ghost use Rattle.keyline.specs.Options.{WritesColumns};
ghost use Rattle.keyline.specs.Program.{IsByEnvironment, profile_of, standard_config};
ghost use Rattle.keyline.specs.SessionCalls.{HasDefaults, HasGiven, builder_with, desk_of, Opens, Unopens};

use crate::editor::LineEditor;
use crate::program::{by_environment, with_profile};
use crate::session::{Session, Unopened};
use line_config::{Config, Foretold, ReadSource, Sink, SliceSource, Source, WriteSink};
use line_help::Helper;
use line_keys::{Decides, EventHandler, EventMap};
use std::alloc::Global;
use std::env;
use std::io::{self, Read, Stderr, Stdin, Write};
use std::marker::Brand;

/// The columns of a row if no other number is set.
const COLUMNS: u16 = 80;

/// The parts with which a session is opened. The defaults are the program's settings with the keys
/// of Emacs, no bindings, no helper, the prompt `> ` and rows of 80 columns. The history begins
/// empty and isn't saved, and lines are not written.
#[derive(Drop)]
pub struct SessionBuilder<'p, F, S, H, D, L, T, B: Decides = EventHandler> {
    alloc: Global,
    config: Config,
    bindings: EventMap<B>,
    history: F,
    helper: Option<H>,
    prompt: &'p str,
    source: S,
    columns: u16,
    display: D,
    lines: L,
    text: T,
}

/// A sink that discards its bytes.
pub type Nowhere = WriteSink<io::Sink>;

/// A builder with only the source of keys and the display set.
pub type DefaultBuilder<'p, S, D> = SessionBuilder<
    'p,
    SliceSource<'static>,
    S,
    (),
    D,
    Nowhere,
    Nowhere,
>;

/// Keys from standard input, of which `K` says what is assumed. They are read from `Stdin` itself:
/// its lock has a buffer of 8 KB, which a source with its own would leave empty and only move.
pub type StandardKeys<K = Brand> = ReadSource<Stdin, K>;

/// A builder over the standard streams.
pub type StandardBuilder<'p, K = Brand> = DefaultBuilder<'p, StandardKeys<K>, WriteSink<Stderr>>;

/// An editor over them with the helper `H`, whose history is saved to `T`.
pub type StandardEditor<H, T = Nowhere, K = Brand> = LineEditor<
    StandardKeys<K>,
    H,
    WriteSink<Stderr>,
    Nowhere,
    T,
>;

/// The settings: each accepted line is added to the history.
fn standard_config() -> Config
    ensures { result ≡ standard_config }
{
    Config::builder().auto_add_history(true).build()
}

/// The number of columns in a text of decimal digits, 2 to 1,000; 80 for any other text.
fn columns_by(text: &str) -> u16
    ensures { WritesColumns text.now result
        ⊎ ((result ≡ 80) × ((written : ℕ) → WritesColumns text.now written → ⊥)) }
{
    match text.parse::<u16>() {
        Ok(columns) if !text.starts_with('+') && 2 <= columns && columns <= 1000 => columns,
        _ => COLUMNS,
    }
}

/// The number of columns in the environment variable `COLUMNS`; 80 if it has none or is not set.
fn environment_columns(rt: &HostRuntime) -> u16
    ensures { (2 ≤ result) × (result ≤ 1000) }
{
    match env::var(rt, "COLUMNS") {
        Ok(text) => columns_by(text.as_str()),
        Err(_) => COLUMNS,
    }
}

/// A builder over this source of keys and this display.
pub fn session_builder<'p, S: Source + Drop, D: Sink + Drop>(
    alloc: Global,
    source: S,
    display: D,
) -> DefaultBuilder<'p, S, D>
    ensures defaults { HasDefaults ⟦<SliceSource<'static> as Source>⟧.feed
        ⟦<Nowhere as Sink>⟧.has_failed ⟦<Nowhere as Sink>⟧.has_failed standard_config result }
    ensures columns { result.columns ≡ 80 }
    ensures devices { (result.source ≡ source) × (result.display ≡ display) }
{
    SessionBuilder {
        alloc,
        config: standard_config(),
        bindings: EventMap::new(alloc).unwrap(),
        history: SliceSource::new(b""),
        helper: None,
        prompt: "> ",
        source,
        columns: COLUMNS,
        display,
        lines: WriteSink::new(io::sink()),
        text: WriteSink::new(io::sink()),
    }
}

/// A builder over any reader of keys, of which `K` says what is assumed, and any writer for the
/// display. It makes no call of them.
pub fn builder_over<'p, K: Foretold<R>, R: Read + Drop, E: Write + Drop>(
    alloc: Global,
    keys: R,
    display: E,
) -> DefaultBuilder<'p, ReadSource<R, K>, WriteSink<E>>
    ensures defaults { HasDefaults ⟦<SliceSource<'static> as Source>⟧.feed
        ⟦<Nowhere as Sink>⟧.has_failed ⟦<Nowhere as Sink>⟧.has_failed standard_config result }
    ensures columns { result.columns ≡ 80 }
    ensures keys { IsUnread keys result.source }
    ensures display { IsUnused E.contents display result.display }
    ensures source_works { (⟦<ReadSource<R, K> as Source>⟧.feed result.source).failed ≡ false }
    ensures display_works { ⟦<WriteSink<E> as Sink>⟧.has_failed result.display ≡ false }
{
    session_builder(alloc, ReadSource::foretold(keys), WriteSink::new(display))
}

/// Keys from standard input, and the display on standard error, with the columns of the window.
/// These are the number in the environment variable `COLUMNS`, in decimal digits, 2 to 1,000; 80 if
/// it is not set or is anything else.
///
/// Its settings turn on what is off by default: the commands that go on over several
/// keys, such as the search through the history, tabs drawn as blanks, and the styles of the
/// helper. There are no styles if the environment variable `NO_COLOR` is set and isn't empty.
///
/// `K` says what is assumed of standard input. A program that does without a proof of its own takes
/// the default of `StandardEditor`.
pub fn standard_builder<'p, K: Foretold<Stdin>>(rt: &HostRuntime) -> StandardBuilder<'p, K>
    ensures defaults { HasDefaults ⟦<SliceSource<'static> as Source>⟧.feed
        ⟦<Nowhere as Sink>⟧.has_failed ⟦<Nowhere as Sink>⟧.has_failed result.config result }
    ensures settings { IsByEnvironment (profile_of true standard_config) result.config }
    ensures columns { (2 ≤ result.columns) × (result.columns ≤ 1000) }
    ensures nothing_read { gave result.source ≡ [] }
    ensures nothing_written { bytes_taken result.display ≡ [] }
    ensures keys { (⟦<StandardKeys<K> as Source>⟧.feed result.source).failed ≡ false }
    ensures display { ⟦<WriteSink<Stderr> as Sink>⟧.has_failed result.display ≡ false }
{
    builder_over(rt.alloc(), rt.stdin(), rt.stderr())
        .columns(environment_columns(rt))
        .config(by_environment(rt, with_profile(standard_config(), true)))
}

impl<'p, F, S, H, D, L, T, B: Decides> SessionBuilder<'p, F, S, H, D, L, T, B>
where
    F: Source + Drop,
    S: Source + Drop,
    H: Drop,
    D: Sink + Drop,
    L: Sink + Drop,
    T: Sink + Drop,
{
    /// Sets the settings.
    pub fn config(self, config: Config) -> Self
        ensures { result ≡ record self.entry { config = config } }
    {
        SessionBuilder { config, ..self }
    }

    /// Sets the prompt of each line of `Session::run`; `Session::read_line` takes its own.
    pub fn prompt(self, prompt: &'p str) -> Self
        ensures { result ≡ record self.entry { prompt = prompt.entry } }
    {
        SessionBuilder { prompt, ..self }
    }

    /// Sets the number of columns of a row, 2 to 1,000.
    pub fn columns(self, columns: u16) -> Self
        ensures { result ≡ record self.entry { columns = columns } }
    {
        SessionBuilder { columns, ..self }
    }

    /// Sets the bindings of keys, besides the tables.
    pub fn bindings<C: Decides>(
        self,
        bindings: EventMap<C>,
    ) -> SessionBuilder<'p, F, S, H, D, L, T, C>
        ensures { let b = self.entry in
            result ≡ builder_with b b.history b.helper bindings b.lines b.text }
    {
        SessionBuilder {
            alloc: self.alloc,
            config: self.config,
            bindings,
            history: self.history,
            helper: self.helper,
            prompt: self.prompt,
            source: self.source,
            columns: self.columns,
            display: self.display,
            lines: self.lines,
            text: self.text,
        }
    }

    /// Sets the helper.
    pub fn helper<G: Helper + Drop>(self, helper: G) -> SessionBuilder<'p, F, S, G, D, L, T, B>
        ensures { let b = self.entry in
            result ≡ builder_with b b.history (Some helper) b.bindings b.lines b.text }
    {
        SessionBuilder {
            alloc: self.alloc,
            config: self.config,
            bindings: self.bindings,
            history: self.history,
            helper: Some(helper),
            prompt: self.prompt,
            source: self.source,
            columns: self.columns,
            display: self.display,
            lines: self.lines,
            text: self.text,
        }
    }

    /// Sets the sink of accepted lines.
    pub fn lines<M: Sink + Drop>(self, lines: M) -> SessionBuilder<'p, F, S, H, D, M, T, B>
        ensures { let b = self.entry in
            result ≡ builder_with b b.history b.helper b.bindings lines b.text }
    {
        SessionBuilder {
            alloc: self.alloc,
            config: self.config,
            bindings: self.bindings,
            history: self.history,
            helper: self.helper,
            prompt: self.prompt,
            source: self.source,
            columns: self.columns,
            display: self.display,
            lines,
            text: self.text,
        }
    }

    /// Sets the source from which the history's text is loaded, and the sink to which it is saved
    /// if an entry is new.
    pub fn history<G: Source + Drop, U: Sink + Drop>(
        self,
        history: G,
        text: U,
    ) -> SessionBuilder<'p, G, S, H, D, L, U, B>
        ensures { let b = self.entry in
            result ≡ builder_with b history b.helper b.bindings b.lines text }
    {
        SessionBuilder {
            alloc: self.alloc,
            config: self.config,
            bindings: self.bindings,
            history,
            helper: self.helper,
            prompt: self.prompt,
            source: self.source,
            columns: self.columns,
            display: self.display,
            lines: self.lines,
            text,
        }
    }

    /// Opens the session, as `Session::open` does.
    pub fn open(self) -> Result<Session<S, H, D, L, T, B>, Unopened<F, S, D, L, T>>
    where
        H: Helper,
        requires columns { (2 ≤ self.columns) × (self.columns ≤ 1000) }
        requires history { (F.feed self.history).failed ≡ false }
        requires source { (S.feed self.source).failed ≡ false }
        requires display { D.has_failed self.display ≡ false }
        requires lines { L.has_failed self.lines ≡ false }
        requires text { T.has_failed self.text ≡ false }
        ensures desk { let b = self.entry in
            IfOk result (λ s. Opens F.feed S.feed b.config b.history b.helper b.source b.columns
            b.display b.lines (desk_of s)) }
        ensures given { let b = self.entry in
            IfOk result (HasGiven b.config b.bindings b.prompt.now b.text) }
        ensures refused { let b = self.entry in
            IfErr result (Unopens F.feed b.config b.history b.source b.display b.lines b.text) }
    {
        let SessionBuilder {
            alloc,
            config,
            bindings,
            history,
            helper,
            prompt,
            source,
            columns,
            display,
            lines,
            text,
        } = self;
        Session::open(
            alloc, config, bindings, history, helper, prompt, source, columns, display, lines, text,
        )
    }
}
