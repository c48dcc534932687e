//! A session with the program's options.

ghost use Rattle.std.specs.Prelude.{◌≡◌, ◌≤◌, IfErr, IfOk, OnErr, [], false, if◌then◌else◌, true, unwrap_or};
ghost use Rattle.line_config.specs.Adapters.{reader_of, writer_of};
ghost use Rattle.keyline.specs.SessionEffects.{devices_by};
ghost use Rattle.keyline.specs.Program.{EditsBy, PlaysOver, UnopensOver, IsByEnvironment, config_of, has_text, helper_of, helper_with, invoked_config, profile_of, sized_by, config_without_colours, word_texts};
ghost use Rattle.keyline.specs.SessionCalls.{Unopens, history_loaded_from};
ghost use Rattle.keyline.specs.Keeping.{KeepsRows};
ghost use Rattle.line_config.specs.Feed.{AlwaysTold, fresh_feed};
ghost use Rattle.line_config.specs.declared.device.Last.TheVariants.{End};

use crate::boxed::{Boxed, Devices};
use crate::edit_helper::EditHelper;
use crate::invocation::Invocation;
use crate::options::Options;
use crate::session::{Ended, Session, Unopened};
use line_config::{
    ClosedSink, CompletionType, Config, Configurer, Foretold, ReadSource, ReadlineError, Sink,
    SliceSource, Source, VecSink, WriteSink,
};
use line_help::{
    HelperParts, MatchingBracketValidator, PromptHighlighter, Span, StandardHighlighter,
    WordCompleter,
};
use line_keys::Bindings;
use std::alloc::Global;
use std::env::{Env, FillError};
use std::io::{Read, Write};

/// The settings for the options: each accepted line is added to the history, which keeps as many as
/// they say.
pub fn config_of(options: &Options) -> Config
    ensures { result ≡ config_of options.now }
{
    let config = Config::builder()
        .edit_mode(options.mode)
        .auto_add_history(true)
        .build();
    sized_by(config, options.history_size)
}

/// The same settings with a history of so many entries, if they are given.
fn sized_by(config: Config, size: Option<usize>) -> Config
    ensures { result ≡ sized_by size config }
{
    let mut config = config;
    if let Some(size) = size {
        let _ = config.set_max_history_size(size);
    }
    config
}

/// The most entries of a history with what is off by default, if no number is given.
const HISTORY_SIZE: usize = 100_000;

/// The settings for an invocation.
pub fn invoked_config(invocation: &Invocation) -> Config
    ensures { result ≡ invoked_config invocation.now }
{
    let options = &invocation.options;
    let config = with_profile(config_of(options), invocation.extended);
    sized_by(config, options.history_size)
}

/// The same settings, and with `extended` what is off by default: the commands that go on over
/// several keys, colours, tabs drawn as blanks, and drawings in part.
pub(crate) fn with_profile(config: Config, extended: bool) -> Config
    ensures { result ≡ profile_of extended config }
{
    let mut config = config;
    if extended {
        let _ = config.set_max_history_size(HISTORY_SIZE);
    }
    config.set_modal_commands(extended);
    config.set_draw_colours(extended);
    config.set_draw_tabs(extended);
    config.set_partial_redraw(extended);
    config.set_completion_type(if extended {
        CompletionType::List
    } else {
        CompletionType::Circular
    });
    config
}

/// The same settings, but without colours if the environment variable `NO_COLOR` is set and isn't
/// empty.
pub fn by_environment(rt: &HostRuntime, config: Config) -> Config
    ensures { IsByEnvironment config result }
{
    coloured_by(config, rt.var("NO_COLOR", &mut [0u8; 1]))
}

/// The same settings, but without colours if this is the length of a text.
fn coloured_by(config: Config, len: Result<usize, FillError>) -> Config
    ensures { result ≡ if has_text len then config_without_colours config else config }
{
    let mut config = config;
    if matches!(len, Ok(1..) | Err(FillError::TooLong)) {
        config.set_draw_colours(false);
    }
    config
}

/// The helper: it completes these words, validates brackets if the options say so, and has the
/// styles of a display with colours, also the prompt's. None if there are no words, no brackets and
/// no colours.
pub fn helper_of<'s>(
    config: &Config,
    options: &'s Options,
    words: Option<Vec<String>>,
) -> Option<EditHelper<'s>>
    ensures { result ≡ helper_of config.now options.entry.now (word_texts words) }
{
    if !options.brackets && words.is_none() && !config.draw_colours() {
        return None;
    }
    let styles = options.prompt_styles.as_slice();
    Some(helper_with(words, styles, options.brackets))
}

/// A helper that completes these words if there are any, has these styles of the prompt, and
/// validates brackets if requested.
pub(crate) fn helper_with<'s>(
    words: Option<Vec<String>>,
    styles: &'s [Span],
    brackets: bool,
) -> EditHelper<'s>
    ensures { result ≡ helper_with (word_texts words) styles.entry.now brackets }
{
    let validator = if brackets {
        Some(MatchingBracketValidator::new())
    } else {
        None
    };
    HelperParts {
        completer: words.map(WordCompleter::new),
        hinter: (),
        highlighter: PromptHighlighter::new(styles, StandardHighlighter::new()),
        validator,
    }
}

/// Opens a session with options and runs it. The words, if given, complete the word before the
/// cursor. The history's text is loaded from `history`, and saved to `text` if an entry is new. An
/// error means that the session was not opened.
pub fn edit<F: Source + Drop, S: Source + Drop, D: Sink + Drop, L: Sink + Drop, T: Sink + Drop>(
    alloc: Global,
    options: &Options,
    words: Option<Vec<String>>,
    history: F,
    source: S,
    display: D,
    lines: L,
    text: T,
) -> Result<Ended<S, D, L, T>, Unopened<F, S, D, L, T>>
    requires columns { (2 ≤ options.now.columns) × (options.now.columns ≤ 1000) }
    requires history { (F.feed history).failed ≡ false }
    requires source { (S.feed source).failed ≡ false }
    requires display { D.has_failed display ≡ false }
    requires lines { L.has_failed lines ≡ false }
    requires text { T.has_failed text ≡ false }
    ensures edits { IfOk result (EditsBy F.feed
        (devices_by S.feed D.held D.waits D.has_failed L.held L.waits L.has_failed) T.held
        T.has_failed
        true (config_of options.now) options.now (word_texts words) history source display lines
        text) }
    ensures refused { IfErr result (Unopens F.feed (config_of options.now) history source display
        lines text) }
{
    edit_with(
        alloc,
        true,
        config_of(options),
        options,
        words,
        history,
        source,
        display,
        lines,
        text,
        &mut ClosedSink,
    )
}

/// The same with other settings, such as those of [`invoked_config`]. The history is saved only if
/// that is asked for, and the row of each new entry is handed to a sink before the next line is
/// read, as `Session::run_keeping` says.
pub fn edit_with<
    F: Source + Drop,
    S: Source + Drop,
    D: Sink + Drop,
    L: Sink + Drop,
    T: Sink + Drop,
    K: Sink,
>(
    alloc: Global,
    saves: bool,
    config: Config,
    options: &Options,
    words: Option<Vec<String>>,
    history: F,
    source: S,
    display: D,
    lines: L,
    text: T,
    keeper: &mut K,
) -> Result<Ended<S, D, L, T>, Unopened<F, S, D, L, T>>
    requires columns { (2 ≤ options.now.columns) × (options.now.columns ≤ 1000) }
    requires history { (F.feed history).failed ≡ false }
    requires source { (S.feed source).failed ≡ false }
    requires display { D.has_failed display ≡ false }
    requires lines { L.has_failed lines ≡ false }
    requires text { T.has_failed text ≡ false }
    ensures edits { IfOk result (EditsBy F.feed
        (devices_by S.feed D.held D.waits D.has_failed L.held L.waits L.has_failed) T.held
        T.has_failed
        saves config options.now (word_texts words) history source display lines text) }
    ensures kept { IfOk result (λ ended. AlwaysTold F.feed → KeepsRows K.held K.has_failed
        (history_loaded_from config (F.feed history)) ended.history keeper.old keeper.new) }
    ensures refused { IfErr result (Unopens F.feed config history source display lines text) }
    ensures unused { OnErr result (keeper.new ≡ keeper.old) }
{
    let helper = helper_of(&config, options, words);
    let session = match Session::open(
        alloc,
        config,
        Bindings::new(alloc).unwrap(),
        history,
        helper,
        options.prompt.as_str(),
        source,
        options.columns,
        display,
        lines,
        text,
    ) {
        Ok(session) => session,
        Err(unopened) => return Err(unopened),
    };
    Ok(session.run_to_end(saves, keeper))
}

/// The same over any reader of keys and any writers, which are flushed at the end, and with a
/// history's text in memory, before and after.
///
/// `K` says which bytes the reader, as it is passed in, is assumed to give. If what its reads gave
/// agrees with them, the session is that of these bytes, and the writers got its display bytes and
/// its lines. The devices are made in boxes, and return so. The history's text is made only if the
/// options name a file for it. An error means that the session was not opened: the text isn't
/// UTF-8, or memory ran out. Then reader and writers come back, and no call of them was made.
pub fn play<'a, K: Foretold<R>, R: Read + Drop, E: Write + Drop, W: Write + Drop>(
    alloc: Global,
    options: &Options,
    words: Option<Vec<String>>,
    old: &'a [u8],
    keys: R,
    display: E,
    lines: W,
) -> Result<
    Ended<Boxed<ReadSource<R, K>>, Boxed<WriteSink<E>>, Boxed<WriteSink<W>>, VecSink>,
    Unopened<SliceSource<'a>, R, E, W, VecSink>,
>
    requires { (2 ≤ options.now.columns) × (options.now.columns ≤ 1000) }
    ensures plays { let known = devices_by ⟦<ReadSource<R, K> as Source>⟧.feed
        ⟦<WriteSink<E> as Sink>⟧.held ⟦<WriteSink<E> as Sink>⟧.waits
        ⟦<WriteSink<E> as Sink>⟧.has_failed
        ⟦<WriteSink<W> as Sink>⟧.held ⟦<WriteSink<W> as Sink>⟧.waits
        ⟦<WriteSink<W> as Sink>⟧.has_failed in
        IfOk result (PlaysOver known ⟦<VecSink as Sink>⟧.held ⟦<VecSink as Sink>⟧.has_failed
        (config_of options.now) options.now (word_texts words) (unwrap_or (E.contents display) [])
        (unwrap_or (W.contents lines) []) old.entry.now (K.left keys []) K.last) }
    ensures refused { IfErr result (UnopensOver ⟦<SliceSource<'a> as Source>⟧.feed
        ⟦<VecSink as Sink>⟧.held (config_of options.now) old.entry.now keys display lines) }
{
    play_with(
        alloc,
        config_of(options),
        options,
        words,
        old,
        keys,
        display,
        lines,
        &mut ClosedSink,
    )
}

/// The same with other settings, such as those of [`invoked_config`]. The row of each new entry is
/// handed to a sink before the next line is read.
pub fn play_with<'a, K: Foretold<R>, R: Read + Drop, E: Write + Drop, W: Write + Drop, T: Sink>(
    alloc: Global,
    config: Config,
    options: &Options,
    words: Option<Vec<String>>,
    old: &'a [u8],
    keys: R,
    display: E,
    lines: W,
    keeper: &mut T,
) -> Result<
    Ended<Boxed<ReadSource<R, K>>, Boxed<WriteSink<E>>, Boxed<WriteSink<W>>, VecSink>,
    Unopened<SliceSource<'a>, R, E, W, VecSink>,
>
    requires { (2 ≤ options.now.columns) × (options.now.columns ≤ 1000) }
    ensures plays { let known = devices_by ⟦<ReadSource<R, K> as Source>⟧.feed
        ⟦<WriteSink<E> as Sink>⟧.held ⟦<WriteSink<E> as Sink>⟧.waits
        ⟦<WriteSink<E> as Sink>⟧.has_failed
        ⟦<WriteSink<W> as Sink>⟧.held ⟦<WriteSink<W> as Sink>⟧.waits
        ⟦<WriteSink<W> as Sink>⟧.has_failed in
        IfOk result (PlaysOver known ⟦<VecSink as Sink>⟧.held ⟦<VecSink as Sink>⟧.has_failed
        config options.now (word_texts words) (unwrap_or (E.contents display) [])
        (unwrap_or (W.contents lines) []) old.entry.now (K.left keys []) K.last) }
    ensures kept { IfOk result (λ ended. KeepsRows T.held T.has_failed
        (history_loaded_from config (fresh_feed old.entry.now End)) ended.history
        keeper.old keeper.new) }
    ensures refused { IfErr result (UnopensOver ⟦<SliceSource<'a> as Source>⟧.feed
        ⟦<VecSink as Sink>⟧.held config old.entry.now keys display lines) }
    ensures unused { OnErr result (keeper.new ≡ keeper.old) }
{
    let Devices {
        source,
        display,
        lines,
    } = match Devices::over(alloc, keys, display, lines) {
        Ok(devices) => devices,
        Err((keys, display, lines)) => return Err(Unopened::new(
            ReadlineError::Memory,
            SliceSource::new(old),
            keys,
            display,
            lines,
            VecSink::new(alloc),
        )),
    };
    let mut played = match edit_with::<_, Boxed<ReadSource<R, K>>, _, _, _, _>(
        alloc,
        options.history.is_some(),
        config,
        options,
        words,
        SliceSource::new(old),
        source,
        display,
        lines,
        VecSink::new(alloc),
        keeper,
    ) {
        Ok(played) => played,
        Err(unopened) => return Err(handed_back(unopened)),
    };
    let _ = played.display.flush();
    let _ = played.lines.flush();
    Ok(played)
}

/// The same with the reader and the writers in place of the devices.
fn handed_back<F: Drop, K: Foretold<R>, R: Read + Drop, E: Write + Drop, W: Write + Drop, T: Drop>(
    unopened: Unopened<F, Boxed<ReadSource<R, K>>, Boxed<WriteSink<E>>, Boxed<WriteSink<W>>, T>,
) -> Unopened<F, R, E, W, T>
    ensures { result ≡ record {
      why = unopened.why;
      history = unopened.history;
      source = reader_of unopened.source;
      display = writer_of unopened.display;
      lines = writer_of unopened.lines;
      text = unopened.text;
    } }
{
    Unopened {
        why: unopened.why,
        history: unopened.history,
        source: unopened.source.into_reader(),
        display: unopened.display.into_writer(),
        lines: unopened.lines.into_writer(),
        text: unopened.text,
    }
}
