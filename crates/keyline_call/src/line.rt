//! Reads a line from memory.

ghost use Rattle.std.specs.Prelude.{[], ◌≡◌, ◌≤◌, MatchResult, length, true};
ghost use Rattle.line_config.specs.Feed.{fresh_feed};
ghost use Rattle.line_screen.specs.Reader.{bytes_left_in};
ghost use Rattle.keyline.specs.Program.{given_with, word_texts};
ghost use Rattle.keyline.specs.Sessions.{coming_from, state_at};
ghost use Rattle.keyline_call.specs.Asks.{custom_by_asking};
ghost use Rattle.keyline_call.specs.Lines.{IsWant, ReadsLine, last_of};

use crate::asking::Asking;
use keyline::{
    Config, FileHistory, Options, ReadlineError, Sink, SliceSource, Source, VecSink, end_line,
    helper_of, renderer_over,
};
use line_buffer::LineBuffer;
use line_editor::{Ran, run};
use line_keys::EventMap;
use line_record::KillRing;
use line_screen::KeyReader;
use std::alloc::Global;

/// The result of a line.
#[derive(Drop)]
pub(crate) struct Left {
    pub(crate) outcome: Result<String, ReadlineError>,
    /// A line that wasn't accepted, as it stands.
    pub(crate) open_line: Option<LineBuffer>,
    /// The display bytes.
    pub(crate) display: VecSink,
    pub(crate) history: FileHistory,
    pub(crate) ring: KillRing,
    /// The number of key bytes after the line.
    pub(crate) rest: usize,
}

/// The keys, and after them the end, or a failure if more keys may follow.
fn source_of<'k>(keys: &'k [u8], ended: bool) -> SliceSource<'k>
    ensures { ⟦<SliceSource<'k> as Source>⟧.feed result
        ≡ fresh_feed keys.entry.now (last_of ended) }
{
    if ended {
        SliceSource::new(keys)
    } else {
        SliceSource::failing_after(keys)
    }
}

/// The number of bytes that a reader has left: those of its source, and the one read ahead.
fn count_rest<'k>(reader: KeyReader<SliceSource<'k>>) -> usize
    ensures { result ≡ length (bytes_left_in ⟦<SliceSource<'k> as Source>⟧.feed reader.entry) }
{
    let (source, ahead) = reader.into_parts();
    let rest = source.buffer().len();
    match ahead {
        Some(_) => rest + 1,
        None => rest,
    }
}

/// Reads a line, draws it, and adds it to the history if it is accepted. Fails if memory runs out
/// at its end.
pub(crate) fn read_line<'k>(
    alloc: Global,
    config: &Config,
    options: &Options,
    words: Option<Vec<String>>,
    bindings: &EventMap<Asking>,
    history: FileHistory,
    ring: KillRing,
    keys: &'k [u8],
    ended: bool,
) -> Result<Left, ReadlineError>
    requires columns { (2 ≤ options.now.columns) × (options.now.columns ≤ 1000) }
    requires adds { config.now.auto_add_history ≡ true }
    ensures { let given = given_with config.now (custom_by_asking bindings.now) options.now
        (word_texts words) in
        let state = state_at ring [] history
        (coming_from options.now.mode keys.entry.now (last_of ended)) in
        MatchResult result (ReadsLine ⟦<VecSink as Sink>⟧.held given state
        (length keys.entry.now)) IsWant }
{
    let mut history = history;
    let mut ring = ring;
    let mut last_query = String::new(alloc);
    let mut reader = KeyReader::new(source_of(keys, ended), options.mode);
    let out = renderer_over(config, options.columns, VecSink::new(alloc));
    let helper = helper_of(config, options, words);
    let prompt = options.prompt.as_str();
    let Ran {
        mut out,
        outcome,
        open_line,
        ..
    } = run(
        alloc,
        &mut reader,
        out,
        prompt,
        helper,
        &history,
        config,
        bindings,
        &mut ring,
        &mut last_query,
    );
    end_line(alloc, &outcome, true, &mut out, &mut history)?;
    Ok(Left {
        outcome,
        open_line,
        display: out.into_sink(),
        history,
        ring,
        rest: count_rest(reader),
    })
}
