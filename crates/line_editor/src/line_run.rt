//! A whole line.
ghost use Rattle.std.specs.Prelude.{◌≡◌, Ok, Err, None, string_bytes};
ghost use Rattle.std.specs.Result.{result_and};
ghost use Rattle.line_config.specs.declared.errors.ReadlineError.TheVariants.{Memory};
ghost use Rattle.line_keys.specs.CustomBindings.{custom_of};
ghost use Rattle.line_editor.specs.LineRun.{Runs, helper_from_hooks, open_or, outcome_of};

use crate::modal_state::ModalState;
use crate::renderer::Renderer;
use crate::starting::empty_line;
use crate::state::State;
use line_buffer::LineBuffer;
use line_config::{Config, ReadlineError};
use line_edits::RecordedLine;
use line_help::{Context, Helper, History};
use line_keys::{Decides, EventMap, InputState, RawReader};
use line_record::KillRing;
use std::alloc::Global;
use std::mem;

/// What remains after a line: the renderer and the helper passed in, and the line's text or why
/// there is none.
#[derive(Drop)]
pub struct Ran<Out: Renderer, H: Helper + Drop> {
    pub out: Out,
    pub helper: Option<H>,
    pub outcome: Result<String, ReadlineError>,
    /// A line that wasn't accepted, as it stands. There is none if no memory was available for it.
    pub open_line: Option<LineBuffer>,
}

impl<Out: Renderer, H: Helper + Drop> Ran<Out, H> {
    /// No memory was available for a line.
    fn unread(out: Out, helper: Option<H>) -> Self
        ensures { result ≡ record {
          out = out;
          helper = helper;
          outcome = Err Memory;
          open_line = None;
        } }
    {
        Ran {
            out,
            helper,
            outcome: Err(ReadlineError::Memory),
            open_line: None,
        }
    }
}

impl<'p, 'h, Out: Renderer, H: Helper + Drop, Hi: History> State<'p, 'h, Out, H, Hi> {
    /// What remains after the line was read.
    fn ran(self, read: Result<(), ReadlineError>) -> Ran<Out, H>
        ensures out { result.out ≡ self.entry.out }
        ensures helper { result.helper ≡ self.entry.helper }
        ensures outcome { outcome_of result ≡ result_and read (Ok self.entry.recorded.line.text) }
        ensures line { result.open_line ≡ open_or read self.entry.recorded.line }
    {
        let State {
            out,
            helper,
            recorded,
            ..
        } = self;
        let RecordedLine { line, .. } = recorded;
        match read {
            Ok(()) => Ran {
                out,
                helper,
                outcome: Ok(line.into_string()),
                open_line: None,
            },
            Err(e) => Ran {
                out,
                helper,
                outcome: Err(e),
                open_line: Some(line),
            },
        }
    }
}

/// Reads a line. Its keys come from `reader`, and it is drawn on `out`, from the cursor's row on.
///
/// The renderer and the helper are returned in every case. The reader, the kill ring
/// and the last query of a search can be used for the next line.
pub fn run<R: RawReader, Out: Renderer, H: Helper + Drop, Hi: History, D: Decides>(
    alloc: Global,
    reader: &mut R,
    out: Out,
    prompt: &str,
    helper: Option<H>,
    history: &Hi,
    config: &Config,
    bindings: &EventMap<D>,
    kill_ring: &mut KillRing,
    last_query: &mut String,
) -> Ran<Out, H>
    ensures { let helps = helper_from_hooks H.hint_of H.verdict_of H.completion_of H.update_of
        H.marks in
        Runs Out.canvas helps (custom_of bindings.now D.decides) prompt.now helper
        (Hi.entries history.now) config.now out kill_ring.old (string_bytes last_query.old)
        (R.feed reader.old) result kill_ring.new (string_bytes last_query.new)
        (R.feed reader.new) }
{
    let Ok(recorded) = empty_line(alloc) else {
        return Ran::unread(out, helper);
    };
    let Ok(mut input_state) = InputState::new(alloc, config, bindings) else {
        return Ran::unread(out, helper);
    };
    let ctx = Context::new(history);
    let mut state = State::of_parts(alloc, recorded, out, prompt, helper, ctx, config);
    let query = mem::replace(last_query, String::new(alloc));
    let mut modal = ModalState::new(config, query);
    let read = state.read_line(&mut input_state, reader, kill_ring, &mut modal);
    *last_query = modal.query;
    state.ran(read)
}
