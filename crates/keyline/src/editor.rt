//! A session that an error ends for good.

ghost use Rattle.std.specs.Prelude.{◌≡◌, IfErr, IfOk, None, OnErr, OnOk, string_bytes, true};
ghost use Rattle.std.specs.Option.{option_map_or};
ghost use Rattle.line_config.specs.declared.errors.ReadlineError.TheVariants.{Eof, Memory};
ghost use Rattle.line_keys.specs.KeyFeeds.{answer_map};
ghost use Rattle.line_editor.specs.LineRun.{helper_from_hooks};
ghost use Rattle.keyline.specs.SessionEffects.{devices_by, reason_to_end};
ghost use Rattle.keyline.specs.SessionCalls.{Finishes};

use crate::session::{Ended, Session};
use line_config::{ReadlineError, Sink, Source};
use line_help::Helper;
use line_keys::{Decides, EventHandler};

/// Returns the lines of a session, one at each call, until an error ends it.
#[derive(Drop)]
pub struct LineEditor<S: Source, H, D: Sink, L: Sink, T: Sink, B: Decides = EventHandler> {
    /// The session. Its own `read_line` reads on after every error.
    pub session: Session<S, H, D, L, T, B>,
    // Why there is no further line.
    ended: Option<ReadlineError>,
}

/// Why there is no line after this answer, if there is none.
fn ended_by(line: &Result<String, ReadlineError>) -> Option<ReadlineError>
    ensures { result ≡ reason_to_end (answer_map string_bytes line.now) }
{
    match line {
        Ok(_) | Err(ReadlineError::Interrupted) => None,
        Err(why) => Some(*why),
    }
}

impl<S: Source, H: Helper, D: Sink, L: Sink, T: Sink, B: Decides> LineEditor<S, H, D, L, T, B>
where
    S: Drop,
    H: Drop,
    D: Drop,
    L: Drop,
    T: Drop,
{
    ghost use Rattle.keyline.specs.SessionCalls.{EditorReads, desk_of, ending_in, given_in, history_of, text_sink, with_saved};
    ghost use Rattle.line_help.specs.HistoryText.{text_to_append};

    /// The lines of this session.
    pub fn new(session: Session<S, H, D, L, T, B>) -> Self
        ensures session { result.session ≡ session }
        ensures ended { ending_in result ≡ None }
    {
        LineEditor {
            session,
            ended: None,
        }
    }

    /// Reads the next line, drawn after this prompt, like `Session::read_line`. After
    /// `Interrupted`, which Ctrl-C gives, the next call begins a new line. Every other error ends
    /// the editor: from then on it returns that error again and doesn't use its devices.
    pub fn read_line(&mut self, prompt: &str) -> Result<String, ReadlineError>
        ensures { let helps =
            helper_from_hooks H.hint_of H.verdict_of H.completion_of H.update_of H.marks in
            let known = devices_by S.feed D.held D.waits D.has_failed L.held L.waits L.has_failed in
            EditorReads known (given_in B.decides helps prompt.now) self.old self.new
            (answer_map string_bytes result) }
    {
        if let Some(why) = self.ended {
            return Err(why);
        }
        let line = self.session.read_line(prompt);
        self.ended = ended_by(&line);
        line
    }

    /// The rows of the new entries, like `Session::take_new_rows`.
    pub fn take_new_rows(&mut self) -> Result<Vec<u8>, ReadlineError>
        ensures rows { IfOk result
            (λ rows. rows.items ≡ text_to_append (history_of self.old.session)) }
        ensures taken { OnOk result
            (self.new ≡ record self.old { session = with_saved self.old.session }) }
        ensures kept { OnErr result (self.new ≡ self.old) }
        ensures fault { IfErr result (λ e. e ≡ Memory) }
    {
        self.session.take_new_rows()
    }

    /// Ends the session, for the reason that ended the editor, or as at the end of input. Saves the
    /// history if an entry is new, and returns the devices.
    pub fn finish(self) -> Ended<S, D, L, T>
        ensures { let why = option_map_or (λ e. e) (ending_in self) Eof in
            Finishes S.feed T.held T.has_failed true (desk_of self.session)
            (text_sink self.session) why result }
    {
        let LineEditor { session, ended } = self;
        session.finish(ended.unwrap_or(ReadlineError::Eof))
    }
}
