//! Laws of the definitions. Each is the contract of a function that does nothing, or of a call
//! about which more is known.

ghost use Rattle.std.specs.Prelude.{◌≡◌, ℕ, ◌<◌, ◌≤◌, List, length, IsTrue, true};
ghost use Rattle.line_config.specs.Feed.{AlwaysTold};
ghost use Rattle.line_editor.specs.LineRun.{helper_from_hooks};
ghost use Rattle.line_config.specs.declared.device.Last.{Last};
ghost use Rattle.line_config.specs.declared.settings.EditMode.{EditMode};
ghost use Rattle.line_screen.specs.ScreenCalls.{Screen};
ghost use Rattle.keyline.specs.SessionLaws.{CutsAreFree, EventsBegin, OffMeetsNone, ColumnsAreFree, LastAreKept, keys_and_pastes};
ghost use Rattle.keyline.specs.Desks.{TakesLines};
ghost use Rattle.keyline.specs.SessionEffects.{devices_by};
ghost use Rattle.keyline.specs.Shows.{EachShown, Face, IsAtRest, IsScreen, LayoutsTell, OneByte, CommandsShow, TurnsShow, blank};
ghost use Rattle.keyline.specs.Pasting.{PastesAreAccepted, PastedLinesAreAccepted};
ghost use Rattle.keyline.specs.SessionCalls.{RunsSession, desk_of, given_in, prompt_of, text_sink};
ghost use Rattle.keyline.specs.Events.{LinesInOrder, line_course, session};
ghost use Rattle.keyline.specs.Sessions.{Given, LineGiven, SessionState, coming_from};

use crate::prompter::Prompter;
use crate::session::{Ended, Session};
use line_config::{ReadlineError, Sink, Source};
use line_help::Helper;
use line_keys::Decides;

/// Over a source that always agrees with the assumption about its bytes, like one over memory, the
/// premise of a session holds. What the session draws, writes and saves is that of its keys,
/// whatever they are.
pub fn always_told<
    S: Source + Drop,
    H: Helper + Drop,
    D: Sink + Drop,
    L: Sink + Drop,
    T: Sink + Drop,
    B: Decides,
>(session: Session<S, H, D, L, T, B>) -> Ended<S, D, L, T>
    requires { AlwaysTold S.feed }
    ensures told { IsTrue (S.feed result.source).told }
    ensures plays { let helps =
        helper_from_hooks H.hint_of H.verdict_of H.completion_of H.update_of H.marks in
        let known = devices_by S.feed D.held D.waits D.has_failed L.held L.waits L.has_failed in
        RunsSession known T.held T.has_failed true
        (given_in B.decides helps (prompt_of session) session)
        (desk_of session) (text_sink session) result }
{
    session.run()
}

/// `read_line`, called until it fails, with a prompt and columns for each line. The lines, the
/// history and the display bytes are those of the session with these prompts and columns. `run` is
/// the case of one prompt and one screen.
pub fn lines<
    S: Source + Drop,
    H: Helper + Drop,
    D: Sink + Drop,
    L: Sink + Drop,
    T: Sink + Drop,
    B: Decides,
    P: Prompter + Drop,
>(session: Session<S, H, D, L, T, B>, prompter: P) -> (Session<S, H, D, L, T, B>, ReadlineError)
    ensures { let helps =
        helper_from_hooks H.hint_of H.verdict_of H.completion_of H.update_of H.marks in
        let known = devices_by S.feed D.held D.waits D.has_failed L.held L.waits L.has_failed in
        TakesLines known (given_in B.decides helps (prompt_of session) session) (P.lines prompter)
        (desk_of session) (desk_of result.0) result.1 }
{
    let mut session = session;
    let mut prompter = prompter;
    loop {
        session.set_columns(prompter.columns());
        match session.read_line(prompter.prompt()) {
            Ok(_) => prompter.advance(),
            Err(why) => return (session, why),
        }
    }
}

/// From any display that shows a value, the bytes of a command lead to one that shows the value
/// after it. An interruption leaves the cursor at the drawing's end.
pub fn commands_show()
    ensures { CommandsShow }
{}

/// From any display that shows a value, the bytes of a turn, whatever is read in it, lead to one
/// that shows the value after it.
pub fn turns_show()
    ensures { TurnsShow }
{}

/// A printable ASCII character, read alone, sends only its one byte. It must be typed at the end of
/// a line of such characters and newlines that has space in its row, with no information before or
/// after. The line may have tabs if these are drawn as blanks. The stored layout says exactly
/// whether information is shown.
pub fn one_byte()
    ensures tells { LayoutsTell }
    ensures sends { OneByte }
{}

/// At each moment of a session's events the bytes so far show prompt and line at its top, like a
/// single drawing on a blank display. After each drawing they have a meaning. The rows above keep
/// their cells until a screen is cleared. This holds from any display between two lines, such as a
/// blank one, and with a prompt and columns for each line.
pub fn sessions_show()
    ensures blank { (s : Screen) → IsScreen s → IsAtRest (blank s) }
    ensures sessions { (n : ℕ) (g : Given) (at : ℕ → LineGiven) (x : SessionState) (f : Face)
        → IsAtRest f → EachShown f (session n g at x).events }
{}

/// Two sessions that differ only in their columns accept the same lines and save the same text, if
/// the prompt ends in the same column on both and tabs aren't drawn as blanks. Except for the bytes
/// sent they are the same, event for event, and so is each line, with the values and marks of its
/// steps.
pub fn columns()
    ensures { ColumnsAreFree }
{}

/// Any first events of a session have written the first of its lines, and added these and at most
/// the next one to the history.
pub fn lines_in_order()
    ensures { LinesInOrder }
{}

/// A history that began empty holds, under fixed settings, the last of the accepted lines that
/// weren't ignored, in order.
pub fn kept()
    ensures { LastAreKept }
{}

/// Bytes that are read as whole keys and pastes to their end, with no paste announced, are read so
/// whatever follows them, unless the last one is ESC. The rest of the input follows.
pub fn cutting()
    ensures { CutsAreFree }
{}

/// If nothing is bound and there is no helper, a text pasted at an empty line between two phrases
/// and then entered is accepted as it is, in every mode. The same holds at the beginning of a
/// session's line.
pub fn paste()
    ensures phrases { PastesAreAccepted }
    ensures lines { PastedLinesAreAccepted }
{}

/// What is sent for fewer keys is a prefix of what is sent for more, and so are the lines. This
/// compares a source that fails after its bytes with one that gives more bytes, in a line and in a
/// session.
pub fn fewer_keys()
    ensures lines { (n : ℕ) (g : Given) → EventsBegin (λ x. (line_course n g x).events) }
    ensures sessions { (n : ℕ) (g : Given) (at : ℕ → LineGiven)
        → EventsBegin (λ x. (session n g at x).events) }
{}

/// Two amounts of fuel above the number of remaining keys and pastes give one session. Each key and
/// each paste has at least one byte. So a session computed with more fuel than bytes of keys is the
/// session of every contract.
pub fn fuel()
    ensures sessions { (n m : ℕ) (g : Given) (at : ℕ → LineGiven) (x : SessionState)
        → keys_and_pastes x.coming < n → keys_and_pastes x.coming < m
        → session n g at x ≡ session m g at x }
    ensures bytes { (mode : EditMode) (bytes : List ℕ) (last : Last)
        → keys_and_pastes (coming_from mode bytes last) ≤ length bytes }
{}

/// With the setting `modal_commands` off nothing becomes of a command before it is done. So a line
/// has the events, the outcome and the state of its script without the requests that meet a
/// command, and the last query stays.
pub fn off_meets_none()
    ensures { OffMeetsNone }
{}
