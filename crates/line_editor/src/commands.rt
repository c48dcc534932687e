//! The effect of commands on a line.
ghost use Rattle.std.specs.Prelude.{◌≡◌, true, Ok};
ghost use Rattle.line_keys.specs.InputStates.{input_of};
ghost use Rattle.line_editor.specs.Commands.{means_of};
ghost use Rattle.line_editor.specs.States.{Executes, is_obeyed};
ghost use Rattle.line_editor.specs.declared.commands.Status.TheVariants.{Proceed};

use crate::renderer::Renderer;
use crate::state::State;
use line_buffer::{Anchor, RepeatCount, WordAction};
use line_config::ReadlineError;
use line_help::{Helper, History, SearchDirection};
use line_keys::{Cmd, Decides, InputState};
use line_record::KillRing;

/// Whether a line continues.
#[derive(Clone, Copy, Debug, PartialEq, Eq)]
pub enum Status {
    /// It continues.
    Proceed,
    /// It is accepted.
    Submit,
}

impl<'p, 'h, Out: Renderer, H: Helper + Drop, Hi: History> State<'p, 'h, Out, H, Hi> {
    ghost use Rattle.line_buffer.specs.Columns.{line_up, line_down};
    ghost use Rattle.line_editor.specs.States.{value_of, setting_of, Does};
    ghost use Rattle.line_editor.specs.Commands.{line_up_or_previous, line_down_or_next, effect, ring_after_command, outcome, end_of_file};

    /// Moves up by rows; in the first row, to the previous history entry.
    fn line_up_or_previous(&mut self, n: RepeatCount) -> Result<(), ReadlineError>
        ensures does { Does (line_up_or_previous n) self.old self.new result }
    {
        if self.edit_move_line_up(n)? {
            Ok(())
        } else {
            self.edit_history_next(true)
        }
    }

    /// Moves down by rows; in the last row, to the next history entry.
    fn line_down_or_next(&mut self, n: RepeatCount) -> Result<(), ReadlineError>
        ensures does { Does (line_down_or_next n) self.old self.new result }
    {
        if self.edit_move_line_down(n)? {
            Ok(())
        } else {
            self.edit_history_next(false)
        }
    }

    /// The end of the input on an empty line; in Vi mode any other line is accepted.
    fn end_of_file(&self, emacs: bool) -> Result<Status, ReadlineError>
        ensures { result ≡ end_of_file emacs (value_of self.now) }
    {
        if self.recorded.line.is_empty() {
            return Err(ReadlineError::Eof);
        }
        if emacs {
            Ok(Status::Proceed)
        } else {
            Ok(Status::Submit)
        }
    }

    /// Runs a command that neither ends a line nor kills.
    fn obey<D: Decides>(
        &mut self,
        cmd: &Cmd,
        input_state: &InputState<'_, D>,
        ring: &mut KillRing,
    ) -> Result<(), ReadlineError>
        requires { is_obeyed cmd.now ≡ true }
        ensures does { Does (effect (means_of (input_of input_state.now) ring.old) cmd.now)
            self.old self.new result }
        ensures ring { ring.new ≡ ring_after_command cmd.now (value_of self.old) ring.old }
    {
        match cmd {
            Cmd::SelfInsert(n, c) => self.edit_insert(*c, *n),
            Cmd::Newline => self.newline(),
            Cmd::Insert(n, text) => self.edit_yank(input_state, text.as_str(), Anchor::Before, *n),
            Cmd::Yank(n, anchor) => self.yank_from(ring, input_state, *anchor, *n),
            Cmd::YankPop => self.pop_from(ring),
            Cmd::Move(movement) => self.edit_move(movement),
            Cmd::ReplaceChar(n, c) => self.edit_replace_char(*c, *n),
            Cmd::Overwrite(c) => self.edit_overwrite_char(*c),
            Cmd::ClearScreen => self.clear_and_draw(),
            Cmd::Repaint => self.refresh(),
            Cmd::PreviousHistory => self.edit_history_next(true),
            Cmd::NextHistory => self.edit_history_next(false),
            Cmd::BeginningOfHistory => self.edit_history(true),
            Cmd::EndOfHistory => self.edit_history(false),
            Cmd::LineUpOrPreviousHistory(n) => self.line_up_or_previous(*n),
            Cmd::LineDownOrNextHistory(n) => self.line_down_or_next(*n),
            Cmd::HistorySearchBackward => self.edit_history_search(SearchDirection::Reverse),
            Cmd::HistorySearchForward => self.edit_history_search(SearchDirection::Forward),
            Cmd::TransposeChars => self.edit_transpose_chars(),
            Cmd::TransposeWords(n) => self.edit_transpose_words(*n),
            Cmd::CapitalizeWord => self.edit_word(WordAction::Capitalize),
            Cmd::DowncaseWord => self.edit_word(WordAction::Lowercase),
            Cmd::UpcaseWord => self.edit_word(WordAction::Uppercase),
            Cmd::Undo(n) => self.edit_undo(*n),
            Cmd::Indent(movement) => self.edit_indent(movement, self.config.indent_size(), false),
            Cmd::Dedent(movement) => self.edit_indent(movement, self.config.indent_size(), true),
            Cmd::Complete => self.complete(),
            Cmd::CompleteHint => self.complete_hint(),
            Cmd::AcceptLine
            | Cmd::AcceptOrInsertLine { .. }
            | Cmd::EndOfFile
            | Cmd::Interrupt
            | Cmd::Kill(_)
            | Cmd::Replace(..)
            | Cmd::ViYankTo(_)
            | Cmd::Abort
            | Cmd::CompleteBackward
            | Cmd::ForwardSearchHistory
            | Cmd::Noop
            | Cmd::QuotedInsert
            | Cmd::ReverseSearchHistory
            | Cmd::SearchAgain(_)
            | Cmd::Suspend
            | Cmd::Unknown => Ok(()),
        }
    }

    /// Runs a command.
    fn perform<D: Decides>(
        &mut self,
        cmd: &Cmd,
        input_state: &InputState<'_, D>,
        ring: &mut KillRing,
    ) -> Result<Status, ReadlineError>
        ensures { Executes cmd.now (input_of input_state.now) self.old ring.old self.new ring.new
            result }
    {
        match cmd {
            Cmd::EndOfFile => {
                self.bare_line()?;
                self.end_of_file(input_state.is_emacs_mode())
            }
            Cmd::AcceptLine => {
                self.accept()?;
                Ok(Status::Submit)
            }
            Cmd::AcceptOrInsertLine {
                accept_in_the_middle,
            } => {
                if self.accept_or_insert(*accept_in_the_middle)? {
                    Ok(Status::Submit)
                } else {
                    Ok(Status::Proceed)
                }
            }
            Cmd::Interrupt => {
                self.move_cursor_to_end()?;
                Err(ReadlineError::Interrupted)
            }
            Cmd::Kill(movement) => {
                self.edit_kill(movement, ring)?;
                Ok(Status::Proceed)
            }
            Cmd::Replace(movement, text) => {
                self.edit_replace(movement, text, ring)?;
                Ok(Status::Proceed)
            }
            Cmd::ViYankTo(movement) => {
                self.copy_to_ring(movement, ring)?;
                Ok(Status::Proceed)
            }
            _ => {
                self.obey(cmd, input_state, ring)?;
                Ok(Status::Proceed)
            }
        }
    }
}

/// Runs a command. `Eof` and `Interrupted` are a command's ways to end the line. Any other error is
/// a fault; after it the state's text and record still fit each other.
#[inline(always)]
pub fn execute<'p, 'h, Out: Renderer, H: Helper + Drop, Hi: History, D: Decides>(
    cmd: Cmd,
    s: &mut State<'p, 'h, Out, H, Hi>,
    input_state: &InputState<'_, D>,
    kill_ring: &mut KillRing,
) -> Result<Status, ReadlineError>
    ensures { Executes cmd (input_of input_state.now) s.old kill_ring.old s.new kill_ring.new
        result }
{
    s.perform(&cmd, input_state, kill_ring)
}
