//! Transpositions, changes of case, indentation, and undo.
ghost use Rattle.std.specs.Prelude.{◌≡◌};
ghost use Rattle.line_editor.specs.Transforms.{pair_end};

use crate::renderer::Renderer;
use crate::state::State;
use line_buffer::{LineBuffer, Movement, RepeatCount, WordAction};
use line_config::ReadlineError;
use line_help::{Helper, History};

/// Behind the two clusters to transpose, if each has one byte.
fn pair_end(line: &LineBuffer) -> usize
    ensures { result ≡ pair_end line.now }
{
    let pos = line.pos();
    if pos < line.len() { pos + 1 } else { pos }
}

impl<'p, 'h, Out: Renderer, H: Helper + Drop, Hi: History> State<'p, 'h, Out, H, Hi> {
    ghost use Rattle.line_edits.specs.Edits.{after_undo};
    ghost use Rattle.line_editor.specs.States.{Does};
    ghost use Rattle.line_editor.specs.Transforms.{transpose_chars_effect, transpose_words_effect, edit_word_effect, indent_effect, undo};

    /// Transposes the clusters around the cursor.
    pub fn edit_transpose_chars(&mut self) -> Result<(), ReadlineError>
        ensures does { Does transpose_chars_effect self.old self.new result }
    {
        let end = pair_end(&self.recorded.line);
        let from = end.saturating_sub(2);
        let over = self.may_be_rewritten(from, end);
        let known = self.known_over(over, from);
        self.known = None;
        let done = self.recorded.transpose_chars(self.alloc)?;
        self.known = known;
        if done {
            self.refresh_over(over, from, end)
        } else {
            Ok(())
        }
    }

    /// Swaps the word at the cursor or after it with the one `n` words before it, as one step. The
    /// line is drawn even if only the cursor moved.
    pub fn edit_transpose_words(&mut self, n: RepeatCount) -> Result<(), ReadlineError>
        ensures does { Does (transpose_words_effect n) self.old self.new result }
    {
        let before = self.recorded.line.pos();
        self.known = None;
        let done = self.recorded.transpose_words(self.alloc, n)?;
        if done || self.recorded.line.pos() != before {
            self.refresh()
        } else {
            Ok(())
        }
    }

    /// Changes the case of a word.
    pub fn edit_word(&mut self, action: WordAction) -> Result<(), ReadlineError>
        ensures does { Does (edit_word_effect action) self.old self.new result }
    {
        self.known = None;
        let done = self.recorded.edit_word(self.alloc, action)?;
        if done { self.refresh() } else { Ok(()) }
    }

    /// Adds `amount` spaces to each row that a movement covers, or removes at most as many
    /// whitespace characters: one change per row.
    pub fn edit_indent(
        &mut self,
        movement: &Movement,
        amount: u8,
        dedent: bool,
    ) -> Result<(), ReadlineError>
        ensures does { Does (indent_effect movement.now amount dedent) self.old self.new result }
    {
        self.known = None;
        self.recorded.indent(self.alloc, movement, amount, dedent)?;
        self.refresh()
    }

    /// Undoes the last changes.
    pub(crate) fn edit_undo(&mut self, n: RepeatCount) -> Result<(), ReadlineError>
        ensures does { Does (undo n) self.old self.new result }
    {
        self.known = None;
        let undone = self.recorded.undo(self.alloc, n)?;
        if undone { self.refresh() } else { Ok(()) }
    }
}
