//! Motions of the cursor.
ghost use Rattle.std.specs.Prelude.{◌≡◌, is_some, IfOk};
ghost use Rattle.line_help.specs.History.{begins_with_space};

use crate::renderer::Renderer;
use crate::state::State;
use line_buffer::{At, CharSearch, Layout, Movement, Position, RepeatCount, Word};
use line_config::ReadlineError;
use line_help::{Helper, History};
use line_keys::CmdKind;

impl<'p, 'h, Out: Renderer, H: Helper + Drop, Hi: History> State<'p, 'h, Out, H, Hi> {
    ghost use Rattle.line_buffer.specs.Columns.{line_up, line_down};
    ghost use Rattle.line_editor.specs.States.{value_of, setting_of, Does, Renders};
    ghost use Rattle.line_buffer.specs.declared.types.At.TheVariants.{Start};
    ghost use Rattle.line_buffer.specs.declared.types.Movement.TheVariants.{EndOfLine, BackwardWord, ViCharSearch, BackwardChar, ForwardChar, LineUp, LineDown, BeginningOfBuffer};
    ghost use Rattle.line_buffer.specs.declared.types.Word.TheVariants.{Big};
    ghost use Rattle.line_editor.specs.Values.{then_do};
    ghost use Rattle.line_editor.specs.Moving.{move_to_next_word, move_home, move_buffer_end, move_to_first_print, move_by};
    ghost use Rattle.line_editor.specs.Drawing.{effect_if, cursor_moved};

    /// Moves the display's cursor, if that of the text was moved.
    fn follow(&mut self, moved: bool, kind: CmdKind) -> Result<(), ReadlineError>
        ensures { Renders (effect_if moved (cursor_moved kind)) self.old self.new result }
    {
        if moved {
            self.move_cursor(kind)
        } else {
            Ok(())
        }
    }

    /// Moves back by clusters.
    pub fn edit_move_backward(&mut self, n: RepeatCount) -> Result<(), ReadlineError>
        ensures does { Does (move_by (BackwardChar n)) self.old self.new result }
    {
        let recorded = &mut self.recorded;
        let moved = recorded.line.move_backward(n);
        self.follow(moved, CmdKind::MoveCursor)
    }

    /// Moves forward by clusters.
    pub fn edit_move_forward(&mut self, n: RepeatCount) -> Result<(), ReadlineError>
        ensures does { Does (move_by (ForwardChar n)) self.old self.new result }
    {
        let recorded = &mut self.recorded;
        let moved = recorded.line.move_forward(n);
        self.follow(moved, CmdKind::MoveCursor)
    }

    /// Moves to the row's start.
    pub fn edit_move_home(&mut self) -> Result<(), ReadlineError>
        ensures does { Does move_home self.old self.new result }
    {
        let recorded = &mut self.recorded;
        let moved = recorded.line.move_home();
        self.follow(moved, CmdKind::MoveCursor)
    }

    /// Moves to the row's end.
    pub fn edit_move_end(&mut self) -> Result<(), ReadlineError>
        ensures does { Does (move_by EndOfLine) self.old self.new result }
    {
        let recorded = &mut self.recorded;
        let moved = recorded.line.move_end();
        self.follow(moved, CmdKind::MoveCursor)
    }

    /// Moves to the text's start.
    pub fn edit_move_buffer_start(&mut self) -> Result<(), ReadlineError>
        ensures does { Does (move_by BeginningOfBuffer) self.old self.new result }
    {
        let recorded = &mut self.recorded;
        let moved = recorded.line.move_buffer_start();
        self.follow(moved, CmdKind::MoveCursor)
    }

    /// Moves to the text's end.
    pub fn edit_move_buffer_end(&mut self, kind: CmdKind) -> Result<(), ReadlineError>
        ensures { Renders (move_buffer_end kind) self.old self.new result }
    {
        let recorded = &mut self.recorded;
        let moved = recorded.line.move_buffer_end();
        self.follow(moved, kind)
    }

    /// Moves back to a word's start.
    pub fn edit_move_to_prev_word(
        &mut self,
        word: Word,
        n: RepeatCount,
    ) -> Result<(), ReadlineError>
        ensures does { Does (move_by (BackwardWord n word)) self.old self.new result }
    {
        let recorded = &mut self.recorded;
        let moved = recorded.line.move_to_prev_word(word, n);
        self.follow(moved, CmdKind::MoveCursor)
    }

    /// Moves to a later word.
    pub fn edit_move_to_next_word(
        &mut self,
        at: At,
        word: Word,
        n: RepeatCount,
    ) -> Result<(), ReadlineError>
        ensures { Renders (move_to_next_word at word n) self.old self.new result }
    {
        let recorded = &mut self.recorded;
        let moved = recorded.line.move_to_next_word(at, word, n);
        self.follow(moved, CmdKind::MoveCursor)
    }

    /// Moves by a search to the n-th such character, or to the last one if there are fewer.
    pub fn edit_move_to(&mut self, search: CharSearch, n: RepeatCount) -> Result<(), ReadlineError>
        ensures does { Does (move_by (ViCharSearch n search)) self.old self.new result }
    {
        let recorded = &mut self.recorded;
        let moved = recorded.line.move_to(search, n);
        self.follow(moved, CmdKind::MoveCursor)
    }

    /// The layout after the session's own prompt. Motions by rows use the prompt's end.
    fn prompt_layout(&self) -> Layout
        ensures mode { result.grapheme_cluster_mode ≡ (setting_of self.now).mode }
        ensures tabs { result.tab_stops ≡ (setting_of self.now).tabs }
        ensures column { result.prompt_size.col ≡ (setting_of self.now).column }
    {
        let origin = Position { col: 0, row: 0 };
        let mut layout = Layout::new(self.out.grapheme_cluster_mode());
        layout.prompt_size = self.out.calculate_position(self.prompt, origin);
        layout.tab_stops = self.out.tab_stops();
        layout
    }

    /// Moves up by rows. Returns false in the first row.
    pub fn edit_move_line_up(&mut self, n: RepeatCount) -> Result<bool, ReadlineError>
        ensures does { Does (move_by (LineUp n)) self.old self.new result }
        ensures answer { let s = setting_of self.old in IfOk result
            (λ b. b ≡ is_some (line_up s.mode s.tabs s.column n self.old.recorded.line)) }
    {
        let layout = self.prompt_layout();
        let recorded = &mut self.recorded;
        if !recorded.line.move_to_line_up(n, &layout) {
            return Ok(false);
        }
        self.move_cursor(CmdKind::MoveCursor)?;
        Ok(true)
    }

    /// Moves down by rows. Returns false in the last row.
    pub fn edit_move_line_down(&mut self, n: RepeatCount) -> Result<bool, ReadlineError>
        ensures does { Does (move_by (LineDown n)) self.old self.new result }
        ensures answer { let s = setting_of self.old in IfOk result
            (λ b. b ≡ is_some (line_down s.mode s.tabs s.column n self.old.recorded.line)) }
    {
        let layout = self.prompt_layout();
        let recorded = &mut self.recorded;
        if !recorded.line.move_to_line_down(n, &layout) {
            return Ok(false);
        }
        self.move_cursor(CmdKind::MoveCursor)?;
        Ok(true)
    }

    /// Moves to the row's start, and from there to the next word.
    fn edit_move_home_and_on(&mut self) -> Result<(), ReadlineError>
        ensures does { Does (then_do move_home (move_to_next_word Start Big 1))
            self.old self.new result }
    {
        self.edit_move_home()?;
        self.edit_move_to_next_word(At::Start, Word::Big, 1)
    }

    /// The same if the text begins with whitespace; otherwise only to the row's start.
    fn edit_move_to_first_print(&mut self) -> Result<(), ReadlineError>
        ensures does { Does move_to_first_print self.old self.new result }
    {
        if begins_with_space(self.recorded.line.as_str()) {
            self.edit_move_home_and_on()
        } else {
            self.edit_move_home()
        }
    }

    /// Moves by a movement.
    pub(crate) fn edit_move(&mut self, movement: &Movement) -> Result<(), ReadlineError>
        ensures does { Does (move_by movement.now) self.old self.new result }
    {
        match movement {
            Movement::WholeLine | Movement::WholeBuffer => Ok(()),
            Movement::BeginningOfLine => self.edit_move_home(),
            Movement::EndOfLine => self.edit_move_end(),
            Movement::BackwardWord(n, word) => self.edit_move_to_prev_word(*word, *n),
            Movement::ForwardWord(n, at, word) => self.edit_move_to_next_word(*at, *word, *n),
            Movement::ViCharSearch(n, search) => self.edit_move_to(*search, *n),
            Movement::ViFirstPrint => self.edit_move_to_first_print(),
            Movement::BackwardChar(n) => self.edit_move_backward(*n),
            Movement::ForwardChar(n) => self.edit_move_forward(*n),
            Movement::LineUp(n) => {
                self.edit_move_line_up(*n)?;
                Ok(())
            }
            Movement::LineDown(n) => {
                self.edit_move_line_down(*n)?;
                Ok(())
            }
            Movement::BeginningOfBuffer => self.edit_move_buffer_start(),
            Movement::EndOfBuffer => self.edit_move_buffer_end(CmdKind::MoveCursor),
        }
    }
}

/// Whether a text's first character is whitespace.
fn begins_with_space(text: &str) -> bool
    ensures { result ≡ begins_with_space text.now }
{
    match text.chars().next() {
        Some(c) => c.is_whitespace(),
        None => false,
    }
}
