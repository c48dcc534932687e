//! The trait of renderers.
ghost use Rattle.std.specs.Prelude.{◌≡◌, ◌+◌, ◌<◌, ◌≤◌, true, false, take, Some, OnErr, IfOk, IfErr, IsTrue, IsCharBoundary, option_copied, option_map, length};
ghost use Rattle.line_buffer.specs.Printable.{is_plain};
ghost use Rattle.line_config.specs.declared.errors.ReadlineError.TheVariants.{Display};
ghost use Rattle.line_editor.specs.RenderCalls.{Canvas, Makes, Idles, IsKnown};
ghost use Rattle.line_editor.specs.RenderCalls.Call.{Draw, Move, Write, Beep, ClearScreen, ClearRows, ClearToEol, MoveAndClearToEol, InsertChar, MoveAndDelete, Append, DrawRest, ToLeftmost, WriteOver};
ghost use Rattle.line_editor.specs.Redraws.{layout_of};
ghost use Rattle.line_editor.specs.Values.{marks_seen};

use line_buffer::{GraphemeClusterMode, Layout, LineBuffer, Position, TabStops, Unit};
use line_config::ReadlineError;
use line_help::Highlighter;

/// How much is redrawn.
#[derive(Clone, Copy, Debug, PartialEq, Eq)]
pub enum RefreshKind {
    /// The text after the cursor, if nothing is shown there.
    Min,
    /// Everything; the old drawing is erased first.
    All,
}

/// Draws a line on a display.
///
/// `canvas` is what is known of it: the effect of each call that succeeds, and of one that fails;
/// whether the display has failed; and its measures. A call fails only if the display has failed.
pub trait Renderer: Drop {
    ghost canvas: { Canvas Self };

    /// Moves the cursor.
    fn move_cursor(&mut self, old: Position, new: Position) -> Result<(), ReadlineError>
        ensures { Makes canvas (Move old new) self.old self.new result };

    /// Draws the prompt, the line, and the hint or message after it. Without an old layout nothing
    /// is erased: then the cursor must be on the prompt's first cell, and the cells from there on
    /// blank.
    ///
    /// A highlighter is given if the display has colours. The line has its styles if it is
    /// `marked`. The text after it is a message if `told`, else a hint.
    fn refresh_line<H: Highlighter>(
        &mut self,
        prompt: &str,
        line: &LineBuffer,
        hint: Option<&str>,
        old_layout: Option<Layout>,
        new_layout: &Layout,
        highlighter: Option<&H>,
        marked: bool,
        told: bool,
    ) -> Result<(), ReadlineError>
        ensures { Makes canvas (Draw prompt.now line.now.text line.now.place
            (option_copied hint.entry) old_layout new_layout.now
            (marks_seen marked told (option_map H.marks (option_copied highlighter.entry))))
            self.old self.new result };

    /// Writes a text at the cursor.
    fn write_and_flush(&mut self, text: &str) -> Result<(), ReadlineError>
        ensures { Makes canvas (Write text.now) self.old self.new result };

    /// Rings the bell, if the display is audible.
    fn beep(&mut self) -> Result<(), ReadlineError>
        ensures { Makes canvas Beep self.old self.new result };

    /// Erases the display, and moves the cursor to the first cell.
    fn clear_screen(&mut self) -> Result<(), ReadlineError>
        ensures { Makes canvas ClearScreen self.old self.new result };

    /// Erases the rows of a drawing, and all rows below.
    fn clear_rows(&mut self, layout: &Layout) -> Result<(), ReadlineError>
        ensures { Makes canvas (ClearRows layout.now) self.old self.new result };

    /// Erases from the cursor to its row's end.
    fn clear_to_eol(&mut self) -> Result<(), ReadlineError>
        ensures { Makes canvas ClearToEol self.old self.new result };

    /// Moves the cursor, and erases from there to its row's end.
    fn move_and_clear_to_eol(&mut self, old: Position, new: Position) -> Result<(), ReadlineError>
        ensures { Makes canvas (MoveAndClearToEol old new) self.old self.new result };

    /// Writes a character in a cell that is opened at the cursor, in `old`. The letters after it,
    /// `rest`, move on by a cell, over rows if needed, so that the drawing ends at `end`. The
    /// cursor goes to `new`, behind the character.
    fn insert_char(
        &mut self,
        ch: char,
        rest: &str,
        old: Position,
        new: Position,
        end: Position,
    ) -> Result<(), ReadlineError>
        requires inside { old.col < (canvas.ruler self.old).columns }
        ensures { Makes canvas (InsertChar ch rest.now old new end) self.old self.new result };

    /// Moves the cursor to `new`, and takes `count` cells out of its row from there on. The letters
    /// after them, `rest`, move back by as many, over rows if needed, so that the drawing ends at
    /// `end`.
    fn move_and_delete_chars(
        &mut self,
        old: Position,
        new: Position,
        count: Unit,
        rest: &str,
        end: Position,
    ) -> Result<(), ReadlineError>
        requires some { 0 < count }
        requires room { new.col + count ≤ (canvas.ruler self.old).columns }
        ensures { Makes canvas (MoveAndDelete old new count rest.now end)
            self.old self.new result };

    /// Draws a text behind what is drawn, whose end is at `at`, with the cursor there. Returns
    /// where the drawing ends then.
    fn append_text(&mut self, text: &str, at: Position) -> Result<Position, ReadlineError>
        ensures makes { Makes canvas (Append text.now at) self.old self.new result }
        ensures end { IfOk result (λ end. end ≡ (canvas.ruler self.old).measure text.now at) };

    /// Moves the cursor from `old` to `at`, a cell inside the drawing, and draws the line's text
    /// from the place `from` on, and the hint or message after it, in place of everything from
    /// there on. Then the cursor goes to its place in the new layout.
    ///
    /// A highlighter is given if the display has colours. The text has the line's styles if it is
    /// `marked`. The text after the line is a message if `told`, else a hint.
    fn refresh_rest<H: Highlighter>(
        &mut self,
        line: &LineBuffer,
        from: usize,
        hint: Option<&str>,
        old: Position,
        at: Position,
        new_layout: &Layout,
        highlighter: Option<&H>,
        marked: bool,
        told: bool,
    ) -> Result<(), ReadlineError>
        requires boundary { IsCharBoundary line.now.text from }
        ensures { Makes canvas (DrawRest line.now.text from line.now.place
            (option_copied hint.entry) old at new_layout.now
            (marks_seen marked told (option_map H.marks (option_copied highlighter.entry))))
            self.old self.new result };

    /// Moves the cursor from `old` to `at`, writes letters from there on over as many in their row,
    /// which they don't fill, and moves the cursor to `new`.
    fn write_over(
        &mut self,
        letters: &str,
        old: Position,
        at: Position,
        new: Position,
    ) -> Result<(), ReadlineError>
        requires room { at.col + length letters.now < (canvas.ruler self.old).columns }
        ensures { Makes canvas (WriteOver letters.now old at new) self.old self.new result };

    /// Moves the cursor to the first cell of its row, if the display left it elsewhere.
    fn move_cursor_at_leftmost(&mut self) -> Result<(), ReadlineError>
        ensures { Makes canvas ToLeftmost self.old self.new result };

    /// Starts an update that is shown at once when it ends. Nothing is written.
    fn begin_synchronized_update(&mut self) -> Result<(), ReadlineError>
        ensures { Idles canvas self.old self.new result }
    {
        // each drawing is shown as it comes
        Ok(())
    }

    /// Ends the update. Nothing is written.
    fn end_synchronized_update(&mut self) -> Result<(), ReadlineError>
        ensures { Idles canvas self.old self.new result }
    {
        // nothing was held back
        Ok(())
    }

    /// Reads the display's size again. Nothing is written, and the size stays as it was.
    fn update_size(&mut self)
        ensures { self.new ≡ self.old };

    /// The number of columns of a row.
    fn get_columns(&self) -> Unit
        ensures { result ≡ (canvas.ruler self.now).columns };

    /// The number of rows.
    fn get_rows(&self) -> Unit
        ensures { result ≡ (canvas.ruler self.now).rows };

    /// Whether highlighted texts are drawn with their styles.
    fn colors_enabled(&self) -> bool
        ensures { result ≡ (canvas.ruler self.now).colours };

    /// How the columns of a cluster are counted.
    fn grapheme_cluster_mode(&self) -> GraphemeClusterMode
        ensures { result ≡ (canvas.ruler self.now).mode };

    /// Where tabs end, if they are drawn as blanks.
    fn tab_stops(&self) -> Option<TabStops>
        ensures { result ≡ (canvas.ruler self.now).tabs };

    /// Where the drawing of a text ends that starts at a place.
    fn calculate_position(&self, text: &str, orig: Position) -> Position
        ensures { result ≡ (canvas.ruler self.now).measure text.now orig };

    /// Where the drawing of a text up to a place ends, computed from a place for which this is
    /// known, if the text is `plain` or a few characters are between the two, each apart from those
    /// before it.
    fn position_from(
        &self,
        text: &str,
        start: Position,
        known: (usize, Position),
        place: usize,
        plain: bool,
    ) -> Position
        requires plain { plain ≡ is_plain text.now }
        requires known { IsKnown (canvas.ruler self.now).measure start text.now (Some known) }
        requires boundary { IsCharBoundary text.now place }
        ensures { result ≡ (canvas.ruler self.now).measure (take place text.now) start }
    {
        self.calculate_position(&text[..place], start)
    }

    /// The layout of a line after a prompt that ends at `prompt_size`, with a hint or message after
    /// it. Its end is that of the whole drawing.
    fn compute_layout(
        &self,
        prompt_size: Position,
        default_prompt: bool,
        line: &LineBuffer,
        info: Option<&str>,
    ) -> Layout
        ensures { result ≡ layout_of (canvas.ruler self.now) prompt_size default_prompt
            line.now.text line.now.place (option_copied info.entry) }
    {
        let grapheme_cluster_mode = self.grapheme_cluster_mode();
        let pos = line.pos();
        let text = line.as_str();
        let cursor = self.calculate_position(&text[..pos], prompt_size);
        let end = if pos < text.len() {
            self.calculate_position(text, prompt_size)
        } else {
            cursor
        };
        let (end, has_info) = match info {
            None => (self.calculate_position("", end), false),
            Some(info) => (self.calculate_position(info, end), true),
        };
        Layout {
            grapheme_cluster_mode,
            prompt_size,
            default_prompt,
            cursor,
            end,
            has_info,
            tab_stops: self.tab_stops(),
        }
    }
}
