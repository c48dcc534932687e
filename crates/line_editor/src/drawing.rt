//! Draws a state.
ghost use Rattle.std.specs.Prelude.{◌≡◌, ◌+◌, ◌<◌, ◌≤◌, ◌==◌, true, length, encode_utf8, Some, None, is_some, not, if◌then◌else◌, IfOk, IsTrue, option_map, option_copied};
ghost use Rattle.line_buffer.specs.Cells.{origin};
ghost use Rattle.line_buffer.specs.Printable.{is_plain};
ghost use Rattle.line_editor.specs.RenderCalls.{Makes};
ghost use Rattle.line_editor.specs.RenderCalls.Call.{Draw};
ghost use Rattle.line_editor.specs.Values.{hooks_by, is_marked_by, marks_seen};
ghost use Rattle.line_editor.specs.Redraws.{layout_of, may_write_over, may_take, may_erase, may_put_in, may_take_out, cell_on};

use crate::faults::error_of;
use crate::renderer::{RefreshKind, Renderer};
use crate::state::State;
use line_buffer::{Layout, LineBuffer, Position, Unit, is_printable_text};
use line_config::ReadlineError;
use line_help::{Helper, Highlighter, Hint, Hinter, History};
use line_keys::CmdKind;

/// The text of a hint.
pub(crate) fn display_of<T: Hint>(hint: &Option<T>) -> Option<&str>
    ensures { option_copied result ≡ option_map (λ h. (T.says h).display) hint.now }
{
    match hint {
        Some(hint) => Some(hint.display()),
        None => None,
    }
}

/// The helper, if the display has colours.
pub(crate) fn highlighter_of<H: Highlighter>(helper: &Option<H>, colours: bool) -> Option<&H>
    ensures value { option_copied result ≡ (if colours then helper.now else None) }
    ensures marks { option_map H.marks (option_copied result)
        ≡ (if colours then option_map H.marks helper.now else None) }
{
    if colours { helper.as_ref() } else { None }
}

/// Whether a helper highlights a character, if the display has colours.
fn marked_by<H: Helper>(
    helper: &mut Option<H>,
    colours: bool,
    line: &LineBuffer,
    kind: CmdKind,
) -> bool
    ensures value { result ≡ is_marked_by (if colours then option_map H.marks helper.old else None)
        line.now.text line.now.place kind }
    ensures hooks { let hooks = hooks_by H.hint_of H.verdict_of H.completion_of H.update_of in
        option_map hooks helper.new ≡ option_map hooks helper.old }
    ensures marks { option_map H.marks helper.new ≡ option_map H.marks helper.old }
    ensures shown { option_map H.shown_as helper.new
        ≡ (if colours then option_map (λ h. H.shown_after h line.now.text line.now.place kind)
        helper.old else option_map H.shown_as helper.old) }
{
    if colours {
        if let Some(helper) = helper {
            return helper.highlight_char(line.as_str(), line.pos(), kind);
        }
    }
    false
}

/// Whether nothing is shown after the line, and a character after the cursor doesn't fill the row.
fn may_type<Out: Renderer>(out: &Out, layout: &Layout) -> bool
    ensures value { result
        ≡ may_write_over (Out.canvas.ruler out.now) layout.now layout.now.cursor 1 }
    ensures room { IsTrue result → layout.now.cursor.col + 1 ≤ 65535 }
{
    let columns = out.get_columns();
    let col = layout.cursor.col;
    !layout.has_info && col < columns && col + 1 < columns
}

/// Whether nothing is shown after the line, and its last `count` columns are in the cursor's row.
fn may_take(layout: &Layout, count: usize) -> bool
    ensures value { result ≡ may_take layout.now count }
    ensures room { IsTrue result → count ≤ layout.now.end.col }
{
    !layout.has_info && layout.cursor.row == layout.end.row && count <= usize::from(layout.end.col)
}

/// The columns of a character's own drawing from a row's start, if it leaves the row's end free.
fn columns_of<Out: Renderer>(out: &Out, ch: char) -> Option<Unit>
    ensures { let end = (Out.canvas.ruler out.now).measure (encode_utf8 ch) origin in
        result ≡ (if end.row == 0 then Some end.col else None) }
{
    let mut bytes = [0u8; 4];
    let text = ch.encode_utf8(&mut bytes);
    let end = out.calculate_position(text, Position { col: 0, row: 0 });
    if end.row == 0 { Some(end.col) } else { None }
}

/// Whether nothing is shown after the line, and a character can be put before the rest of it, which
/// is printable. The row after the last can be counted.
fn may_put_in<Out: Renderer>(out: &Out, layout: &Layout, rest: &str) -> bool
    ensures value { result ≡ may_put_in (Out.canvas.ruler out.now) layout.now rest.now }
    ensures inside { IsTrue result
        → layout.now.cursor.col < (Out.canvas.ruler out.now).columns }
    ensures last { IsTrue result → layout.now.end.col < (Out.canvas.ruler out.now).columns }
    ensures rows { IsTrue result → layout.now.cursor.row ≤ layout.now.end.row }
    ensures row { IsTrue result → layout.now.end.row + 1 ≤ 65535 }
{
    let columns = out.get_columns();
    let cursor = layout.cursor;
    let end = layout.end;
    !layout.has_info
        && cursor.col < columns
        && end.col < columns
        && cursor.row <= end.row
        && end.row < out.get_rows()
        && is_printable_text(rest)
}

/// Whether nothing is shown after the line, and `count` characters of a row can be taken out from a
/// cell on, before the rest of the line, which is printable. Its last row has as many.
fn may_take_out<Out: Renderer>(
    out: &Out,
    layout: &Layout,
    at: Position,
    count: usize,
    rest: &str,
) -> bool
    ensures value { result
        ≡ may_take_out (Out.canvas.ruler out.now) layout.now at count rest.now }
    ensures some { IsTrue result → 0 < count }
    ensures room { IsTrue result → at.col + count ≤ (Out.canvas.ruler out.now).columns }
    ensures last { IsTrue result → count ≤ layout.now.end.col }
{
    let columns = usize::from(out.get_columns());
    let col = usize::from(at.col);
    !layout.has_info
        && 0 < count
        && col <= columns
        && count <= columns - col
        && count <= usize::from(layout.end.col)
        && is_printable_text(rest)
}

/// Whether nothing is shown after the line, and `count` letters written from a cell on don't fill
/// its row.
fn may_write_over<Out: Renderer>(out: &Out, layout: &Layout, at: Position, count: usize) -> bool
    ensures value { result ≡ may_write_over (Out.canvas.ruler out.now) layout.now at count }
    ensures room { IsTrue result → at.col + count < (Out.canvas.ruler out.now).columns }
{
    let columns = usize::from(out.get_columns());
    let col = usize::from(at.col);
    !layout.has_info && col < columns && count < columns - col
}

/// The cell after another, in rows of so many columns. A full row is left at once.
fn cell_on(columns: Unit, at: Position) -> Position
    requires col { at.col < columns }
    requires row { at.row + 1 ≤ 65535 }
    ensures { result ≡ cell_on columns at }
{
    if at.col + 1 == columns {
        Position {
            col: 0,
            row: at.row + 1,
        }
    } else {
        Position {
            col: at.col + 1,
            row: at.row,
        }
    }
}

/// Whether a text after the line is a message: there is no hint.
pub(crate) fn tells<T: Hint>(hint: &Option<T>) -> bool
    ensures { result ≡ not (is_some (option_map T.says hint.now)) }
{
    match hint {
        Some(_) => false,
        None => true,
    }
}

/// Draws a line, and what is shown after it, over an older drawing. Returns the layout of the new
/// one.
fn draw_over<Out: Renderer, H: Highlighter, T: Hint>(
    out: &mut Out,
    old: Layout,
    prompt: &str,
    given: bool,
    line: &LineBuffer,
    info: Option<&str>,
    helper: &Option<H>,
    marked: bool,
    hint: &Option<T>,
) -> Result<Layout, ReadlineError>
    ensures makes { let ruler = Out.canvas.ruler out.old in
        let new = layout_of ruler (ruler.measure prompt.now origin) given line.now.text
        line.now.place (option_copied info.entry) in
        Makes Out.canvas (Draw prompt.now line.now.text line.now.place
        (option_copied info.entry) (Some old) new
        (marks_seen marked (not (is_some (option_map T.says hint.now)))
        (if ruler.colours then option_map H.marks helper.now else None)))
        out.old out.new result }
    ensures layout { let ruler = Out.canvas.ruler out.old in
        IfOk result (λ new. new ≡ layout_of ruler (ruler.measure prompt.now origin) given
        line.now.text line.now.place (option_copied info.entry)) }
{
    let origin = Position { col: 0, row: 0 };
    let start = out.calculate_position(prompt, origin);
    let layout = out.compute_layout(start, given, line, info);
    let highlighter = highlighter_of(helper, out.colors_enabled());
    let told = tells(hint);
    out.refresh_line(
        prompt,
        line,
        info,
        Some(old),
        &layout,
        highlighter,
        marked,
        told,
    )?;
    Ok(layout)
}

impl<'p, 'h, Out: Renderer, H: Helper + Drop, Hi: History> State<'p, 'h, Out, H, Hi> {
    ghost use Rattle.line_editor.specs.States.{value_of, setting_of, Stays, Does, Renders, Helps};
    ghost use Rattle.line_editor.specs.Values.{hint_reply, with_hint, with_mark};
    ghost use Rattle.line_editor.specs.Drawing.{draw_effect_behind, draw_effect_with, refresh_effect, refresh_effect_behind, message_effect, cursor_moved, cursor_end_effect, beep_effect, clear_and_draw_effect, draw_effect_since};
    ghost use Rattle.line_editor.specs.Drawing.{hint_asked, ask_anew_effect};
    ghost use Rattle.line_editor.specs.Inserting.{is_bare};
    ghost use Rattle.line_editor.specs.Values.{draw_effect};
    ghost use Rattle.line_editor.specs.Redraws.Redraw.{Typed, Appended, Taken, Erased, PutIn, TakenOut, Rewritten, Bared, Moved, Cleared};
    ghost use Rattle.line_editor.specs.RenderCalls.Call.{ToLeftmost};
    ghost use Rattle.line_keys.specs.declared.command.CmdKind.TheVariants.{Other};

    /// The helper's hint, if it has one that isn't empty.
    fn found_hint(&self) -> Result<Option<H::Hint>, ReadlineError>
        ensures value { IfOk result (λ hint. option_map H.Hint.says hint
            ≡ (with_hint (setting_of self.now) (value_of self.now)).hint) }
        ensures helps { Helps (hint_reply (setting_of self.now) (value_of self.now)) result }
    {
        let Some(helper) = &self.helper else {
            return Ok(None);
        };
        let line = &self.recorded.line;
        let found = helper
            .hint(self.alloc, line.as_str(), line.pos(), &self.ctx)
            .map_err(error_of)?;
        Ok(found.filter(|hint| !hint.display().is_empty()))
    }

    /// Calls the helper for the hint. Nothing is drawn.
    pub fn hint(&mut self) -> Result<(), ReadlineError>
        ensures does { Does hint_asked self.old self.new result }
        ensures helps { Helps (hint_reply (setting_of self.old) (value_of self.old)) result }
    {
        self.hint = self.found_hint()?;
        Ok(())
    }

    /// Calls the helper to learn whether a character is highlighted, if the display has colours.
    pub(crate) fn mark(&mut self, kind: CmdKind)
        ensures value { value_of self.new
            ≡ with_mark kind (setting_of self.old) (value_of self.old) }
        ensures out { self.new.out ≡ self.old.out }
        ensures layout { self.new.layout ≡ self.old.layout }
        ensures stays { Stays self.old self.new }
        ensures shown { let line = self.old.recorded.line in
            option_map H.shown_as self.new.helper
            ≡ (if (Out.canvas.ruler self.old.out).colours
            then option_map (λ h. H.shown_after h line.text line.place kind) self.old.helper
            else option_map H.shown_as self.old.helper) }
    {
        let colours = self.out.colors_enabled();
        let marked = marked_by(&mut self.helper, colours, &self.recorded.line, kind);
        self.highlight_char = marked;
    }

    /// Draws the line after a prompt, with the current hint.
    pub(crate) fn draw(&mut self, prompt: &str, given: bool) -> Result<(), ReadlineError>
        ensures { Renders (draw_effect_behind prompt.now given) self.old self.new result }
    {
        let pos = self.recorded.line.pos();
        let info = display_of(&self.hint);
        self.known = None;
        self.layout = draw_over(
            &mut self.out,
            self.layout,
            prompt,
            given,
            &self.recorded.line,
            info,
            &self.helper,
            self.highlight_char,
            &self.hint,
        )?;
        self.known = Some((pos, self.layout.cursor));
        Ok(())
    }

    /// Draws the line with other information in place of the hint.
    pub(crate) fn draw_with(&mut self, info: Option<&str>) -> Result<(), ReadlineError>
        ensures { Renders (draw_effect_with (option_copied info.entry)) self.old self.new result }
    {
        let pos = self.recorded.line.pos();
        self.known = None;
        self.layout = draw_over(
            &mut self.out,
            self.layout,
            self.prompt,
            true,
            &self.recorded.line,
            info,
            &self.helper,
            self.highlight_char,
            &self.hint,
        )?;
        self.known = Some((pos, self.layout.cursor));
        Ok(())
    }

    /// Draws the line with the current hint. Everything is redrawn, whatever the kind.
    pub fn repaint(&mut self, _kind: RefreshKind) -> Result<(), ReadlineError>
        ensures { Renders (draw_effect_since None) self.old self.new result }
    {
        let prompt = self.prompt;
        self.draw(prompt, true)
    }

    /// Calls the helper for the hint and for highlighted characters.
    pub(crate) fn ask_anew(&mut self) -> Result<(), ReadlineError>
        ensures does { Does ask_anew_effect self.old self.new result }
    {
        self.hint()?;
        self.mark(CmdKind::Other);
        Ok(())
    }

    /// Draws the line with a new hint.
    pub(crate) fn refresh(&mut self) -> Result<(), ReadlineError>
        ensures does { Does refresh_effect self.old self.new result }
    {
        self.ask_anew()?;
        self.repaint(RefreshKind::All)
    }

    /// Draws the line with a new hint after another prompt.
    pub(crate) fn refresh_behind(&mut self, prompt: &str) -> Result<(), ReadlineError>
        ensures does { Does (refresh_effect_behind prompt.now) self.old self.new result }
    {
        self.ask_anew()?;
        self.draw(prompt, false)
    }

    /// Draws the line with a message, if there is one, in place of the hint.
    pub(crate) fn tell(&mut self, message: Option<&str>, kind: CmdKind) -> Result<(), ReadlineError>
        ensures { Renders (message_effect (option_copied message.entry) kind) self.old self.new
            result }
    {
        self.hint = None;
        self.mark(kind);
        self.draw_with(message)
    }

    /// Moves the display's cursor to the text's cursor.
    pub(crate) fn show_cursor(&mut self) -> Result<(), ReadlineError>
        ensures { Renders (λ s v. draw_effect (Moved v.line.text v.line.place) s v) self.old
            self.new result }
    {
        let pos = self.recorded.line.pos();
        let cursor = self.position_at(pos);
        self.known = Some((pos, cursor));
        if self.layout.cursor == cursor {
            return Ok(());
        }
        self.out.move_cursor(self.layout.cursor, cursor)?;
        self.layout.cursor = cursor;
        Ok(())
    }

    /// Moves the display's cursor to the text's cursor. If a character is highlighted, or was until
    /// now, the line is redrawn instead, without hint and message.
    pub fn move_cursor(&mut self, kind: CmdKind) -> Result<(), ReadlineError>
        ensures { Renders (cursor_moved kind) self.old self.new result }
    {
        let was_marked = self.highlight_char;
        self.mark(kind);
        if was_marked || self.highlight_char {
            self.draw_with(None)
        } else {
            self.show_cursor()
        }
    }

    /// Moves the display's cursor to the drawing's end.
    pub fn move_cursor_to_end(&mut self) -> Result<(), ReadlineError>
        ensures { Renders cursor_end_effect self.old self.new result }
    {
        if self.layout.cursor == self.layout.end {
            return Ok(());
        }
        self.out.move_cursor(self.layout.cursor, self.layout.end)?;
        self.layout.cursor = self.layout.end;
        Ok(())
    }

    /// Moves the display's cursor to the first cell of its row. The stored layout stays.
    pub fn move_cursor_at_leftmost(&mut self) -> Result<(), ReadlineError>
        ensures makes { Makes Out.canvas ToLeftmost self.old.out self.new.out result }
        ensures value { value_of self.new ≡ value_of self.old }
        ensures layout { self.new.layout ≡ self.old.layout }
        ensures stays { Stays self.old self.new }
    {
        self.out.move_cursor_at_leftmost()
    }

    pub(crate) fn beep(&mut self) -> Result<(), ReadlineError>
        ensures { Renders beep_effect self.old self.new result }
    {
        self.out.beep()?;
        Ok(())
    }

    /// Erases the display. The stored layout is as before the first drawing.
    pub fn clear_screen(&mut self) -> Result<(), ReadlineError>
        ensures { Renders (draw_effect Cleared) self.old self.new result }
    {
        self.known = None;
        self.out.clear_screen()?;
        self.layout = Layout::new(self.layout.grapheme_cluster_mode);
        Ok(())
    }

    /// Erases the display and draws the line.
    pub(crate) fn clear_and_draw(&mut self) -> Result<(), ReadlineError>
        ensures does { Does clear_and_draw_effect self.old self.new result }
    {
        self.clear_screen()?;
        self.refresh()
    }

    /// Shows a character typed at the end. It writes its byte alone, if nothing is shown after it
    /// and it doesn't fill its row.
    pub(crate) fn show_short_typed(&mut self, ch: char) -> Result<(), ReadlineError>
        ensures { Renders (λ s v. draw_effect (Typed s.prompt ch v.line.text v.line.place) s v)
            self.old self.new result }
    {
        if may_type(&self.out, &self.layout) {
            let mut bytes = [0u8; 4];
            self.out.write_and_flush(ch.encode_utf8(&mut bytes))?;
            self.layout.cursor.col += 1;
            self.layout.end = self.layout.cursor;
            return Ok(());
        }
        self.draw_with(None)
    }

    /// Shows a character typed at the end of a line, apart from it, by its own drawing, if nothing
    /// is shown after the line.
    pub(crate) fn show_appended(&mut self, ch: char) -> Result<(), ReadlineError>
        ensures { Renders (λ s v. draw_effect
            (Appended s.prompt ch v.line.text v.line.place) s v)
            self.old self.new result }
    {
        if self.layout.has_info {
            return self.draw_with(None);
        }
        let mut bytes = [0u8; 4];
        let text = ch.encode_utf8(&mut bytes);
        let end = self.out.append_text(text, self.layout.cursor)?;
        self.layout.cursor = end;
        self.layout.end = end;
        Ok(())
    }

    /// Shows that `count` characters were deleted at the end. It erases the rest of the row, if
    /// they were in it and nothing is shown after them. Else all from there on is erased, if lines
    /// may be drawn in part.
    pub(crate) fn show_short_taken(&mut self, count: usize) -> Result<(), ReadlineError>
        requires bare { is_bare (value_of self.old) ≡ true }
        ensures { Renders (λ s v. draw_effect
            (Taken s.prompt count s.config.partial_redraw v.line.text v.line.place) s v)
            self.old self.new result }
    {
        if may_take(&self.layout, count) {
            let end = Position {
                col: self.layout.end.col - count as u16,
                row: self.layout.end.row,
            };
            self.out.move_and_clear_to_eol(self.layout.cursor, end)?;
            self.layout.cursor = end;
            self.layout.end = end;
            return Ok(());
        }
        if self.config.partial_redraw() {
            let left = self.recorded.line.pos();
            return self.draw_from(left);
        }
        self.draw_with(None)
    }

    /// Shows that a character was deleted at the end, apart from what is left. It erases the
    /// character's cells, if nothing is shown after them and others are before them in their row.
    /// Else all from there on is erased.
    pub(crate) fn show_erased(&mut self, ch: char) -> Result<(), ReadlineError>
        requires bare { is_bare (value_of self.old) ≡ true }
        ensures { Renders (λ s v. draw_effect
            (Erased s.prompt ch v.line.text v.line.place) s v)
            self.old self.new result }
    {
        let end = self.layout.end;
        match columns_of(&self.out, ch) {
            Some(width) if !self.layout.has_info && width < end.col => {
                let to = Position {
                    col: end.col - width,
                    row: end.row,
                };
                self.out.move_and_clear_to_eol(self.layout.cursor, to)?;
                self.layout.cursor = to;
                self.layout.end = to;
                Ok(())
            }
            _ => {
                let place = self.recorded.line.pos();
                self.draw_from(place)
            }
        }
    }

    /// Shows a character put into a plain line: the rest of the line moves on by a cell, if it is
    /// printable and nothing is shown after it.
    pub(crate) fn show_put_in(&mut self, ch: char) -> Result<(), ReadlineError>
        ensures { Renders (λ s v. draw_effect (PutIn s.prompt ch v.line.text v.line.place) s v)
            self.old self.new result }
    {
        let pos = self.recorded.line.pos();
        let recorded = &self.recorded;
        let rest = &recorded.line.as_str()[pos..];
        if may_put_in(&self.out, &self.layout, rest) {
            let columns = self.out.get_columns();
            let cursor = cell_on(columns, self.layout.cursor);
            let end = cell_on(columns, self.layout.end);
            self.out
                .insert_char(ch, rest, self.layout.cursor, cursor, end)?;
            self.layout.cursor = cursor;
            self.layout.end = end;
            return Ok(());
        }
        self.draw_with(None)
    }

    /// Shows that `count` printable characters of a plain line were deleted from the cursor on: the
    /// rest of the line moves back, if it is printable and nothing is shown after it. Else it is
    /// drawn.
    pub(crate) fn show_taken_out(&mut self, count: usize) -> Result<(), ReadlineError>
        requires bare { is_bare (value_of self.old) ≡ true }
        ensures { Renders (λ s v. draw_effect
            (TakenOut s.prompt count v.line.text v.line.place) s v)
            self.old self.new result }
    {
        let pos = self.recorded.line.pos();
        let at = self.position_at(pos);
        let recorded = &self.recorded;
        let rest = &recorded.line.as_str()[pos..];
        if may_take_out(&self.out, &self.layout, at, count, rest) {
            let end = Position {
                col: self.layout.end.col - count as u16,
                row: self.layout.end.row,
            };
            self.out
                .move_and_delete_chars(self.layout.cursor, at, count as u16, rest, end)?;
            self.layout.cursor = at;
            self.layout.end = end;
            return Ok(());
        }
        self.draw_from(pos)
    }

    /// Shows that printable characters of a plain line were replaced by as many: they are written
    /// over the old ones, if they don't fill their row and nothing is shown after the line. Else
    /// the line is drawn from them on.
    pub(crate) fn show_rewritten(&mut self, from: usize, upto: usize) -> Result<(), ReadlineError>
        requires bare { is_bare (value_of self.old) ≡ true }
        requires order { from ≤ upto }
        requires inside { upto ≤ length self.old.recorded.line.text }
        requires plain { is_plain self.old.recorded.line.text ≡ true }
        ensures { Renders (λ s v. draw_effect
            (Rewritten s.prompt from upto v.line.text v.line.place) s v)
            self.old self.new result }
    {
        let pos = self.recorded.line.pos();
        let at = self.position_at(from);
        let cursor = self.position_at(pos);
        let recorded = &self.recorded;
        let letters = &recorded.line.as_str()[from..upto];
        if may_write_over(&self.out, &self.layout, at, letters.len()) {
            self.out
                .write_over(letters, self.layout.cursor, at, cursor)?;
            self.layout.cursor = cursor;
            return Ok(());
        }
        self.draw_from(from)
    }

    /// Draws the line without hint if another prompt than its own is shown.
    pub(crate) fn show_bare(&mut self) -> Result<(), ReadlineError>
        ensures { Renders (λ s v. draw_effect (Bared s.prompt v.line.text v.line.place) s v)
            self.old self.new result }
    {
        if self.layout.default_prompt {
            return Ok(());
        }
        self.draw_with(None)
    }
}
