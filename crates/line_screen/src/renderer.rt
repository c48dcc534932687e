//! The renderer: the calls by which an editor draws.

ghost use Rattle.std.specs.Prelude.{◌≡◌, ◌≤◌, [], false, option_copied, option_map};
ghost use Rattle.std.specs.Result.{result_map_both};
ghost use Rattle.line_config.specs.declared.errors.ReadlineError.TheVariants.{Display};
ghost use Rattle.line_screen.specs.ScreenCalls.{screen_of, sink_of, canvas_of, styles_of, line_styles};
ghost use Rattle.line_screen.specs.Colours.{brush_spans, styles_in, styles_after};
ghost use Rattle.line_editor.specs.Sights.{drawn_spans};
ghost use Rattle.line_editor.specs.Values.{marks_seen};

use crate::drawing::appended::draw_behind;
use crate::drawing::over::write_letters;
use crate::drawing::painted::Brush;
use crate::drawing::rest::{Rest, draw_rest};
use crate::drawing::sequences::{clear, go, move_and_erase, send_flushed};
use crate::drawing::shifted::{move_and_take_out, put_before};
use crate::drawing::whole::{Painting, paint};
use crate::grid::Grid;
use crate::measuring::{measure_in, measure_near, measure_on};
use line_buffer::{GraphemeClusterMode, Layout, LineBuffer, Position, TabStops, Unit};
use line_config::{BellStyle, DeviceFailed, ReadlineError, Sink};
use line_editor::Renderer;
use line_help::{Highlighter, Part};

/// Draws a line on rows of cells by writing to a sink.
///
/// A call writes its bytes piece by piece, stores none of them and takes no memory. A call that
/// writes flushes the sink at its end. It returns `Display` if the sink fails, and only then; the
/// sink has then taken a prefix of the call's bytes.
#[derive(Drop)]
pub struct ScreenRenderer<D> {
    sink: D,
    grid: Grid,
    bell_style: BellStyle,
    colours: bool,
}

impl<D: Sink> ScreenRenderer<D> {
    /// A screen with `columns` columns, without colours, with tabs as question marks. Nothing is
    /// written.
    pub fn new(
        sink: D,
        columns: Unit,
        grapheme_cluster_mode: GraphemeClusterMode,
        bell_style: BellStyle,
    ) -> Self
        requires low { 2 ≤ columns }
        requires high { columns ≤ 1000 }
        ensures sink { sink_of result ≡ sink }
        ensures screen { screen_of result
            ≡ record {
              columns = columns;
              mode = grapheme_cluster_mode;
              bell = bell_style;
              colours = false;
              tab = None;
            } }
    {
        ScreenRenderer {
            sink,
            grid: Grid {
                columns,
                mode: grapheme_cluster_mode,
                tab: None,
            },
            bell_style,
            colours: false,
        }
    }

    /// Sets the number of columns for further calls. Nothing is written.
    pub fn set_columns(&mut self, columns: Unit)
        requires low { 2 ≤ columns }
        requires high { columns ≤ 1000 }
        ensures sink { sink_of self.new ≡ sink_of self.old }
        ensures screen { screen_of self.new
            ≡ record (screen_of self.old) { columns = columns } }
    {
        self.grid.columns = columns;
    }

    /// Sets whether further calls draw a highlighter's styles. Nothing is written.
    pub fn set_colours(&mut self, colours: bool)
        ensures sink { sink_of self.new ≡ sink_of self.old }
        ensures screen { screen_of self.new
            ≡ record (screen_of self.old) { colours = colours } }
    {
        self.colours = colours;
    }

    /// Sets how many columns apart tab stops are for further calls; with `None` a tab is drawn as
    /// a question mark. Nothing is written.
    pub fn set_tab_stop(&mut self, stop: Option<u8>)
        ensures sink { sink_of self.new ≡ sink_of self.old }
        ensures screen { screen_of self.new
            ≡ record (screen_of self.old) { tab = stop } }
    {
        self.grid.tab = stop;
    }

    /// The sink, with what was written to it.
    pub fn into_sink(self) -> D
        ensures { result ≡ sink_of self }
    {
        self.sink
    }

    /// Whether the sink has failed.
    pub fn failed(&self) -> bool
        ensures { result ≡ D.has_failed (sink_of self.now) }
    {
        self.sink.failed()
    }
}

impl<D: Sink + Drop> Renderer for ScreenRenderer<D> {
    ghost canvas = { canvas_of D.held D.waits D.has_failed };

    /// Writes nothing if the two cells are the same.
    fn move_cursor(&mut self, old: Position, new: Position) -> Result<(), ReadlineError> {
        answer(go(&mut self.sink, old, new))
    }

    /// With the styles of the highlighter, if there is one.
    fn refresh_line<H: Highlighter>(
        &mut self,
        prompt: &str,
        line: &LineBuffer,
        hint: Option<&str>,
        old_layout: Option<Layout>,
        new_layout: &Layout,
        highlighter: Option<&H>,
        marked: bool,
        told: bool,
    ) -> Result<(), ReadlineError> {
        let row = old_layout.map(|layout| layout.cursor.row);
        let info = hint.unwrap_or("");
        let painting = painting_of(highlighter, marked, told, prompt, line, info, new_layout);
        answer(paint(&mut self.sink, self.grid, row, &painting))
    }

    fn write_and_flush(&mut self, text: &str) -> Result<(), ReadlineError> {
        answer(send_flushed(&mut self.sink, text.as_bytes()))
    }

    /// Rings the bell, if the screen is audible.
    fn beep(&mut self) -> Result<(), ReadlineError> {
        match self.bell_style {
            BellStyle::Audible => answer(send_flushed(&mut self.sink, b"\x07")),
            BellStyle::None | BellStyle::Visible => Ok(()),
        }
    }

    fn clear_screen(&mut self) -> Result<(), ReadlineError> {
        answer(send_flushed(&mut self.sink, b"\x1B[H\x1B[J"))
    }

    fn clear_rows(&mut self, layout: &Layout) -> Result<(), ReadlineError> {
        let row = layout.cursor.row;
        answer(clear(&mut self.sink, row))
    }

    fn clear_to_eol(&mut self) -> Result<(), ReadlineError> {
        answer(send_flushed(&mut self.sink, b"\x1B[K"))
    }

    /// The bytes of both are passed on together.
    fn move_and_clear_to_eol(&mut self, old: Position, new: Position) -> Result<(), ReadlineError> {
        answer(move_and_erase(&mut self.sink, old, new))
    }

    /// All bytes are passed on together.
    fn insert_char(
        &mut self,
        ch: char,
        rest: &str,
        old: Position,
        new: Position,
        end: Position,
    ) -> Result<(), ReadlineError> {
        let columns = self.grid.columns;
        let rest = rest.as_bytes();
        answer(put_before(&mut self.sink, columns, ch, rest, old, new, end))
    }

    /// All bytes are passed on together.
    fn move_and_delete_chars(
        &mut self,
        old: Position,
        new: Position,
        count: Unit,
        rest: &str,
        end: Position,
    ) -> Result<(), ReadlineError> {
        let columns = self.grid.columns;
        let rest = rest.as_bytes();
        answer(move_and_take_out(&mut self.sink, columns, old, new, count, rest, end))
    }

    /// If the column of `at` isn't one of the screen's, it counts as the first one.
    fn append_text(&mut self, text: &str, at: Position) -> Result<Position, ReadlineError> {
        answer(draw_behind(&mut self.sink, self.grid, at, text))
    }

    /// If the column of `at` isn't one of the screen's, the rest is drawn as from the first one.
    /// All bytes are passed on together.
    fn refresh_rest<H: Highlighter>(
        &mut self,
        line: &LineBuffer,
        from: usize,
        hint: Option<&str>,
        old: Position,
        at: Position,
        new_layout: &Layout,
        highlighter: Option<&H>,
        marked: bool,
        told: bool,
    ) -> Result<(), ReadlineError> {
        let info = hint.unwrap_or("");
        let shown = rest_of(highlighter, marked, told, line, from, info, new_layout);
        answer(draw_rest(&mut self.sink, self.grid, old, at, &shown))
    }

    /// All bytes are passed on together.
    fn write_over(
        &mut self,
        letters: &str,
        old: Position,
        at: Position,
        new: Position,
    ) -> Result<(), ReadlineError> {
        let letters = letters.as_bytes();
        answer(write_letters(&mut self.sink, letters, old, at, new))
    }

    /// Writes nothing: no call leaves the cursor elsewhere.
    fn move_cursor_at_leftmost(&mut self) -> Result<(), ReadlineError> {
        Ok(())
    }

    /// The size stays as it was given.
    fn update_size(&mut self) {}

    fn get_columns(&self) -> Unit {
        self.grid.columns
    }

    /// The most rows that can be counted, 65,535: there is no last row.
    fn get_rows(&self) -> Unit {
        Unit::MAX
    }

    fn colors_enabled(&self) -> bool {
        self.colours
    }

    fn grapheme_cluster_mode(&self) -> GraphemeClusterMode {
        self.grid.mode
    }

    fn tab_stops(&self) -> Option<TabStops> {
        let columns = self.grid.columns;
        self.grid.tab.map(|apart| TabStops { columns, apart })
    }

    fn calculate_position(&self, text: &str, orig: Position) -> Position {
        measure_in(self.grid, text, orig)
    }

    fn position_from(
        &self,
        text: &str,
        start: Position,
        known: (usize, Position),
        place: usize,
        plain: bool,
    ) -> Position {
        let (place_of_known, at) = known;
        if plain {
            measure_on(text, start, place_of_known, at, place, self.grid)
        } else {
            measure_near(text, start, place_of_known, at, place, self.grid)
        }
    }
}

/// The texts of a line, with a highlighter's styles if there is one: the line's own if it is
/// marked, and after it those of a hint, or of a message if `told`.
fn painting_of<'a, H: Highlighter>(
    highlighter: Option<&'a H>,
    marked: bool,
    told: bool,
    prompt: &'a str,
    line: &'a LineBuffer,
    info: &'a str,
    layout: &Layout,
) -> Painting<'a, H>
    ensures styles { styles_in H.marks result
        ≡ styles_of (drawn_spans
        (marks_seen marked told (option_map H.marks (option_copied highlighter.entry)))
        layout.now.default_prompt prompt.now line.now.text line.now.place info.now) }
    ensures prompt { result.prompt.text.now ≡ prompt.now }
    ensures line { result.line.text.now ≡ line.now.text }
    ensures info { result.info.text.now ≡ info.now }
    ensures end { result.end ≡ layout.now.end }
    ensures cursor { result.cursor ≡ layout.now.cursor }
{
    Painting {
        prompt: Brush {
            highlighter,
            part: Part::Prompt(layout.default_prompt),
            text: prompt,
        },
        line: brush_of_line(highlighter, marked, line),
        info: brush_of_info(highlighter, told, info),
        end: layout.end,
        cursor: layout.cursor,
    }
}

/// A line from a place on, and the text after it, with a highlighter's styles, if there is one.
fn rest_of<'a, H: Highlighter>(
    highlighter: Option<&'a H>,
    marked: bool,
    told: bool,
    line: &'a LineBuffer,
    from: usize,
    info: &'a str,
    layout: &Layout,
) -> Rest<'a, H>
    ensures styles { styles_after H.marks result
        ≡ line_styles
        (marks_seen marked told (option_map H.marks (option_copied highlighter.entry)))
        line.now.text line.now.place info.now }
    ensures line { result.line.text.now ≡ line.now.text }
    ensures from { result.from ≡ from }
    ensures info { result.info.text.now ≡ info.now }
    ensures end { result.end ≡ layout.now.end }
    ensures cursor { result.cursor ≡ layout.now.cursor }
{
    Rest {
        line: brush_of_line(highlighter, marked, line),
        from,
        info: brush_of_info(highlighter, told, info),
        end: layout.end,
        cursor: layout.cursor,
    }
}

/// A line with a highlighter's styles, if there is one and the line is marked.
fn brush_of_line<'a, H: Highlighter>(
    highlighter: Option<&'a H>,
    marked: bool,
    line: &'a LineBuffer,
) -> Brush<'a, H>
    ensures styles { brush_spans H.marks result
        ≡ (line_styles
        (marks_seen marked false (option_map H.marks (option_copied highlighter.entry)))
        line.now.text line.now.place []).line }
    ensures text { result.text.now ≡ line.now.text }
{
    Brush {
        highlighter: if marked { highlighter } else { None },
        part: Part::Line(line.pos()),
        text: line.as_str(),
    }
}

/// The text after a line with a highlighter's styles, if there is one: those of a hint, or of a
/// message if `told`.
fn brush_of_info<'a, H: Highlighter>(
    highlighter: Option<&'a H>,
    told: bool,
    info: &'a str,
) -> Brush<'a, H>
    ensures styles { brush_spans H.marks result
        ≡ (line_styles
        (marks_seen false told (option_map H.marks (option_copied highlighter.entry)))
        [] 0 info.now).info }
    ensures text { result.text.now ≡ info.now }
{
    let part = if told { Part::Message } else { Part::Hint };
    Brush {
        highlighter,
        part,
        text: info,
    }
}

/// The display's error in place of its device's.
fn answer<A>(done: Result<A, DeviceFailed>) -> Result<A, ReadlineError>
    ensures { result ≡ result_map_both (λ x. x) (λ _. Display) done }
{
    match done {
        Ok(answer) => Ok(answer),
        Err(_) => Err(ReadlineError::Display),
    }
}
