//! A renderer that logs its calls.

ghost use Rattle.std.specs.Prelude.{◌≡◌, ◌≤◌, IfErr, OnErr, IsTrue};
ghost use Rattle.line_buffer.specs.declared.layout.GraphemeClusterMode.TheVariants.{Unicode};
ghost use Rattle.line_config.specs.declared.errors.ReadlineError.TheVariants.{Display};
ghost use Rattle.line_screen.specs.Measure.{measure_of};

use line_buffer::{GraphemeClusterMode, Layout, LineBuffer, Position, TabStops, Unit};
use line_config::{BellStyle, ReadlineError, VecSink};
use line_editor::Renderer;
use line_help::Highlighter;
use line_screen::ScreenRenderer;
use stand_ins::tables::{marked, pictured};
use std::alloc::{AllocError, Global};
use std::fmt;

/// The calls made, and how many more succeed.
#[derive(Drop)]
pub struct CallLog {
    alloc: Global,
    calls: String,
    /// How many more calls succeed before the display fails; `None` for all.
    answered: Option<u32>,
    failed: bool,
}

impl CallLog {
    /// Forgets the calls that were made.
    pub fn forget(&mut self) {
        self.calls = String::new(self.alloc);
    }

    /// Sets how many more calls succeed; `None` for all.
    pub fn answer(&mut self, answered: Option<u32>) {
        self.answered = answered;
        self.failed = false;
    }

    /// Whether one more call succeeds.
    fn answers(&mut self) -> bool {
        match self.answered {
            None => !self.failed,
            Some(0) => false,
            Some(n) => {
                self.answered = Some(n - 1);
                !self.failed
            }
        }
    }

    fn keep<D: fmt::Display + Drop>(&mut self, call: D) -> Result<(), AllocError> {
        let gap = if self.calls.is_empty() { "" } else { "; " };
        write!(self.calls, "{gap}{call}")
    }

    /// Logs a call, or fails.
    fn note<D: fmt::Display + Drop>(&mut self, call: D) -> Result<(), ReadlineError>
        ensures fault { IfErr result (λ e. e ≡ Display) }
        ensures failed { OnErr result (IsTrue self.new.failed) }
    {
        if self.answers() && self.keep(call).is_ok() {
            return Ok(());
        }
        self.failed = true;
        Err(ReadlineError::Display)
    }

    /// Logs a call in these words, or fails.
    fn note_told(&mut self, told: Result<String, AllocError>) -> Result<(), ReadlineError>
        ensures fault { IfErr result (λ e. e ≡ Display) }
        ensures failed { OnErr result (IsTrue self.new.failed) }
    {
        match told {
            Ok(call) => self.note(call.as_str()),
            Err(_) => {
                self.failed = true;
                Err(ReadlineError::Display)
            }
        }
    }
}

/// Logs each call in words, separated by `; `. Places are rows and columns: `1,4` is the fifth
/// column of the second row.
///
/// A drawing is `draw '> a|b{c}' at 0,3 to 0,5`. It has prompt, line with a bar at the cursor, and
/// hint or message in braces, then the place of the cursor and the end. `below 2` follows if the
/// older drawing's cursor is in row 2, and `fresh` if there is no older one. If a highlighter is
/// passed in, `lit` follows, then `marked` if the line is, and `told` if a message follows it. The
/// rest of a line is `rest 'b{c}' at 0,3 to 0,5` behind the move to where it begins.
#[derive(Drop)]
pub struct CallList {
    pub log: CallLog,
    columns: Unit,
    colours: bool,
    /// How many columns apart tab stops are, if tabs are drawn as blanks.
    tab: Option<u8>,
    ghost low: { 2 ≤ columns },
    ghost high: { columns ≤ 1000 },
}

impl CallList {
    /// A display with so many columns, at least 2 and at most 1,000.
    pub fn new(alloc: Global, columns: Unit, colours: bool, tab: Option<u8>) -> Self {
        CallList {
            log: CallLog {
                alloc,
                calls: String::new(alloc),
                answered: None,
                failed: false,
            },
            columns: columns.clamp(2, 1000),
            colours,
            tab,
        }
    }

    /// The calls that were made.
    pub fn calls(&self) -> &str {
        self.log.calls.as_str()
    }
}

// The text after a line, in braces.
fn hint_told(alloc: Global, hint: Option<&str>) -> Result<String, AllocError> {
    match hint {
        Some(hint) => format!(in alloc; "{{{}}}", pictured(alloc, hint)?),
        None => Ok(String::new(alloc)),
    }
}

// The text of a drawing: prompt, line and what follows it.
fn drawn(
    alloc: Global,
    prompt: &str,
    line: &LineBuffer,
    hint: Option<&str>,
) -> Result<String, AllocError> {
    let shown = marked(alloc, line.as_str(), line.pos())?;
    let told = hint_told(alloc, hint)?;
    format!(in alloc; "{}{shown}{told}", pictured(alloc, prompt)?)
}

// The words for a highlighter that is passed in.
fn lit_words(marked: bool, told: bool) -> &'static str {
    match (marked, told) {
        (false, false) => " lit",
        (true, false) => " lit marked",
        (false, true) => " lit told",
        (true, true) => " lit marked told",
    }
}

// The words after the places of a drawing.
fn older_told(alloc: Global, old: Option<Layout>) -> Result<String, AllocError> {
    match old {
        None => String::from_str(alloc, " fresh"),
        Some(old) if old.cursor.row == 0 => Ok(String::new(alloc)),
        Some(old) => format!(in alloc; " below {}", old.cursor.row),
    }
}

// A drawing in words.
fn drawing(
    alloc: Global,
    text: &str,
    old: Option<Layout>,
    new: &Layout,
    lit: &str,
) -> Result<String, AllocError> {
    let older = older_told(alloc, old)?;
    format!(in alloc;
        "draw '{text}' at {},{} to {},{}{older}{lit}",
        new.cursor.row, new.cursor.col, new.end.row, new.end.col
    )
}

// The rest of a line, and what follows it.
fn hinted(alloc: Global, rest: &str, hint: Option<&str>) -> Result<String, AllocError> {
    let told = hint_told(alloc, hint)?;
    format!(in alloc; "{}{told}", pictured(alloc, rest)?)
}

// Its drawing in words.
fn rest_drawing(alloc: Global, text: &str, new: &Layout, lit: &str) -> Result<String, AllocError> {
    format!(in alloc;
        "rest '{text}' at {},{} to {},{}{lit}",
        new.cursor.row, new.cursor.col, new.end.row, new.end.col
    )
}

// Where the drawing of a text ends that starts at a place, as a terminal's renderer measures it.
fn measured(alloc: Global, text: &str, from: Position, columns: Unit, tab: Option<u8>) -> Position
    requires low { 2 ≤ columns }
    requires high { columns ≤ 1000 }
    ensures { result ≡ measure_of Unicode tab columns text.now from }
{
    let mode = GraphemeClusterMode::Unicode;
    let mut screen = ScreenRenderer::new(VecSink::new(alloc), columns, mode, BellStyle::None);
    screen.set_tab_stop(tab);
    screen.calculate_position(text, from)
}

impl Renderer for CallList {
    ghost use Rattle.std.specs.Prelude.{⊤};
    ghost use Rattle.editor_tests.specs.Rulers.{ruler_with};

    // its calls are text: contracts only say that they were made
    ghost canvas = { record {
      made = λ _ _ _. ⊤;
      refused = λ _ _ _. ⊤;
      failed = λ list. list.log.failed;
      ruler = λ list. ruler_with list.columns list.colours list.tab;
    } };

    fn move_cursor(&mut self, old: Position, new: Position) -> Result<(), ReadlineError> {
        self.log.note(format_args!("move {},{} to {},{}", old.row, old.col, new.row, new.col))
    }

    fn refresh_line<H: Highlighter>(
        &mut self,
        prompt: &str,
        line: &LineBuffer,
        hint: Option<&str>,
        old_layout: Option<Layout>,
        new_layout: &Layout,
        highlighter: Option<&H>,
        marked: bool,
        told: bool,
    ) -> Result<(), ReadlineError> {
        let lit = match highlighter {
            Some(_) => lit_words(marked, told && hint.is_some()),
            None => "",
        };
        let call = match drawn(self.log.alloc, prompt, line, hint) {
            Ok(text) => drawing(self.log.alloc, text.as_str(), old_layout, new_layout, lit),
            Err(refusal) => Err(refusal),
        };
        self.log.note_told(call)
    }

    fn write_and_flush(&mut self, text: &str) -> Result<(), ReadlineError> {
        self.log.note(format_args!("write '{text}'"))
    }

    fn beep(&mut self) -> Result<(), ReadlineError> {
        self.log.note("beep")
    }

    fn clear_screen(&mut self) -> Result<(), ReadlineError> {
        self.log.note("clear screen")
    }

    fn clear_rows(&mut self, layout: &Layout) -> Result<(), ReadlineError> {
        self.log
            .note(format_args!("clear rows {}", layout.cursor.row))
    }

    fn clear_to_eol(&mut self) -> Result<(), ReadlineError> {
        self.log.note("clear row")
    }

    fn move_and_clear_to_eol(&mut self, old: Position, new: Position) -> Result<(), ReadlineError> {
        self.move_cursor(old, new)?;
        self.clear_to_eol()
    }

    fn insert_char(
        &mut self,
        ch: char,
        rest: &str,
        _old: Position,
        new: Position,
        end: Position,
    ) -> Result<(), ReadlineError> {
        self.log.note(format_args!(
            "put '{ch}' before '{rest}' {},{} {},{}",
            new.row, new.col, end.row, end.col
        ))
    }

    fn move_and_delete_chars(
        &mut self,
        old: Position,
        new: Position,
        count: Unit,
        rest: &str,
        end: Position,
    ) -> Result<(), ReadlineError> {
        self.move_cursor(old, new)?;
        self.log.note(format_args!("take out {count} before '{rest}' {},{}", end.row, end.col))
    }

    fn append_text(&mut self, text: &str, at: Position) -> Result<Position, ReadlineError> {
        self.log
            .note(format_args!("append '{text}' at {},{}", at.row, at.col))?;
        Ok(self.calculate_position(text, at))
    }

    fn refresh_rest<H: Highlighter>(
        &mut self,
        line: &LineBuffer,
        from: usize,
        hint: Option<&str>,
        old: Position,
        at: Position,
        new_layout: &Layout,
        highlighter: Option<&H>,
        marked: bool,
        told: bool,
    ) -> Result<(), ReadlineError> {
        self.move_cursor(old, at)?;
        let lit = match highlighter {
            Some(_) => lit_words(marked, told && hint.is_some()),
            None => "",
        };
        let call = match hinted(self.log.alloc, &line.as_str()[from..], hint) {
            Ok(text) => rest_drawing(self.log.alloc, text.as_str(), new_layout, lit),
            Err(refusal) => Err(refusal),
        };
        self.log.note_told(call)
    }

    fn write_over(
        &mut self,
        letters: &str,
        old: Position,
        at: Position,
        new: Position,
    ) -> Result<(), ReadlineError> {
        self.move_cursor(old, at)?;
        self.log.note(format_args!("write over '{letters}' {},{}", new.row, new.col))
    }

    fn move_cursor_at_leftmost(&mut self) -> Result<(), ReadlineError> {
        self.log.note("leftmost")
    }

    fn update_size(&mut self) {}

    fn get_columns(&self) -> Unit {
        self.columns
    }

    fn get_rows(&self) -> Unit {
        24
    }

    fn colors_enabled(&self) -> bool {
        self.colours
    }

    fn grapheme_cluster_mode(&self) -> GraphemeClusterMode {
        GraphemeClusterMode::Unicode
    }

    fn tab_stops(&self) -> Option<TabStops> {
        let columns = self.columns;
        self.tab.map(|apart| TabStops { columns, apart })
    }

    fn calculate_position(&self, text: &str, orig: Position) -> Position {
        measured(self.log.alloc, text, orig, self.columns, self.tab)
    }
}
