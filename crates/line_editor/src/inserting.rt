//! Inserts characters and texts.
ghost use Rattle.std.specs.Prelude.{◌≡◌, is_some};
ghost use Rattle.line_buffer.specs.Printable.{at_plain_end, at_simple_end};
ghost use Rattle.line_editor.specs.Characters.{stands_apart};
ghost use Rattle.line_edits.specs.Edits.{replace_group_if_any, overwrite_steps};

use crate::characters::stands_apart;
use crate::measured::known_within;
use crate::renderer::Renderer;
use crate::shared_styles::{FirstSpans, Since};
use crate::state::State;
use crate::way::Way;
use line_buffer::{RepeatCount, is_printable, is_printable_text, is_simple};
use line_config::ReadlineError;
use line_help::{Helper, History};

impl<'p, 'h, Out: Renderer, H: Helper + Drop, Hi: History> State<'p, 'h, Out, H, Hi> {
    ghost use Rattle.line_editor.specs.States.{value_of, setting_of, Does};
    ghost use Rattle.line_editor.specs.Drawing.{AreNoted};
    ghost use Rattle.line_editor.specs.Inserting.{is_bare, has_printable_rest, may_be_typed, may_be_appended, may_be_put_in, insertion_way, way_if_bare, show_inserted_effect, insert_char, insert_text, clusters_replaced};

    /// Whether neither a hint nor a highlighted character is shown.
    pub(crate) fn is_bare(&self) -> bool
        ensures { result ≡ is_bare (value_of self.now) }
    {
        self.hint.is_none() && !self.highlight_char
    }

    /// Whether the cursor is at the end of a plain text.
    pub(crate) fn is_at_plain_end(&self) -> bool
        ensures { result ≡ at_plain_end self.now.recorded.line.text self.now.recorded.line.place }
    {
        self.recorded.line.is_cursor_at_end() && self.recorded.plain
    }

    /// Whether the cursor is at the end of a plain text, or one with tabs if these are drawn.
    fn is_at_simple_end(&self) -> bool
        ensures { result ≡ at_simple_end (is_some (setting_of self.now).tabs)
            self.now.recorded.line.text self.now.recorded.line.place }
    {
        self.recorded.line.is_cursor_at_end()
            && (self.recorded.plain
                || self.out.tab_stops().is_some() && is_simple(self.recorded.line.as_str()))
    }

    /// Whether a character's byte alone may show it: a single printable character, typed at the end
    /// of a line that is bare and plain, or has tabs if these are drawn.
    fn may_be_typed(&self, ch: char, n: RepeatCount) -> bool
        ensures { result ≡ may_be_typed (is_some (setting_of self.now).tabs) ch n
            (value_of self.now) }
    {
        n == 1 && self.is_bare() && is_printable(ch) && self.is_at_simple_end()
    }

    /// Whether a character stands apart from the line's end. The end of a plain line isn't
    /// examined.
    fn is_apart_from_end(&self, ch: char) -> bool
        ensures { result ≡ stands_apart self.now.recorded.line.text ch }
    {
        self.recorded.plain && is_printable(ch) || stands_apart(self.recorded.line.as_str(), ch)
    }

    /// Whether a character's own drawing alone may show it: a single character, typed apart from a
    /// bare line at whose end the cursor is, if lines may be drawn in part.
    fn may_be_appended(&self, ch: char, n: RepeatCount) -> bool
        ensures { result ≡ may_be_appended (setting_of self.now).config.partial_redraw ch n
            (value_of self.now) }
    {
        self.config.partial_redraw()
            && n == 1
            && self.is_bare()
            && self.recorded.line.is_cursor_at_end()
            && self.is_apart_from_end(ch)
    }

    /// Whether the text after the cursor is printable characters.
    pub(crate) fn has_printable_rest(&self) -> bool
        ensures { result ≡ has_printable_rest self.now.recorded.line }
    {
        let pos = self.recorded.line.pos();
        is_printable_text(&self.recorded.line.as_str()[pos..])
    }

    /// Whether moving the rest of the line may show a character: a single printable one, put before
    /// the end of a line that is bare and plain, in its last row, if lines may be drawn in part.
    fn may_be_put_in(&self, ch: char, n: RepeatCount) -> bool
        ensures { result ≡ may_be_put_in (setting_of self.now).config.partial_redraw ch n
            (value_of self.now) }
    {
        self.config.partial_redraw()
            && n == 1
            && self.is_bare()
            && is_printable(ch)
            && self.recorded.line.pos() < self.recorded.line.len()
            && self.recorded.plain
            && self.has_printable_rest()
    }

    /// How a character that is to be inserted may be shown.
    fn insertion_way(&self, ch: char, n: RepeatCount) -> Way
        ensures { result ≡ insertion_way (setting_of self.now) ch n (value_of self.now) }
    {
        if self.may_be_appended(ch, n) {
            Way::Alone
        } else if self.may_be_typed(ch, n) {
            Way::AtEnd
        } else if self.may_be_put_in(ch, n) {
            Way::Inside
        } else {
            Way::Whole
        }
    }

    /// The way, if the line is still bare.
    pub(crate) fn way_if_bare(&self, way: Way) -> Way
        ensures { result ≡ way_if_bare way (value_of self.now) }
    {
        if self.is_bare() { way } else { Way::Whole }
    }

    /// Shows an inserted character in this way, if the line is still bare, with a new hint. Else
    /// the line is drawn, from a place on if it may be.
    fn show_inserted(
        &mut self,
        ch: char,
        way: Way,
        since: &Option<Since<'_>>,
    ) -> Result<(), ReadlineError>
        ensures does { Does (show_inserted_effect ch way since.now) self.old self.new result }
    {
        self.ask_anew()?;
        match self.way_if_bare(way) {
            Way::AtEnd => self.show_short_typed(ch),
            Way::Alone => self.show_appended(ch),
            Way::Inside => self.show_put_in(ch),
            Way::Back(_) | Way::Whole => self.draw_since(since),
        }
    }

    /// Inserts a character `n` times. At the end of the line only its byte is written, if that
    /// shows it.
    pub fn edit_insert(&mut self, ch: char, n: RepeatCount) -> Result<(), ReadlineError>
        ensures does { Does (insert_char ch n) self.old self.new result }
    {
        if self.highlight_char {
            return self.insert_in_styles(ch, n);
        }
        self.insert_noted(ch, n, None)
    }

    /// The same in a line with styles, whose first spans are noted. Not inlined, so that other
    /// lines need no frame for them.
    #[inline(never)]
    fn insert_in_styles(&mut self, ch: char, n: RepeatCount) -> Result<(), ReadlineError>
        ensures does { Does (insert_char ch n) self.old self.new result }
    {
        let noted = self.line_spans(self.recorded.line.pos());
        self.insert_noted(ch, n, noted.as_ref())
    }

    /// The same by the first spans of the line, if it has styles.
    #[inline]
    fn insert_noted(
        &mut self,
        ch: char,
        n: RepeatCount,
        noted: Option<&FirstSpans>,
    ) -> Result<(), ReadlineError>
        requires noted { AreNoted (setting_of self.old) self.old.recorded.line.place
            (value_of self.old) noted }
        ensures does { Does (insert_char ch n) self.old self.new result }
    {
        let way = self.insertion_way(ch, n);
        let pos = self.recorded.line.pos();
        let since = self.since(pos, noted);
        let known = known_within(pos, self.known);
        self.known = None;
        let inserted = self.recorded.insert_char(self.alloc, ch, n)?;
        self.known = known;
        if inserted.is_none() {
            return Ok(());
        }
        self.show_inserted(ch, way, &since)
    }

    /// Inserts a text at the cursor, which stays before it.
    pub fn edit_insert_text(&mut self, text: &str) -> Result<(), ReadlineError>
        ensures does { Does (insert_text text.now) self.old self.new result }
    {
        if self.highlight_char {
            return self.insert_text_in_styles(text);
        }
        self.insert_text_noted(text, None)
    }

    /// The same in a line with styles, whose first spans are noted. Not inlined, so that other
    /// lines need no frame for them.
    #[inline(never)]
    fn insert_text_in_styles(&mut self, text: &str) -> Result<(), ReadlineError>
        ensures does { Does (insert_text text.now) self.old self.new result }
    {
        let noted = self.line_spans(self.recorded.line.pos());
        self.insert_text_noted(text, noted.as_ref())
    }

    /// The same by the first spans of the line, if it has styles.
    #[inline]
    fn insert_text_noted(
        &mut self,
        text: &str,
        noted: Option<&FirstSpans>,
    ) -> Result<(), ReadlineError>
        requires noted { AreNoted (setting_of self.old) self.old.recorded.line.place
            (value_of self.old) noted }
        ensures does { Does (insert_text text.now) self.old self.new result }
    {
        if text.is_empty() {
            return Ok(());
        }
        let pos = self.recorded.line.pos();
        let since = self.since(pos, noted);
        let known = known_within(pos, self.known);
        self.known = None;
        self.recorded.insert_text(self.alloc, text)?;
        self.known = known;
        self.refresh_since(&since)
    }

    /// Replaces up to `n` clusters after the cursor by a character each.
    pub fn edit_replace_char(&mut self, ch: char, n: RepeatCount) -> Result<(), ReadlineError>
        ensures does { Does (clusters_replaced n (replace_group_if_any ch n)) self.old self.new
            result }
    {
        if self.highlight_char {
            return self.replace_char_in_styles(ch, n);
        }
        self.replace_char_noted(ch, n, None)
    }

    /// The same in a line with styles, whose first spans are noted. Not inlined, so that other
    /// lines need no frame for them.
    #[inline(never)]
    fn replace_char_in_styles(&mut self, ch: char, n: RepeatCount) -> Result<(), ReadlineError>
        ensures does { Does (clusters_replaced n (replace_group_if_any ch n)) self.old self.new
            result }
    {
        let noted = self.line_spans(self.recorded.line.pos());
        self.replace_char_noted(ch, n, noted.as_ref())
    }

    /// The same by the first spans of the line, if it has styles.
    #[inline]
    fn replace_char_noted(
        &mut self,
        ch: char,
        n: RepeatCount,
        noted: Option<&FirstSpans>,
    ) -> Result<(), ReadlineError>
        requires noted { AreNoted (setting_of self.old) self.old.recorded.line.place
            (value_of self.old) noted }
        ensures does { Does (clusters_replaced n (replace_group_if_any ch n)) self.old self.new
            result }
    {
        let pos = self.recorded.line.pos();
        let since = self.since(pos, noted);
        let known = known_within(pos, self.known);
        self.known = None;
        let replaced = self.recorded.replace_chars(self.alloc, ch, n)?;
        self.known = known;
        if replaced {
            self.refresh_since(&since)
        } else {
            Ok(())
        }
    }

    /// Overwrites the cluster at the cursor with a character.
    pub fn edit_overwrite_char(&mut self, ch: char) -> Result<(), ReadlineError>
        ensures does { Does (clusters_replaced 1 (overwrite_steps ch)) self.old self.new result }
    {
        if self.highlight_char {
            return self.overwrite_char_in_styles(ch);
        }
        self.overwrite_char_noted(ch, None)
    }

    /// The same in a line with styles, whose first spans are noted. Not inlined, so that other
    /// lines need no frame for them.
    #[inline(never)]
    fn overwrite_char_in_styles(&mut self, ch: char) -> Result<(), ReadlineError>
        ensures does { Does (clusters_replaced 1 (overwrite_steps ch)) self.old self.new result }
    {
        let noted = self.line_spans(self.recorded.line.pos());
        self.overwrite_char_noted(ch, noted.as_ref())
    }

    /// The same by the first spans of the line, if it has styles.
    #[inline]
    fn overwrite_char_noted(
        &mut self,
        ch: char,
        noted: Option<&FirstSpans>,
    ) -> Result<(), ReadlineError>
        requires noted { AreNoted (setting_of self.old) self.old.recorded.line.place
            (value_of self.old) noted }
        ensures does { Does (clusters_replaced 1 (overwrite_steps ch)) self.old self.new result }
    {
        let pos = self.recorded.line.pos();
        let since = self.since(pos, noted);
        let known = known_within(pos, self.known);
        self.known = None;
        let written = self.recorded.overwrite(self.alloc, ch)?;
        self.known = known;
        if written {
            self.refresh_since(&since)
        } else {
            Ok(())
        }
    }
}
