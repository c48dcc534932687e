//! Kills texts, and copies texts into the ring.
ghost use Rattle.std.specs.Prelude.{◌≡◌, ◌&&◌, if◌then◌else◌, nat_lt, OnOk, IfErr, IfSome, IsCharBoundary, length, drop, is_some, IsTrue};
ghost use Rattle.line_buffer.specs.Range.{FindsSpan, IsSpanOf, copied_range, deletion_line, range_of};
ghost use Rattle.line_config.specs.declared.errors.ReadlineError.{ReadlineError};
ghost use Rattle.line_buffer.specs.Printable.{at_plain_end, is_printable};
ghost use Rattle.std.specs.List.{list_all};
ghost use Rattle.std.specs.Option.{option_map_or};
ghost use Rattle.line_editor.specs.declared.way.Way.TheVariants.{AtEnd, Inside};
ghost use Rattle.line_keys.specs.declared.command.Cmd.TheVariants.{Kill, ViYankTo};
ghost use Rattle.line_editor.specs.Values.{no_effect};

use crate::characters::{last_char, stands_apart};
use crate::measured::known_within;
use crate::renderer::Renderer;
use crate::shared_styles::{FirstSpans, Since};
use crate::state::State;
use crate::way::Way;
use line_buffer::{Mode, Movement, TextSpan, is_printable_text};
use line_config::ReadlineError;
use line_help::{Helper, History};
use line_keys::Text;
use line_record::KillRing;

impl<'p, 'h, Out: Renderer, H: Helper + Drop, Hi: History> State<'p, 'h, Out, H, Hi> {
    ghost use Rattle.line_editor.specs.States.{value_of, setting_of, Does, Stays};
    ghost use Rattle.line_editor.specs.Drawing.{AreNoted};
    ghost use Rattle.line_editor.specs.Inserting.{has_printable_rest, insert_text};
    ghost use Rattle.line_editor.specs.Killing.{may_be_taken, may_be_taken_out, text_gone, last_of_bare, way_erased, show_killed_effect, kill_way, kill_effect, replace};
    ghost use Rattle.line_editor.specs.Commands.{ring_after_command, CutRing};

    /// Whether erasing the rest of the row may show the kill of a range: printable characters,
    /// deleted from a bare line.
    fn may_be_taken(&self, span: Option<TextSpan>) -> bool
        requires { IfSome span (λ s. IsSpanOf self.now.recorded.line.text s) }
        ensures { let left = (deletion_line span self.now.recorded.line).text in
            result ≡ may_be_taken (drop (length left) self.now.recorded.line.text)
            (value_of self.now) }
    {
        self.is_bare() && self.recorded.line.has_printable_end(span)
    }

    /// Whether moving the rest of the line may show the kill of a range: printable characters,
    /// deleted from a bare and plain line, if lines may be drawn in part.
    fn may_be_taken_out(&self, span: Option<TextSpan>) -> bool
        requires { IfSome span (λ s. IsSpanOf self.now.recorded.line.text s) }
        ensures { let line = self.now.recorded.line in
            result ≡ may_be_taken_out (setting_of self.now).config.partial_redraw
            (text_gone line (deletion_line span line)) (value_of self.now) }
    {
        self.config.partial_redraw()
            && self.is_bare()
            && self.recorded.plain
            && self.is_printable_range(span)
    }

    /// Whether a range has printable characters only.
    fn is_printable_range(&self, span: Option<TextSpan>) -> bool
        requires { IfSome span (λ s. IsSpanOf self.now.recorded.line.text s) }
        ensures { let line = self.now.recorded.line in
            result ≡ list_all is_printable (text_gone line (deletion_line span line)) }
    {
        match span {
            Some(span) => is_printable_text(&self.recorded.line.as_str()[span.from..span.upto]),
            None => true,
        }
    }

    /// The last character of a bare line, if lines may be drawn in part.
    fn last_of_bare(&self) -> Option<char>
        ensures { result ≡ last_of_bare (setting_of self.now).config.partial_redraw
            (value_of self.now) }
    {
        if self.config.partial_redraw() && self.is_bare() {
            last_char(self.recorded.line.as_str())
        } else {
            None
        }
    }

    /// Whether erasing the cells of the line's last character may show a kill of `count` bytes that
    /// left this line.
    fn way_erased(&self, last: Option<char>, count: usize) -> Way
        ensures { result ≡ way_erased count self.now.recorded.line last }
    {
        let line = &self.recorded.line;
        match last {
            Some(ch)
                if line.is_cursor_at_end()
                    && count == ch.len_utf8()
                    && stands_apart(line.as_str(), ch) => { Way::Back(ch) }
            _ => Way::Whole,
        }
    }

    /// How a kill of `count` bytes may be shown that left this line: `alone` and `inside` say what
    /// its text and the line before allow, whose last character is `last`.
    fn kill_way(&self, alone: bool, inside: bool, last: Option<char>, count: usize) -> Way
        ensures { let line = self.now.recorded.line in
            result ≡ (if alone && at_plain_end line.text line.place then AtEnd
            else if inside && (nat_lt 0 count
            && (nat_lt line.place (length line.text) && has_printable_rest line)) then Inside
            else way_erased count line last) }
    {
        if alone && self.is_at_plain_end() {
            Way::AtEnd
        } else if inside
            && 0 < count
            && self.recorded.line.pos() < self.recorded.line.len()
            && self.has_printable_rest()
        {
            Way::Inside
        } else {
            self.way_erased(last, count)
        }
    }

    /// The place at which a kill of a range leaves the cursor.
    fn place_of_kill(&self, span: Option<TextSpan>) -> usize
        requires { IfSome span (λ s. IsSpanOf self.now.recorded.line.text s) }
        ensures value { result ≡ (deletion_line span self.now.recorded.line).place }
        ensures boundary { IsCharBoundary self.now.recorded.line.text result }
    {
        match span {
            Some(span) => span.from,
            None => self.recorded.line.pos(),
        }
    }

    /// Whether the known place follows a kill back: over characters of a plain line, each of which
    /// is a byte, or if the drawing has several rows and the line may be drawn from the kill on.
    /// Else a kill over a row break would measure the line from its start.
    fn known_follows(&self, movement: &Movement, since: &Option<Since<'_>>) -> bool {
        if since.is_some() && 0 < self.layout.end.row {
            return true;
        }
        self.recorded.plain && matches!(movement, Movement::BackwardChar(_))
    }

    /// Shows that `count` bytes were killed in this way, if the line is still bare, with a new
    /// hint. Else the line is drawn, from a place on if it may be.
    fn show_killed(
        &mut self,
        count: usize,
        way: Way,
        since: &Option<Since<'_>>,
    ) -> Result<(), ReadlineError>
        ensures does { Does (show_killed_effect count way since.now) self.old self.new result }
    {
        self.ask_anew()?;
        match self.way_if_bare(way) {
            Way::AtEnd => self.show_short_taken(count),
            Way::Back(ch) => self.show_erased(ch),
            Way::Inside => self.show_taken_out(count),
            Way::Alone | Way::Whole => self.draw_since(since),
        }
    }

    /// Kills what a movement names. The ring is notified first, the record last. At the end of the
    /// line the killed text is only erased, if that is enough.
    ///
    /// If memory for the kill runs out, the line and its record stay. So does the ring, except that
    /// it has the killed text if only the record's allocation failed. If the hint or the drawing
    /// fails, the kill is made.
    pub fn edit_kill(
        &mut self,
        movement: &Movement,
        ring: &mut KillRing,
    ) -> Result<(), ReadlineError>
        ensures does { Does (kill_effect movement.now) self.old self.new result }
        ensures ring { OnOk result
            (ring.new ≡ ring_after_command (Kill movement.now) (value_of self.old) ring.old) }
        ensures refused_ring { IfErr result
            (CutRing (Kill movement.now) (value_of self.old) ring.old ring.new) }
    {
        let span = self.recorded.line.range_of(movement);
        if self.highlight_char {
            return self.kill_in_styles(movement, span, ring);
        }
        self.kill_noted(movement, span, ring, None)
    }

    /// The same in a line with styles, whose first spans are noted. Not inlined, so that other
    /// lines need no frame for them.
    #[inline(never)]
    fn kill_in_styles(
        &mut self,
        movement: &Movement,
        span: Option<TextSpan>,
        ring: &mut KillRing,
    ) -> Result<(), ReadlineError>
        requires span { let line = self.old.recorded.line in
            FindsSpan (range_of movement.now line) line.text span }
        ensures does { Does (kill_effect movement.now) self.old self.new result }
        ensures ring { OnOk result
            (ring.new ≡ ring_after_command (Kill movement.now) (value_of self.old) ring.old) }
        ensures refused_ring { IfErr result
            (CutRing (Kill movement.now) (value_of self.old) ring.old ring.new) }
    {
        let noted = self.line_spans(self.place_of_kill(span));
        self.kill_noted(movement, span, ring, noted.as_ref())
    }

    /// The same by the first spans of the line, if it has styles.
    #[inline]
    fn kill_noted(
        &mut self,
        movement: &Movement,
        span: Option<TextSpan>,
        ring: &mut KillRing,
        noted: Option<&FirstSpans>,
    ) -> Result<(), ReadlineError>
        requires span { let line = self.old.recorded.line in
            FindsSpan (range_of movement.now line) line.text span }
        requires noted { let line = deletion_line span self.old.recorded.line in
            AreNoted (setting_of self.old) line.place (value_of self.old) noted }
        ensures does { Does (kill_effect movement.now) self.old self.new result }
        ensures ring { OnOk result
            (ring.new ≡ ring_after_command (Kill movement.now) (value_of self.old) ring.old) }
        ensures refused_ring { IfErr result
            (CutRing (Kill movement.now) (value_of self.old) ring.old ring.new) }
    {
        let alone = self.may_be_taken(span);
        let inside = self.may_be_taken_out(span);
        let last = self.last_of_bare();
        let place = self.place_of_kill(span);
        let since = self.since(place, noted);
        let before = self.recorded.line.len();
        let follows = self.known_follows(movement, &since);
        let known = self.known_before(follows, place);
        self.known = None;
        let killed = self.recorded.kill_range(self.alloc, ring, movement, span)?;
        self.known = known_within(self.recorded.line.pos(), known);
        if !killed {
            return Ok(());
        }
        let count = before - self.recorded.line.len();
        let way = self.kill_way(alone, inside, last, count);
        self.show_killed(count, way, &since)
    }

    /// Inserts a text at the cursor, if there is one.
    fn insert_some(&mut self, text: &Option<Text>) -> Result<(), ReadlineError>
        ensures does { Does (option_map_or insert_text text.now no_effect) self.old self.new
            result }
    {
        if let Some(text) = text {
            self.edit_insert_text(text.as_str())
        } else {
            Ok(())
        }
    }

    /// Kills what a movement names, and inserts a text there.
    pub(crate) fn edit_replace(
        &mut self,
        movement: &Movement,
        text: &Option<Text>,
        ring: &mut KillRing,
    ) -> Result<(), ReadlineError>
        ensures does { Does (replace movement.now text.now) self.old self.new result }
        ensures ring { OnOk result
            (ring.new ≡ ring_after_command (Kill movement.now) (value_of self.old) ring.old) }
        ensures refused_ring { IfErr result
            (CutRing (Kill movement.now) (value_of self.old) ring.old ring.new) }
    {
        self.edit_kill(movement, ring)?;
        self.insert_some(text)
    }

    /// Copies what a movement names into the ring.
    pub(crate) fn copy_to_ring(
        &self,
        movement: &Movement,
        ring: &mut KillRing,
    ) -> Result<(), ReadlineError>
        ensures ring { OnOk result
            (ring.new ≡ ring_after_command (ViYankTo movement.now) (value_of self.now) ring.old) }
        ensures refused { IfErr result (λ e. (e ≡ ReadlineError.Memory) × (ring.new ≡ ring.old)
            × IsTrue (is_some (copied_range movement.now (value_of self.now).line))) }
    {
        if let Some(text) = self.recorded.line.copy(self.alloc, movement)? {
            ring.kill(self.alloc, text.as_str(), Mode::Append)?;
        }
        Ok(())
    }
}
