//! Draws a line from a place on.
ghost use Rattle.std.specs.Prelude.{◌≡◌, IfSome, None, Some, if◌then◌else◌, IsCharBoundary, ◌&&◌};
ghost use Rattle.line_editor.specs.Characters.{begins_apart_at};

use crate::characters::begins_apart_at;
use crate::drawing::{display_of, highlighter_of, tells};
use crate::renderer::{RefreshKind, Renderer};
use crate::shared_styles::{FirstSpans, Since, first_spans};
use crate::state::State;
use line_config::ReadlineError;
use line_help::{Helper, History, Part};

impl<'p, 'h, Out: Renderer, H: Helper + Drop, Hi: History> State<'p, 'h, Out, H, Hi> {
    ghost use Rattle.line_editor.specs.States.{value_of, setting_of, Does, Renders};
    ghost use Rattle.line_editor.specs.Drawing.{AreNoted, kept_upto, line_spans, since, draw_effect_since, refresh_effect_since};
    ghost use Rattle.line_editor.specs.Redraws.Redraw.{DrawnFrom};
    ghost use Rattle.line_editor.specs.SharedStyles.{noted_styles, told_styles};
    ghost use Rattle.line_editor.specs.Values.{draw_effect, shown_hint};

    /// The first spans of the line, for the styles of so many of its bytes, if it is drawn with
    /// styles.
    #[inline(never)]
    pub(crate) fn line_spans(&self, upto: usize) -> Option<FirstSpans>
        ensures { noted_styles upto result
            ≡ told_styles upto (line_spans (setting_of self.now) (value_of self.now)) }
    {
        if !self.highlight_char {
            return None;
        }
        let line = &self.recorded.line;
        let highlighter = highlighter_of(&self.helper, self.out.colors_enabled())?;
        Some(first_spans(highlighter, Part::Line(line.pos()), line.as_str(), upto))
    }

    /// The place up to which a change is to leave the line, with the line's styles up to there, if
    /// the line may be drawn from there on, and in part.
    pub(crate) fn since<'s>(&self, from: usize, noted: Option<&'s FirstSpans>) -> Option<Since<'s>>
        requires noted { AreNoted (setting_of self.now) from (value_of self.now) noted }
        ensures { result ≡ since (setting_of self.now) from (value_of self.now) }
    {
        if self.config.partial_redraw() && begins_apart_at(self.recorded.line.as_str(), from) {
            Some(Since::new(from, noted))
        } else {
            None
        }
    }

    /// The place up to which the line surely keeps its text and its styles.
    fn kept_upto(&self, since: &Since<'_>) -> usize
        ensures { result ≡ kept_upto since.now (setting_of self.now) (value_of self.now) }
    {
        if since.is_plain() && !self.highlight_char {
            return since.from();
        }
        self.kept_in_styles(since)
    }

    /// The same, if the line has or had styles. Not inlined, so that other lines need no frame for
    /// the spans.
    #[inline(never)]
    fn kept_in_styles(&self, since: &Since<'_>) -> usize
        ensures { result ≡ kept_upto since.now (setting_of self.now) (value_of self.now) }
    {
        since.kept_upto(&self.line_spans(since.from()))
    }

    /// The same place, if the line may be drawn from there on.
    fn place_since(&self, since: &Since<'_>) -> Option<usize>
        ensures place { let kept = kept_upto since.now (setting_of self.now) (value_of self.now) in
            let text = self.now.recorded.line.text in
            result ≡ (if begins_apart_at text since.now.from && begins_apart_at text kept
            then Some kept else None) }
        ensures boundary { IfSome result (IsCharBoundary self.now.recorded.line.text) }
    {
        let text = self.recorded.line.as_str();
        if !begins_apart_at(text, since.from()) {
            return None;
        }
        let kept = self.kept_upto(since);
        if begins_apart_at(text, kept) {
            Some(kept)
        } else {
            None
        }
    }

    /// Draws the line from a place on, before which it is as it was drawn, with the current hint.
    pub(crate) fn draw_from(&mut self, from: usize) -> Result<(), ReadlineError>
        requires boundary { IsCharBoundary self.old.recorded.line.text from }
        ensures { Renders (λ s v. draw_effect
            (DrawnFrom s.prompt from v.line.text v.line.place (shown_hint v)) s v)
            self.old self.new result }
    {
        let pos = self.recorded.line.pos();
        let at = self.position_at(from);
        let layout = self.layout_from((from, at));
        let recorded = &self.recorded;
        let line = &recorded.line;
        let info = display_of(&self.hint);
        let highlighter = highlighter_of(&self.helper, self.out.colors_enabled());
        let told = tells(&self.hint);
        self.known = None;
        self.out.refresh_rest(
            line,
            from,
            info,
            self.layout.cursor,
            at,
            &layout,
            highlighter,
            self.highlight_char,
            told,
        )?;
        self.layout = layout;
        self.known = Some((pos, self.layout.cursor));
        Ok(())
    }

    /// Draws the line with the current hint: from a place on if a change left the line and its
    /// styles up to there and it may be drawn so, else in full.
    pub(crate) fn draw_since(&mut self, since: &Option<Since<'_>>) -> Result<(), ReadlineError>
        ensures { Renders (draw_effect_since since.now) self.old self.new result }
    {
        if let Some(since) = since {
            if let Some(from) = self.place_since(since) {
                return self.draw_from(from);
            }
        }
        self.repaint(RefreshKind::All)
    }

    /// The same with a new hint.
    pub(crate) fn refresh_since(&mut self, since: &Option<Since<'_>>) -> Result<(), ReadlineError>
        ensures does { Does (refresh_effect_since since.now) self.old self.new result }
    {
        self.ask_anew()?;
        self.draw_since(since)
    }
}
