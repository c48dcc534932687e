//! Where the drawing of the line up to a place ends, computed from a place for which this is known.
ghost use Rattle.std.specs.Prelude.{◌≡◌, take, IsCharBoundary, IsTrue, None, Some, true, if◌then◌else◌, option_map};
ghost use Rattle.line_editor.specs.RenderCalls.{IsKnown, known_within};
ghost use Rattle.line_editor.specs.Redraws.{layout_of};

use crate::drawing::display_of;
use crate::renderer::Renderer;
use crate::state::State;
use line_buffer::{Layout, Position};
use line_help::{Helper, History};

/// The known place, if it isn't past another one: changes after that one leave it.
pub(crate) fn known_within(
    place: usize,
    known: Option<(usize, Position)>,
) -> Option<(usize, Position)>
    ensures { result ≡ known_within place known }
{
    match known {
        Some((end, _)) if end <= place => known,
        _ => None,
    }
}

impl<'p, 'h, Out: Renderer, H: Helper + Drop, Hi: History> State<'p, 'h, Out, H, Hi> {
    /// Where the drawing of the line up to a place ends.
    pub(crate) fn position_at(&self, place: usize) -> Position
        requires { IsCharBoundary self.now.recorded.line.text place }
        ensures { result ≡ (Out.canvas.ruler self.now.out).measure
            (take place self.now.recorded.line.text) self.now.layout.prompt_size }
    {
        let text = self.recorded.line.as_str();
        let start = self.layout.prompt_size;
        match self.known {
            Some(known) => {
                let plain = self.recorded.plain;
                self.out.position_from(text, start, known, place, plain)
            }
            None => self.out.calculate_position(&text[..place], start),
        }
    }

    /// The layout of the line with its hint, computed from a known place.
    pub(crate) fn layout_from(&self, known: (usize, Position)) -> Layout
        requires known { IsKnown (Out.canvas.ruler self.now.out).measure self.now.layout.prompt_size
            self.now.recorded.line.text (Some known) }
        ensures { let line = self.now.recorded.line in
            result ≡ layout_of (Out.canvas.ruler self.now.out) self.now.layout.prompt_size true
            line.text line.place (option_map (λ h. (H.Hint.says h).display) self.now.hint) }
    {
        let text = self.recorded.line.as_str();
        let pos = self.recorded.line.pos();
        let start = self.layout.prompt_size;
        let plain = self.recorded.plain;
        let cursor = self.out.position_from(text, start, known, pos, plain);
        let end = self
            .out
            .position_from(text, start, (pos, cursor), text.len(), plain);
        let (end, has_info) = match display_of(&self.hint) {
            None => (self.out.calculate_position("", end), false),
            Some(info) => (self.out.calculate_position(info, end), true),
        };
        Layout {
            grapheme_cluster_mode: self.out.grapheme_cluster_mode(),
            prompt_size: start,
            default_prompt: true,
            cursor,
            end,
            has_info,
            tab_stops: self.out.tab_stops(),
        }
    }

    /// A place behind which letters may be written over others, as a known one.
    pub(crate) fn known_over(&self, over: bool, place: usize) -> Option<(usize, Position)>
        requires boundary { IsTrue over → IsCharBoundary self.now.recorded.line.text place }
        ensures { let measured = (Out.canvas.ruler self.now.out).measure
            (take place self.now.recorded.line.text) self.now.layout.prompt_size in
            result ≡ (if over then Some (place, measured) else None) }
    {
        if over {
            Some((place, self.position_at(place)))
        } else {
            None
        }
    }

    /// The known place, or an earlier one in its stead, if it is to `follow` a deletion back there.
    pub(crate) fn known_before(&self, follow: bool, earlier: usize) -> Option<(usize, Position)>
        requires boundary { IsCharBoundary self.now.recorded.line.text earlier }
        ensures { IsKnown (Out.canvas.ruler self.now.out).measure self.now.layout.prompt_size
            self.now.recorded.line.text result }
    {
        match self.known {
            Some((known, _)) if follow && earlier < known => Some((
                earlier,
                self.position_at(earlier),
            )),
            _ => self.known,
        }
    }
}
