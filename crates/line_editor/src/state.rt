//! The state of an edited line.
ghost use Rattle.line_editor.specs.RenderCalls.{IsKnown-prop, IsKnown};

use crate::renderer::Renderer;
use crate::saved::SavedLine;
use line_buffer::{Layout, Position};
use line_config::Config;
use line_edits::RecordedLine;
use line_help::{Context, Helper, History};
use std::alloc::Global;

/// A line with its record, its display, helper and place in the history.
#[derive(Drop)]
pub struct State<'p, 'h, Out: Renderer, H: Helper + Drop, Hi: History> {
    /// Draws the line.
    pub out: Out,
    /// The line and its undo record.
    pub recorded: RecordedLine,
    /// The positions of the parts of the last drawing.
    pub layout: Layout,
    pub helper: Option<H>,
    /// The history, and the place in it.
    pub ctx: Context<'h, Hi>,
    /// The hint after the line.
    pub hint: Option<H::Hint>,
    /// Whether a character was highlighted when the helper was last called for it.
    pub highlight_char: bool,
    pub(crate) prompt: &'p str,
    pub(crate) config: &'p Config,
    pub(crate) saved: SavedLine,
    /// A place in the line, and where the drawing of the line up to it ends, if that is known for
    /// one.
    pub(crate) known: Option<(usize, Position)>,
    pub(crate) alloc: Global,
    ghost is_known: { IsKnown (Out.canvas.ruler out).measure layout.prompt_size recorded.line.text
        known } by { IsKnown-prop },
}
