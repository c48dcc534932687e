//! Starts lines.
ghost use Rattle.std.specs.Prelude.{◌≡◌, [], true, false, None, IfOk, IfErr, if◌then◌else◌, option_copied};
ghost use Rattle.line_config.specs.declared.errors.ReadlineError.TheVariants.{Memory};
ghost use Rattle.line_record.specs.Items.{no_items};

use crate::drawing::highlighter_of;
use crate::renderer::Renderer;
use crate::saved::SavedLine;
use crate::state::State;
use line_buffer::{Layout, LineBuffer, MAX_LINE};
use line_config::{Config, ReadlineError};
use line_edits::RecordedLine;
use line_help::{Context, Helper, History};
use line_record::Changeset;
use std::alloc::Global;

/// An empty line that may grow without limit, with nothing recorded.
pub(crate) fn empty_line(alloc: Global) -> Result<RecordedLine, ReadlineError>
    ensures line { IfOk result
        (λ r. r.line ≡ record { text = []; place = 0; growth = true; limit = 4096 }) }
    ensures changes { IfOk result (λ r. r.changes ≡ no_items) }
    ensures reason { IfErr result (λ e. e ≡ Memory) }
{
    let line = LineBuffer::with_capacity(alloc, MAX_LINE)?.can_growth(true);
    Ok(RecordedLine::new(line, Changeset::new(alloc)?))
}

impl<'p, 'h, Out: Renderer, H: Helper + Drop, Hi: History> State<'p, 'h, Out, H, Hi> {
    ghost use Rattle.line_editor.specs.States.{value_of, Starts};
    ghost use Rattle.line_keys.specs.declared.command.CmdKind.TheVariants.{Other};

    /// The state of an empty line with nothing drawn, at a place in the history.
    pub fn new(
        alloc: Global,
        out: Out,
        prompt: &'p str,
        helper: Option<H>,
        ctx: Context<'h, Hi>,
        config: &'p Config,
    ) -> Result<Self, ReadlineError>
        ensures starts { IfOk result (λ s.
            Starts out prompt.now helper ctx.entry.history.now ctx.entry.place config.now s) }
        ensures reason { IfErr result (λ e. e ≡ Memory) }
    {
        let recorded = empty_line(alloc)?;
        Ok(State::of_parts(alloc, recorded, out, prompt, helper, ctx, config))
    }

    /// The same with a given empty line, so that it takes no memory.
    pub(crate) fn of_parts(
        alloc: Global,
        recorded: RecordedLine,
        out: Out,
        prompt: &'p str,
        helper: Option<H>,
        ctx: Context<'h, Hi>,
        config: &'p Config,
    ) -> Self
        requires line { recorded.line
            ≡ record { text = []; place = 0; growth = true; limit = 4096 } }
        requires changes { recorded.changes ≡ no_items }
        ensures { Starts out prompt.now helper ctx.entry.history.now ctx.entry.place config.now
            result }
    {
        let layout = Layout::new(out.grapheme_cluster_mode());
        State {
            out,
            recorded,
            layout,
            helper,
            ctx,
            hint: None,
            highlight_char: false,
            prompt,
            config,
            saved: SavedLine::empty(alloc),
            known: None,
            alloc,
        }
    }

    /// The helper, if the display has colours.
    pub fn highlighter(&self) -> Option<&H>
        ensures { option_copied result
            ≡ (if (Out.canvas.ruler self.now.out).colours then self.now.helper else None) }
    {
        highlighter_of(&self.helper, self.out.colors_enabled())
    }

    /// Whether the prompt that was drawn last is the line's own.
    pub fn is_default_prompt(&self) -> bool
        ensures { result ≡ self.now.layout.default_prompt }
    {
        self.layout.default_prompt
    }
}
