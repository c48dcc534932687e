//! Laws of the editor. Each is the contract of a function that does nothing.

ghost use Rattle.line_editor.specs.Leads.{CommandsLead, SubmittingLeads, AsksLead, EachTurnLeads, LinesLead};
ghost use Rattle.line_editor.specs.Leads.{Sound};
ghost use Rattle.line_editor.specs.ModalCommands.{OffPasses};
ghost use Rattle.line_editor.specs.Returns.{ComesBack, UndoReaches, UndoesAll, GivesBack, GivesWordBack};
ghost use Rattle.line_editor.specs.States.{value_of};

use crate::renderer::Renderer;
use crate::state::State;
use line_help::{Helper, History};

/// The drawings of a command lead from a display that shows the value before to one that shows the
/// value after. Nothing of an older drawing is left.
pub fn commands_lead()
    ensures { CommandsLead }
{}

/// An accepted line leaves the cursor at the end of its drawing.
pub fn submitting_leads()
    ensures { SubmittingLeads }
{}

/// The calls of the key tables lead to a display that shows the value, whatever it showed before.
pub fn asks_lead()
    ensures { AsksLead }
{}

/// From a display that shows the value, with any information, a turn leads to one that shows the
/// value after it.
pub fn turn_leads()
    ensures { EachTurnLeads }
{}

/// Whatever the input is, the requests of a line lead, drawing after drawing, from a display
/// without the line. At the begin of each turn its value is shown. An accepted line leaves the
/// cursor at the end of its drawing.
pub fn lines_lead()
    ensures { LinesLead }
{}

/// If a step back or to the first entry leaves the history's end, and the line comes back to it
/// without a search, then line and cursor are as they were.
pub fn come_back()
    ensures { ComesBack }
{}

/// An undo by as many items as the record has, or more, restores the text on which the record
/// begins.
pub fn undo_reaches()
    ensures { UndoReaches }
{}

/// Whatever commands and calls change a line after its record was empty, an undo by as many items
/// as are recorded, or more, restores the text of that time. For a new line it is empty. Each
/// command or call begins on a sound line.
pub fn undo_all()
    ensures { UndoesAll }
{}

/// A search that is given up, wherever it went, leaves the line, its cursor and what can be undone
/// as they were, except that open groups are closed.
pub fn give_back()
    ensures { GivesBack }
{}

/// Candidates in turn that are given up, whichever was put last, leave the line, its cursor and
/// what can be undone as they were, except that open groups are closed.
pub fn give_word_back()
    ensures { GivesWordBack }
{}

/// With the setting off each command is done as it comes.
pub fn off_passes()
    ensures { OffPasses }
{}

/// Each line of a state is sound: its text is UTF-8, and its cursor at a character boundary.
pub fn lines_are_sound<Out: Renderer, H: Helper + Drop, Hi: History>(
    state: &State<'_, '_, Out, H, Hi>,
)
    ensures { Sound (value_of state.now) }
{
    let line = &state.recorded.line;
    // for the proof: the contracts of these calls say it
    let _text = line.as_str();
    let _place = line.pos();
}
