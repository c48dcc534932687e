//! Laws of the record and of the kill ring. Each is the contract of a function that does nothing.

ghost use Rattle.line_record.specs.Together.{RefusalsLeaveNoUnmadeChange};
ghost use Rattle.line_record.specs.Laws.{UndoLeavesAnEarlierText, UndoOfAllGivesTheFirstText, RecordGivesTheText, EmptyGroupLeavesNothing, RedoGivesTheTextBack, UndoTakesTheGroupBack, KillsComeBack, RingHoldsTheLastRuns};

use line_buffer::DeleteListener;

/// Whatever is done to a line with a new record, an undo leaves a text that the line had before.
pub fn earlier_texts()
    ensures { UndoLeavesAnEarlierText }
{}

/// Whatever is done to a line with a new record, undoing everything restores the first text.
pub fn first_text()
    ensures { UndoOfAllGivesTheFirstText }
{}

/// The recorded changes, made on the text before the first of them, lead to the line's text.
pub fn replay()
    ensures { RecordGivesTheText }
{}

/// A group in which nothing was recorded leaves the record as it was.
pub fn empty_group()
    ensures { EmptyGroupLeavesNothing }
{}

/// One undo right after the end of a group restores the text and the record from before the group.
/// The group must not be nested, and must have recorded a change.
pub fn undone_group()
    ensures { UndoTakesTheGroupBack }
{}

/// A redo right after the undo of one item restores the text and the record from before the undo.
pub fn undo_redo()
    ensures { RedoGivesTheTextBack }
{}

/// Of two listeners, the last of which is a record: after an error the record holds no change that
/// the line didn't make.
pub fn refusals<A: DeleteListener>()
    ensures { RefusalsLeaveNoUnmadeChange A.takes A.refuses }
{}

/// A run of kills from the cursor or up to it, and then one yank, restore the text if the kills
/// deleted something. The line must be able to grow, and the ring must have slots and not end in a
/// kill.
pub fn kills()
    ensures { KillsComeBack }
{}

/// A ring that has slots and is never turned holds the last runs of kills, as many as it has slots,
/// and a yank returns the newest.
pub fn last_runs()
    ensures { RingHoldsTheLastRuns }
{}
