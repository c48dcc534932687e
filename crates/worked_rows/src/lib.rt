//! Worked sessions as theorems: the rows of `crates/sessions_program/data`, which
//! `sessions_program` and the program play, are what the definition of a session gives; and worked
//! calls on lines, kill rings and undo records.
//!
//! The kernel computes each of them from the definitions, with no code in between. The records of
//! the rows are written by `tests/definition/worked_rows.py`, which also tells which row is wrong.
#![tactic(auto)]

ghost use Rattle.std.specs.Prelude.{◌≡◌, []};
ghost use Rattle.worked_rows.specs.Calls.{Edits, Motions, Records, Rings};
ghost use Rattle.worked_rows.specs.Candidates.{candidates_rows};
ghost use Rattle.worked_rows.specs.Colours.{colours_rows};
ghost use Rattle.worked_rows.specs.Emacs.{emacs_rows};
ghost use Rattle.worked_rows.specs.Faults.{faults_rows};
ghost use Rattle.worked_rows.specs.Modal.{modal_rows};
ghost use Rattle.worked_rows.specs.Playing.{differing};
ghost use Rattle.worked_rows.specs.Prompts.{prompts_rows};
ghost use Rattle.worked_rows.specs.Refusals.{refusals_rows};
ghost use Rattle.worked_rows.specs.Rows.{rows_rows};
ghost use Rattle.worked_rows.specs.Showing.{AllShown, short};
ghost use Rattle.worked_rows.specs.Partial.{partial_rows};
ghost use Rattle.worked_rows.specs.Tabs.{tabs_rows};
ghost use Rattle.worked_rows.specs.Vi.{vi_rows};
ghost use Rattle.worked_rows.specs.Worked.{worked_rows};

/// The definition gives each row of `emacs.txt`: its lines, its ending, the history's text and the
/// display bytes. At each moment the bytes so far show prompt and line.
pub fn emacs()
    ensures given { differing emacs_rows ≡ [] }
    ensures shown { AllShown (short emacs_rows) }
{}

/// The definition gives each row of `vi.txt`: its lines, its ending, the history's text and the
/// display bytes. At each moment the bytes so far show prompt and line.
pub fn vi()
    ensures given { differing vi_rows ≡ [] }
    ensures shown { AllShown (short vi_rows) }
{}

/// The definition gives each row of `rows.txt`: its lines, its ending, the history's text and the
/// display bytes. At each moment the bytes so far show prompt and line.
pub fn rows()
    ensures given { differing rows_rows ≡ [] }
    ensures shown { AllShown (short rows_rows) }
{}

/// The definition gives each row of `refusals.txt`: its lines, its ending, the history's text and
/// the display bytes. At each moment the bytes so far show prompt and line.
pub fn refusals()
    ensures given { differing refusals_rows ≡ [] }
    ensures shown { AllShown (short refusals_rows) }
{}

/// The definition gives each row of `faults.txt`: its lines, its ending, the history's text and the
/// display bytes. At each moment the bytes so far show prompt and line.
pub fn faults()
    ensures given { differing faults_rows ≡ [] }
    ensures shown { AllShown (short faults_rows) }
{}

/// The definition gives each row of `worked.txt`: its lines, its ending, the history's text and the
/// display bytes. At each moment the bytes so far show prompt and line.
pub fn worked()
    ensures given { differing worked_rows ≡ [] }
    ensures shown { AllShown (short worked_rows) }
{}

/// The definition gives each row of `modal.txt`: its lines, its ending, the history's text and the
/// display bytes. At each moment the bytes so far show prompt and line.
pub fn modal()
    ensures given { differing modal_rows ≡ [] }
    ensures shown { AllShown (short modal_rows) }
{}

/// The definition gives each row of `candidates.txt`: its lines, its ending, the history's text and
/// the display bytes. At each moment the bytes so far show prompt and line.
pub fn candidates()
    ensures given { differing candidates_rows ≡ [] }
    ensures shown { AllShown (short candidates_rows) }
{}

/// The definition gives each row of `colours.txt`: its lines, its ending, the history's text and
/// the display bytes. At each moment the bytes so far show prompt and line.
pub fn colours()
    ensures given { differing colours_rows ≡ [] }
    ensures shown { AllShown (short colours_rows) }
{}

/// The definition gives each row of `specs/Prompts.antt`, in which the program has a prompt with
/// control sequences: its lines, its ending and the display bytes. At each moment the bytes so far
/// show prompt and line.
pub fn prompts()
    ensures given { differing prompts_rows ≡ [] }
    ensures shown { AllShown (short prompts_rows) }
{}

/// The definition gives each row of `tabs.txt`: its lines, its ending, the history's text and the
/// display bytes. At each moment the bytes so far show prompt and line.
pub fn tabs()
    ensures given { differing tabs_rows ≡ [] }
    ensures shown { AllShown (short tabs_rows) }
{}

/// The definition gives each row of `partial.txt`: its lines, its ending, the history's text and
/// the display bytes. At each moment the bytes so far show prompt and line.
pub fn partial()
    ensures given { differing partial_rows ≡ [] }
    ensures shown { AllShown (short partial_rows) }
{}

/// Where motions go from a place in a line.
pub fn motions()
    ensures { Motions }
{}

/// What edits of a line answer, and the line that they leave.
pub fn edits()
    ensures { Edits }
{}

/// What kill rings lend after kills and yanks.
pub fn rings()
    ensures { Rings }
{}

/// What undo and redo of a record give back.
pub fn records()
    ensures { Records }
{}
