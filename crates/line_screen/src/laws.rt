//! Laws of the definitions. Each is the contract of a function that does nothing.

ghost use Rattle.line_screen.specs.Input.{EncodedCharsAreRead, CharsAreEncoded};
ghost use Rattle.line_screen.specs.KeyGrammar.{WholeKeysStay, PastedTextIsBeforeItsMark, PastedTextIsCutOff, ControlIsOneKey};
ghost use Rattle.line_screen.specs.Laws.{OnEachScreen, ColoursStand, NumbersAreStyles, Uncoloured, TypingLeads, AppendingLeads, KillingLeads, ErasingLeads, PuttingInLeads, TakingOutLeads, DrawingRestLeads, FullDrawingShows, PlainDrawingsAreDrawings, StartIsEmpty, CallsLead, ChainsLead, PlaceIsFree, LineEndsAnywhere, EndedLineStays, MeasuresGoOn, ShownIsMeant, CellsAreShown, WritingOverLeads};
ghost use Rattle.line_screen.specs.ScreenCalls.{ReadsFindNothingWaiting};

use line_config::Sink;

/// A full drawing shows the given value, each cluster with its style, whatever was shown from its
/// top on, and keeps the rows above. No style may stand before it, and none stands after it.
pub fn full_drawing()
    ensures { OnEachScreen FullDrawingShows }
{}

/// A drawing without styles sends no bytes for them.
pub fn plain_drawing()
    ensures { PlainDrawingsAreDrawings }
{}

/// Each cluster of a drawing with styles has its own, and none stands at its end.
pub fn styles_stand()
    ensures { OnEachScreen ColoursStand }
{}

/// The numbers of each style are digits and semicolons.
pub fn looks()
    ensures { NumbersAreStyles }
{}

/// Calls without a highlighter send no ESC `[` `0`, with which a style begins. The editor makes no
/// other calls on a screen without colours.
pub fn uncoloured()
    ensures { Uncoloured }
{}

/// Before the first call nothing is shown.
pub fn start()
    ensures { OnEachScreen StartIsEmpty }
{}

/// Each call leads from a display that shows one view to one that shows the next, if it is allowed
/// there. The calls are a drawing, a move, the insertion of one byte, the erasure of a row's end, a
/// character put before others, characters taken out before others, a text drawn behind the others,
/// a line's rest drawn from a cell on, letters written over as many, a beep, a clearing and CR LF.
pub fn calls()
    ensures { OnEachScreen CallsLead }
{}

/// If nothing is buffered in the screen's sink as a line begins, nothing is buffered at any request
/// of the line's script, such as the read of a key. Nor is it at the script's end, also after a
/// fault. A sink that has failed is excepted.
pub fn reads_find_nothing_waiting<D: Sink>()
    ensures { ReadsFindNothingWaiting D.held D.waits D.has_failed }
{}

/// If the editor writes only a typed character's byte, this leads to the line with it.
pub fn short_insertions()
    ensures { OnEachScreen TypingLeads }
{}

/// If the editor draws only a character typed apart from the line's end, this leads to the line
/// with it, and cursor and end are where the character's own drawing ends.
pub fn appended_characters()
    ensures { OnEachScreen AppendingLeads }
{}

/// If the editor deletes a line's end by a move and the erasure of the row's end, this leads to the
/// line without it.
pub fn short_kills()
    ensures { OnEachScreen KillingLeads }
{}

/// The same of a character apart from the line, deleted at its end by the erasure of its cells.
pub fn erased_characters()
    ensures { OnEachScreen ErasingLeads }
{}

/// If the editor puts a character before others, this leads to the line with it. Cursor and end go
/// one cell on.
pub fn row_insertions()
    ensures { OnEachScreen PuttingInLeads }
{}

/// If the editor takes characters of a row out before others, this leads to the line without them.
/// The end goes back by as many cells.
pub fn row_kills()
    ensures { OnEachScreen TakingOutLeads }
{}

/// If the editor draws the rest of a line from a place on, before which the line stays, this leads
/// to the line with it and to the hint or message after it. No cluster may lie over that place.
pub fn drawn_rests()
    ensures { OnEachScreen DrawingRestLeads }
{}

/// If the editor writes letters over as many in a row, this leads to the line with them. The end
/// stays.
pub fn row_rewritings()
    ensures { OnEachScreen WritingOverLeads }
{}

/// Calls one after the other lead from what is shown before them to what is shown after them. The
/// rows above stay until the screen is cleared.
pub fn chains()
    ensures { OnEachScreen ChainsLead }
{}

/// The cursor's place in the line may change without any call, because no cell depends on it.
pub fn places()
    ensures { PlaceIsFree }
{}

/// CR LF has a meaning wherever the cursor is, even inside a line and before a hint: every cell
/// stays.
pub fn line_ends()
    ensures { LineEndsAnywhere }
{}

/// CR LF at the drawing's end leads to the next line's top, and the accepted line's cells stay
/// above it.
pub fn ended_lines()
    ensures { OnEachScreen EndedLineStays }
{}

/// A drawing's cursor and its end are measured part by part: prompt, line, and the hint or message
/// after it.
pub fn measures()
    ensures { MeasuresGoOn }
{}

/// The bytes up to any call have a meaning, and show the value.
pub fn meaning()
    ensures { ShownIsMeant }
{}

/// What is shown is in its cells, and all other cells from its top on are blank.
pub fn cells()
    ensures { CellsAreShown }
{}

/// All characters are read back from their bytes, whatever follows these.
pub fn encoded_characters_are_read()
    ensures { EncodedCharsAreRead }
{}

/// Each character that is read is a scalar value, and comes from its own bytes only. If none is
/// read, the bytes end, end inside a character, or have a byte that fits no character.
pub fn characters_are_encoded()
    ensures { CharsAreEncoded }
{}

/// ESC `[` with parameters, intermediates and a final is one key, whatever follows: the key of the
/// whole sequence.
#[tactic(auto, using(crate::proofs::ControlLemmas::control_is_one_key))]
pub fn control_sequence_is_one_key()
    ensures { ControlIsOneKey }
{}

/// Bytes that are whole keys and pasted texts are read so whatever follows them, unless the last
/// one is ESC.
#[tactic(auto, using(crate::proofs::FollowingLemmas::whole_keys_stay))]
pub fn whole_keys_stay()
    ensures { WholeKeysStay }
{}

/// A pasted text is the text before the first end mark, with a newline for each CR LF and CR in it.
pub fn pasted_text_is_before_its_mark()
    ensures { PastedTextIsBeforeItsMark }
{}

/// A pasted text without an end mark is cut off where the characters end.
pub fn pasted_text_is_cut_off()
    ensures { PastedTextIsCutOff }
{}
