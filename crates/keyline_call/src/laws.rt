//! Laws of the definitions. Each is the contract of a function that does nothing.

ghost use Rattle.keyline.specs.Pasting.{PastesGoIn};
ghost use Rattle.keyline_call.specs.Laws.{LastDrawingsShow, SameLinesGoOnAlike, SameLinesLookAlike};

use keyline::{Sink, VecSink};

/// The bytes from the last whole drawing on show the open line by themselves, on any blank rows:
/// what is sent again after other output, or on a display that was cleared.
pub fn last_drawing()
    ensures { LastDrawingsShow ⟦<VecSink as Sink>⟧.held }
{}

/// Two key texts whose open lines show the same leave the same display if they are drawn anew.
/// Their bytes may differ: what is typed comes after a whole drawing, what is pasted is in one.
pub fn same_lines()
    ensures shown { SameLinesLookAlike ⟦<VecSink as Sink>⟧.held }
    ensures next { SameLinesGoOnAlike ⟦<VecSink as Sink>⟧.held }
{}

/// A text that is pasted between two phrases goes to the cursor, in every mode, whatever the line
/// is, and with any bindings of other keys. In Vi's command mode the cursor is then on its last
/// cluster.
pub fn paste()
    ensures { PastesGoIn }
{}
