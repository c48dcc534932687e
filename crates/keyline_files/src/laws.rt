//! A law of the definitions: the contract of a function that does nothing.

ghost use Rattle.keyline_files.specs.FileCalls.{RowsAreAppended};

/// If each request to a device did what it answered, and nobody else wrote, an appended row stands
/// behind the bytes that the file had, and after what was missing behind them.
pub fn rows_are_appended()
    ensures { RowsAreAppended }
{}
