//! Laws of the definitions. Each is the contract of a function that does nothing.
ghost use Rattle.line_config.specs.Foretold.{EachRunAgrees};

/// What the reads of a source gave, and the end or failure that they met, could have been assumed
/// beforehand. So a promise that holds if they agree with the assumption holds for each run.
pub fn each_run_agrees()
    ensures { EachRunAgrees }
{}
