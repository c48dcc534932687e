//! Errors of hooks.
ghost use Rattle.std.specs.Prelude.{◌≡◌};
ghost use Rattle.line_editor.specs.States.{error_of};

use line_config::{HookFault, ReadlineError};

/// The error of a hook's fault.
pub(crate) fn error_of(fault: HookFault) -> ReadlineError
    ensures { result ≡ error_of fault }
{
    match fault {
        HookFault::Failed => ReadlineError::Helper,
        HookFault::Memory => ReadlineError::Memory,
    }
}
