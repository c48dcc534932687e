//! What the keys do besides the tables.

use keyline::{Bindings, Cmd, Event, EventHandler, KeyEvent, Movement, ReadlineError};
use std::alloc::Global;

/// Ctrl-O takes the whole line away.
pub(crate) fn bindings(alloc: Global) -> Result<Bindings, ReadlineError> {
    let mut bindings = Bindings::new(alloc)?;
    let key = Event::from_key(alloc, KeyEvent::ctrl('o'))?;
    bindings.bind_sequence(key, EventHandler::Simple(Cmd::Kill(Movement::WholeLine)))?;
    Ok(bindings)
}
