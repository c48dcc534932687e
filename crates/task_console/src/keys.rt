//! What keys do besides the tables.

use keyline::{Bindings, Cmd, Event, EventHandler, KeyEvent, Movement, ReadlineError};
use std::alloc::Global;

/// Ctrl-G clears the text, all of its rows.
pub(crate) fn bindings(alloc: Global) -> Result<Bindings, ReadlineError> {
    let mut bindings = Bindings::new(alloc)?;
    let key = Event::from_key(alloc, KeyEvent::ctrl('g'))?;
    bindings.bind_sequence(key, EventHandler::Simple(Cmd::Kill(Movement::WholeBuffer)))?;
    Ok(bindings)
}
