//! Handlers and commands bound by their names, as tables name them.

use line_config::ReadlineError;
use line_keys::{Bindings, EventHandler};
use stand_ins::handlers::{HintOrKill, OneWay};
use stand_ins::typing::{bind, command_of};
use std::alloc::Global;

// The handler that answers in the way of this name.
fn way_named(name: &str) -> OneWay {
    match name {
        "Count" => OneWay::Count,
        "Fails" => OneWay::Fails,
        "WantsMemory" => OneWay::WantsMemory,
        _ => OneWay::Nothing,
    }
}

fn hint_or_kill(alloc: Global) -> Result<EventHandler, ReadlineError> {
    let handler = Box::new(alloc, HintOrKill { most: 9 })?;
    Ok(EventHandler::Conditional(handler))
}

fn one_way(alloc: Global, name: &str) -> Result<EventHandler, ReadlineError> {
    let handler = Box::new(alloc, way_named(name))?;
    Ok(EventHandler::Conditional(handler))
}

/// Binds keys to the command with this name, or any key without keys.
pub(crate) fn bind_command(
    alloc: Global,
    bindings: &mut Bindings,
    keys: &str,
    words: &str,
) -> Result<Option<EventHandler>, ReadlineError> {
    let handler = EventHandler::from(command_of(alloc, words)?);
    bind(alloc, bindings, keys, handler)
}

/// Binds keys to the handler with this name, or any key without keys.
pub(crate) fn bind_handler(
    alloc: Global,
    bindings: &mut Bindings,
    keys: &str,
    name: &str,
) -> Result<Option<EventHandler>, ReadlineError> {
    let handler = match name {
        "HintOrKill" => hint_or_kill(alloc),
        _ => one_way(alloc, name),
    };
    bind(alloc, bindings, keys, handler?)
}
