//! The program's arguments.

use std::{env, io};

/// What `--help` prints.
pub(crate) const USAGE: &str = "usage: sql_console [--history FILE]\n";

/// What the arguments ask for.
#[derive(Drop)]
pub(crate) enum Asked {
    /// A console, and the path of the file that keeps its history.
    Console(Option<String>),
    Help,
    /// They are none of these.
    Unknown,
}

pub(crate) fn read_arguments(rt: &HostRuntime) -> io::Result<Asked> {
    let words: Vec<String> = env::args(rt)?.collect(rt.alloc())?;
    match words.as_slice() {
        [_] => Ok(Asked::Console(None)),
        [_, name] if name.as_str() == "--help" => Ok(Asked::Help),
        [_, name, path] if name.as_str() == "--history" => {
            let path = String::from_str(rt.alloc(), path.as_str())?;
            Ok(Asked::Console(Some(path)))
        }
        _ => Ok(Asked::Unknown),
    }
}
