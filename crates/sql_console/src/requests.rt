//! What a text asks of the console.

use std::io;

/// What `.help` prints.
pub(crate) const COMMANDS: &str = "\
.help    lists the commands
.tables  lists the tables
.quit    leaves, as Ctrl-D does
A statement ends with ; and may
have several rows. Ctrl-C gives
it up, Ctrl-O empties the line,
Up brings earlier ones back, and
Tab completes names of tables.
";

/// What a text asks for.
pub(crate) enum Request<'t> {
    Help,
    Tables,
    Quit,
    /// A command that there is not.
    Unknown(&'t str),
    Statement(&'t str),
    /// Further rows: a statement is not at its end.
    More,
}

/// A command begins with a dot, and a statement ends with a semicolon.
pub(crate) fn request_of(text: &str) -> Request<'_> {
    match text.trim_end() {
        ".help" => Request::Help,
        ".tables" => Request::Tables,
        ".quit" | ".exit" => Request::Quit,
        text if text.starts_with('.') => Request::Unknown(text),
        text if text.ends_with(';') => Request::Statement(text),
        _ => Request::More,
    }
}

/// Says that there is no such command.
pub(crate) fn refuse(rt: &HostRuntime, command: &str) -> io::Result<()> {
    println!(rt; "error: there is no {command}; .help lists the commands")
}
