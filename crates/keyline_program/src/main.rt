//! The program `keyline`: keys from standard input, accepted lines to standard output, the display
//! on standard error.
#![tactic(auto)]

ghost use Rattle.std.specs.Prelude.{◌≡◌, ◌≤◌, [], IfErr, IfOk};
ghost use Rattle.std.specs.Process.{exit_status};
ghost use Rattle.std.specs.declared.io.Stdin.{Stdin};
ghost use Rattle.line_config.specs.Feed.{fresh_feed};
ghost use Rattle.line_config.specs.declared.device.Last.TheVariants.{End};
ghost use Rattle.keyline.specs.SessionEffects.{status_of};
ghost use Rattle.keyline.specs.SessionEffects.{devices_by};
ghost use Rattle.keyline.specs.SessionCalls.{LoadRefused};
ghost use Rattle.line_config.specs.declared.config.Config.{Config};
ghost use Rattle.keyline.specs.Program.{IsByEnvironment, PlaysOver, invoked_config, word_texts};
ghost use Rattle.keyline_program.specs.Saving.{EndsSaved, ending_after, ending_unsaved};

mod keeping;

use keeping::Rows;
use keyline::{
    Boxed, ClosedSink, Ended, Ending, Foretold, Invocation, Invoked, Options, ReadlineError, Sink,
    SliceSource, Source, StandardKeys, Unopened, VecSink, WriteSink, by_environment,
    invoked_config, load_words, play_with,
};
use keyline_files::{
    can_append, cut_history, load_history, load_history_lossy, read_file, save_history,
};
use std::env;
use std::io::{self, ErrorKind, IsTerminal, Stderr, Stdin, Stdout};
use std::marker::Brand;
use std::process::ExitCode;

/// What `--version` prints.
const VERSION: &str = "keyline 0.2.0";

/// The status if the arguments are no command line.
const USAGE: u8 = 2;

/// The status if the history doesn't load.
const NO_HISTORY: u8 = 5;

/// The status if the words don't load.
const NO_WORDS: u8 = 6;

/// What a terminal is sent before the words at a fault, so that they have a row of their own: a new
/// row, with nothing there or below of a line that was left open.
const NEW_ROW: &str = "\n\x1b[J";

fn main(rt: HostRuntime) -> ExitCode {
    let words: Vec<String> = match env::args(&rt).and_then(|words| Ok(words.collect(rt.alloc())?)) {
        Ok(words) => words,
        Err(error) if error.kind() == ErrorKind::OutOfMemory => return ended(&rt, Ending::Memory),
        Err(_) => {
            let _ = eprintln!(rt; "keyline: an argument is not UTF-8");
            return ExitCode::from(USAGE);
        }
    };
    if let [_, word] = words.as_slice()
        && word.as_str() == "--version"
    {
        let _ = println!(rt; "{VERSION}");
        return ExitCode::SUCCESS;
    }
    match Invocation::parse(rt.alloc(), words.as_slice()) {
        Invoked::Run(invocation) => run(&rt, invocation),
        Invoked::Help(text) => {
            let _ = print!(rt; "{}", text.as_str());
            ExitCode::SUCCESS
        }
        Invoked::Usage(text) => {
            let _ = eprint!(rt; "{}", text.as_str());
            ExitCode::from(USAGE)
        }
        Invoked::Memory => ended(&rt, Ending::Memory),
    }
}

/// Loads the words, and runs a session with the invocation's history.
fn run(rt: &HostRuntime, mut invocation: Invocation) -> ExitCode
    requires { let options = invocation.options in
        (2 ≤ options.columns) × (options.columns ≤ 1000) }
{
    let words = match words_of(rt, &invocation.options) {
        Ok(words) => words,
        Err((ReadlineError::Memory, _)) => return ended(rt, Ending::Memory),
        Err((_, cause)) => {
            let path = told_of(&invocation, &invocation.options.words);
            return file_not_loaded(rt, "words", path, cause, NO_WORDS);
        }
    };
    if invocation.extended
        && let Some(path) = invocation.options.history.take()
    {
        return run_keeping(rt, &invocation, words, path.as_str());
    }
    run_saving(rt, &invocation, words)
}

/// Loads the history, runs a session, and saves the history at its end.
fn run_saving(rt: &HostRuntime, invocation: &Invocation, words: Option<Vec<String>>) -> ExitCode
    requires { let options = invocation.now.options in
        (2 ≤ options.columns) × (options.columns ≤ 1000) }
{
    let options = &invocation.options;
    let old = match &options.history {
        Some(path) => load_history(rt, path.as_str()),
        None => Ok(Vec::new(rt.alloc())),
    };
    let old = match old {
        Ok(old) => old,
        Err(error) if error.kind() == ErrorKind::OutOfMemory => return ended(rt, Ending::Memory),
        Err(_) => return not_loaded(rt, "history does not load", NO_HISTORY),
    };
    match play::<Brand, _>(rt, invocation, words, old.as_slice(), &mut ClosedSink) {
        Ok(played) => ended(rt, kept(rt, options, &played)),
        Err(unopened) => match unopened.why {
            ReadlineError::HistoryText | ReadlineError::Reader => not_loaded(
                rt,
                "history does not load",
                NO_HISTORY,
            ),
            why => ended(rt, Ending::from(why)),
        },
    }
}

/// The path, if the messages about its file have its name and the cause.
fn told_of<'a>(invocation: &Invocation, path: &'a Option<String>) -> Option<&'a str> {
    match path {
        Some(path) if invocation.extended => Some(path.as_str()),
        _ => None,
    }
}

/// Runs a session with a history whose file has each accepted line before the next one is read. The
/// file is not replaced at the end. It is cut if a size of the history was given.
fn run_keeping(
    rt: &HostRuntime,
    invocation: &Invocation,
    words: Option<Vec<String>>,
    path: &str,
) -> ExitCode
    requires { let options = invocation.now.options in
        (2 ≤ options.columns) × (options.columns ≤ 1000) }
{
    let old = match load_history_lossy(rt, path) {
        Ok(old) => old,
        Err(error) if error.kind() == ErrorKind::OutOfMemory => return ended(rt, Ending::Memory),
        Err(error) => return file_not_loaded(rt, "history", Some(path), error.kind(), NO_HISTORY),
    };
    let mut rows = WriteSink::new(rows_of(rt, path));
    let ending = match play::<Brand, _>(rt, invocation, words, old.as_slice(), &mut rows) {
        Ok(played) => played.ending,
        Err(unopened) => Ending::from(unopened.why),
    };
    if !rows.into_parts().0.finish() {
        return unsaved(rt, ending);
    }
    if let Some(size) = invocation.options.history_size {
        cut(rt, path, size);
    }
    ended(rt, ending)
}

/// What appends to the file of this path. If it can't be opened for writing, that is told.
fn rows_of<'a>(rt: &'a HostRuntime, path: &'a str) -> Rows<'a> {
    let can = can_append(rt, path);
    if let Err(error) = &can {
        let cause = error.kind();
        let _ = eprintln!(rt;
            "keyline: history file {path}: {cause}; the lines of this run won't be saved"
        );
    }
    Rows::new(rt, path, can.is_err())
}

/// Cuts a history file that has a quarter more rows than these. A failure is told.
fn cut(rt: &HostRuntime, path: &str, rows: usize) {
    if let Err(error) = cut_history(rt, path, rows) {
        let _ = eprintln!(rt; "keyline: history file {path}: {}", error.kind());
    }
}

/// What the program has after its session: keys were read from standard input, drawings and lines
/// were written to standard error and standard output, and the history's text is in memory.
type Played<K> = Ended<
    Boxed<StandardKeys<K>>,
    Boxed<WriteSink<Stderr>>,
    Boxed<WriteSink<Stdout>>,
    VecSink,
>;

/// The same if the session was not opened.
type NotPlayed<'a> = Unopened<SliceSource<'a>, Stdin, Stderr, Stdout, VecSink>;

/// The session. For all bytes that `K` may say of standard input and that agree with what its reads
/// gave, the writes of standard output and standard error took the lines and the display bytes of
/// the session of these bytes, by the invocation's settings, or by the same without colours. The
/// row of each new entry is handed to a sink before the next line is read.
fn play<'a, K: Foretold<Stdin>, T: Sink>(
    rt: &HostRuntime,
    invocation: &Invocation,
    words: Option<Vec<String>>,
    old: &'a [u8],
    rows: &mut T,
) -> Result<Played<K>, NotPlayed<'a>>
    requires { let options = invocation.now.options in
        (2 ≤ options.columns) × (options.columns ≤ 1000) }
    ensures plays { let known = devices_by ⟦<StandardKeys<K> as Source>⟧.feed
        ⟦<WriteSink<Stderr> as Sink>⟧.held ⟦<WriteSink<Stderr> as Sink>⟧.waits
        ⟦<WriteSink<Stderr> as Sink>⟧.has_failed
        ⟦<WriteSink<Stdout> as Sink>⟧.held ⟦<WriteSink<Stdout> as Sink>⟧.waits
        ⟦<WriteSink<Stdout> as Sink>⟧.has_failed in
        IfOk result (λ played. (keys : Stdin) × (config : Config)
        × IsByEnvironment (invoked_config invocation.now) config × PlaysOver known
        ⟦<VecSink as Sink>⟧.held ⟦<VecSink as Sink>⟧.has_failed config
        invocation.now.options (word_texts words) [] [] old.entry.now (K.left keys []) K.last
        played) }
    ensures refused { IfErr result (λ unopened. LoadRefused (invoked_config invocation.now)
        (fresh_feed old.entry.now End) (⟦<SliceSource<'a> as Source>⟧.feed unopened.history)
        unopened.why) }
{
    play_with::<K, _, _, _, _>(
        rt.alloc(),
        by_environment(rt, invoked_config(invocation)),
        &invocation.options,
        words,
        old,
        rt.stdin(),
        rt.stderr(),
        rt.stdout(),
        rows,
    )
}

/// Saves the history in its file, and answers what the session ends with then.
fn kept<K: Foretold<Stdin>>(rt: &HostRuntime, options: &Options, played: &Played<K>) -> Ending
    ensures { EndsSaved options.now.history played.now.ending result }
{
    let Some(path) = &options.history else {
        return played.ending;
    };
    ending_after(
        save_history(rt, path.as_str(), played.text_to_save()),
        played.ending,
    )
}

/// The ending after the history was saved, or wasn't.
fn ending_after(saved: io::Result<()>, ending: Ending) -> Ending
    ensures { result ≡ ending_after saved ending }
{
    match (saved, ending) {
        (Err(_), Ending::Eof | Ending::Interrupted | Ending::NotUtf8 | Ending::PasteOutOfPlace) =>
            Ending::HistoryText,
        (_, ending) => ending,
    }
}

/// The words of the file that the options name, if they name one.
fn words_of(
    rt: &HostRuntime,
    options: &Options,
) -> Result<Option<Vec<String>>, (ReadlineError, ErrorKind)> {
    let Some(path) = &options.words else {
        return Ok(None);
    };
    let text = match read_file(rt, path.as_str()) {
        Ok(text) => text,
        Err(error) => return Err(match error.kind() {
            ErrorKind::OutOfMemory => (ReadlineError::Memory, ErrorKind::OutOfMemory),
            cause => (ReadlineError::Reader, cause),
        }),
    };
    match load_words(rt.alloc(), &mut SliceSource::new(text.as_slice())) {
        Ok(words) => Ok(Some(words)),
        Err(why) => Err((why, ErrorKind::InvalidData)),
    }
}

/// Says that the words or the history do not load, with the file's name and the cause if the name
/// is given, and answers its status.
fn file_not_loaded(
    rt: &HostRuntime,
    what: &str,
    path: Option<&str>,
    cause: ErrorKind,
    status: u8,
) -> ExitCode
    ensures { exit_status result ≡ status }
{
    let _ = match path {
        Some(path) => eprintln!(rt; "keyline: {what} file {path}: {cause}"),
        None => eprintln!(rt; "keyline: {what} do not load"),
    };
    ExitCode::from(status)
}

/// The ending if rows of the history were not appended, which was told: only another fault is
/// still to be told.
fn unsaved(rt: &HostRuntime, ending: Ending) -> ExitCode
    ensures { exit_status result ≡ status_of (ending_unsaved ending) }
{
    match ending_after(Err(io::Error::from(ErrorKind::Other)), ending) {
        Ending::HistoryText => ExitCode::from(Ending::HistoryText.status()),
        fault => ended(rt, fault),
    }
}

/// Says what does not load, and answers its status.
fn not_loaded(rt: &HostRuntime, what: &str, status: u8) -> ExitCode
    ensures { exit_status result ≡ status }
{
    let _ = eprintln!(rt; "keyline: {what}");
    ExitCode::from(status)
}

/// Prints how the session ended, if that was a fault.
fn ended(rt: &HostRuntime, ending: Ending) -> ExitCode
    ensures { exit_status result ≡ status_of ending }
{
    if !matches!(ending, Ending::Eof | Ending::Interrupted) {
        let before = if rt.stderr().is_terminal() {
            NEW_ROW
        } else {
            ""
        };
        let _ = eprintln!(rt; "{before}keyline: {}", ending.text());
    }
    ExitCode::from(ending.status())
}
