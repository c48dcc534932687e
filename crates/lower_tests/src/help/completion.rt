//! Completion: escapes, quotes, words, prefixes and file names over listers for tests.
ghost use Rattle.std.specs.Prelude.{◌≡◌, List, ℕ, [], true, false, map, if◌then◌else◌, bytes_eq, IfOk, IfErr};
ghost use Rattle.line_config.specs.declared.errors.HookFault.TheVariants.{Memory};
ghost use Rattle.line_help.specs.FileNames.{Named};
ghost use Rattle.line_keys.specs.Replies.{gives, gives_unless};

use crate::help::asks::{Ask, Try};
use crate::help::words::completer_of;
use line_buffer::NoListener;
use line_config::HookFault;
use line_help::{
    Candidate, Completer, Context, FilenameCompleter, Hinter, Listed, Lister, MemHistory, Pair,
    Quote, ValidationContext, Validator, WordCompleter, escape, extract_word,
    longest_common_prefix, unescape,
};
use stand_ins::lines::{line_of, shown_of};
use stand_ins::rows::{Player, raised, rows_hold, same, stands};
use stand_ins::tables::{line_and_place, marked, meant, word_and_rest};
use std::alloc::{AllocError, Global};
use std::cell::Cell;
use std::test::Fail;

/// Whether a character ends a word, as the completer of file names sees it.
fn ends_word(c: char) -> bool {
    matches!(
        c,
        ' ' | '\t'
            | '\n'
            | '"'
            | '\\'
            | '\''
            | '`'
            | '@'
            | '$'
            | '>'
            | '<'
            | '='
            | ';'
            | '|'
            | '&'
            | '{'
            | '('
            | '\0'
    )
}

/// One folder: the name of each item, and whether it is a folder.
#[derive(Drop)]
struct Folder {
    path: &'static str,
    names: &'static [(&'static str, bool)],
}

impl Lister for Folder {
    ghost held_in = { λ s dir. gives (if bytes_eq dir s.path.now then map (λ p. record { name = p.0.now; is_dir = p.1 }) s.names.now else []) };

    fn list(&self, alloc: Global, dir: &str) -> Result<Vec<Listed>, HookFault> {
        let mut all = Vec::new(alloc);
        if dir != self.path {
            return Ok(all);
        }
        let names = self.names;
        for (name, is_dir) in names {
            all.push(listed(alloc, name, *is_dir)?)?;
        }
        Ok(all)
    }
}

fn listed(alloc: Global, name: &str, is_dir: bool) -> Result<Listed, HookFault>
    ensures same { IfOk result (λ l. l ≡ record { name = name.now; is_dir = is_dir }) }
    ensures fault { IfErr result (λ e. e ≡ Memory) }
{
    let name = String::from_str(alloc, name)?;
    Ok(Listed { name, is_dir })
}

/// Counts the listings of a folder, and those of others.
#[derive(Drop)]
struct Listing<'c> {
    folder: Folder,
    here: &'c Cell<u32>,
    elsewhere: &'c Cell<u32>,
}

impl Lister for Listing<'_> {
    ghost held_in = { λ s dir. gives (if bytes_eq dir s.folder.path.now then map (λ p. record { name = p.0.now; is_dir = p.1 }) s.folder.names.now else []) };

    fn list(&self, alloc: Global, dir: &str) -> Result<Vec<Listed>, HookFault> {
        let times = if dir == self.folder.path {
            self.here
        } else {
            self.elsewhere
        };
        times.set(times.get().saturating_add(1));
        self.folder.list(alloc, dir)
    }
}

/// A lister that fails.
#[derive(Drop)]
struct Broken;

impl Lister for Broken {
    ghost held_in = { λ s dir. gives_unless true [] };

    fn list(&self, _alloc: Global, _dir: &str) -> Result<Vec<Listed>, HookFault> {
        Err(HookFault::Failed)
    }
}

/// How many candidates are written out.
const TOLD: usize = 12;

// The line with a bar where the completed word begins, and after it each candidate with its
// replacement. If there are many, the first ones and their number.
fn told<C: Candidate>(
    alloc: Global,
    line: &str,
    start: usize,
    candidates: &[C],
) -> Result<String, AllocError> {
    let mut said = marked(alloc, line, start)?;
    for candidate in candidates.get(..TOLD).unwrap_or(candidates) {
        let (display, replacement) = (candidate.display(), candidate.replacement());
        write!(said, "; {display}→{replacement}")?;
    }
    let count = candidates.len();
    if count > TOLD {
        write!(said, "; {count} in all")?;
    }
    Ok(said)
}

/// Completes each row's line at its end, with the call of this name.
#[derive(Drop)]
struct PathCompleter {
    completer: FilenameCompleter<Folder>,
}

impl Player for PathCompleter {
    fn play(&mut self, alloc: Global, call: &str) -> Result<String, Fail> {
        let (call, line) = word_and_rest(call);
        let found = match call {
            "sorted" => self.completer.complete_path(alloc, line, line.len()),
            _ => self
                .completer
                .complete_path_unsorted(alloc, line, line.len()),
        };
        let (start, pairs) = found?;
        raised(told(alloc, line, start, &pairs))
    }
}

fn completes_paths(
    alloc: Global,
    path: &'static str,
    names: &'static [(&'static str, bool)],
    table: &str,
) -> Result<(), Fail> {
    let completer = FilenameCompleter::new(Folder { path, names });
    rows_hold(alloc, &mut PathCompleter { completer }, table)
}

const IN_USR: &str = r#"
    sorted ls /usr/lo               = ls |/usr/lo; local→/usr/local/; log→/usr/log
    sorted ls /usr/m                = ls |/usr/m; my file→/usr/my\ file
    sorted ls "/usr/m               = ls "|/usr/m; my file→/usr/my file
    sorted ls '/usr/m               = ls '|/usr/m; my file→/usr/my file
    sorted ls "/usr/my f            = ls "|/usr/my f; my file→/usr/my file
    sorted ls '/usr/my f            = ls '|/usr/my f; my file→/usr/my file
    sorted ls /usr/my\ f            = ls |/usr/my\ f; my file→/usr/my\ file
    sorted ls "/usr/a               = ls "|/usr/a; a"$b`\'→/usr/a\"\$b\`\\'
    sorted ls '/usr/a               = ls '|/usr/a; a"$b`\'→/usr/a"$b`\'
    sorted ls /usr/a                = ls |/usr/a; a"$b`\'→/usr/a\"\$b\`\\\'
    sorted ls "/usr/a\"             = ls "|/usr/a\"; a"$b`\'→/usr/a\"\$b\`\\'
    sorted ls /usr/é                = ls |/usr/é; été→/usr/été/
    sorted ls /usr/x                = ls |/usr/x
    sorted ls /etc/l                = ls |/etc/l
    sorted ls l                     = ls |l
    sorted ls "it's" /usr/loc       = ls "it's" |/usr/loc; local→/usr/local/
    sorted 'a' "b'c"d\" '/usr/loc   = 'a' "b'c"d\" '|/usr/loc; local→/usr/local/
    sorted a;cat</usr/loc           = a;cat<|/usr/loc; local→/usr/local/
"#;

const IN_ORDER: &str = "
    sorted                          = |; →/; B→B; a→a/; a→a; b→b
    unsorted                        = |; b→b; a→a/; B→B; a→a; →/
";

const USR: [(&str, bool); 5] = [
    ("local", true),
    ("log", false),
    ("my file", false),
    ("été", true),
    ("a\"$b`\\'", false),
];

const HERE: [(&str, bool); 5] = [
    ("b", false),
    ("a", true),
    ("B", false),
    ("a", false),
    ("", true),
];

#[test]
fn paths(rt: HostRuntime) -> Result<(), Fail> {
    completes_paths(rt.alloc(), "/usr/", &USR, IN_USR)?;
    completes_paths(rt.alloc(), "", &HERE, IN_ORDER)?;
    completes_paths(rt.alloc(), "~/", &[], "    sorted ~/ = |~/")
}

// The number of candidates of a call of this name.
fn count_found<L: Lister>(
    alloc: Global,
    completer: &FilenameCompleter<L>,
    call: &str,
    line: &str,
) -> Result<usize, HookFault> {
    let found = match call {
        "sorted" => completer.complete_path(alloc, line, line.len()),
        "unsorted" => completer.complete_path_unsorted(alloc, line, line.len()),
        _ => completer.complete(
            alloc,
            line,
            line.len(),
            &Context::new(&MemHistory::new(alloc)),
        ),
    };
    Ok(found?.1.len())
}

// How often a completer lists its folder, and others, for the call of this name.
fn listings_told(alloc: Global, call: &str) -> Result<String, HookFault> {
    let (here, elsewhere) = (Cell::new(0), Cell::new(0));
    let completer = FilenameCompleter::new(Listing {
        folder: Folder {
            path: "/usr/",
            names: &USR,
        },
        here: &here,
        elsewhere: &elsewhere,
    });
    let (call, line) = word_and_rest(call);
    let count = count_found(alloc, &completer, call, line)?;
    raised(format!(in alloc; "{count} {} {}", here.get(), elsewhere.get()))
}

/// The listings for each row's line.
#[derive(Drop)]
struct Listings;

impl Player for Listings {
    fn play(&mut self, alloc: Global, call: &str) -> Result<String, Fail> {
        raised(listings_told(alloc, call))
    }
}

// The number of candidates, and how often the folder and others were listed.
const LISTINGS: &str = "
    sorted ls /usr/lo    = 2 1 0
    unsorted ls /usr/lo  = 2 1 0
    complete ls /usr/lo  = 2 1 0
    complete ls /usr/x   = 0 1 0
    complete ls lo       = 0 0 1
    complete /etc/       = 0 0 1
";

#[test]
fn a_folder_is_listed_once(rt: HostRuntime) -> Result<(), Fail> {
    rows_hold(rt.alloc(), &mut Listings, LISTINGS)
}

// A sole candidate is told as it is alone, unless that is its replacement.
fn tell_alone<C: Candidate>(said: &mut String, candidate: &C) -> Result<(), AllocError> {
    let alone = candidate.alone();
    if alone != candidate.replacement() {
        write!(said, ", alone \"{alone}\"")?;
    }
    Ok(())
}

// Candidates for a line, and their common prefix.
fn offer_told<C: Candidate>(
    alloc: Global,
    line: &str,
    start: usize,
    candidates: &[C],
) -> Result<String, AllocError> {
    let mut said = told(alloc, line, start, candidates)?;
    if let Some(prefix) = longest_common_prefix(candidates) {
        write!(said, ", all with {prefix}")?;
    }
    if let [candidate] = candidates {
        tell_alone(&mut said, candidate)?;
    }
    Ok(said)
}

// An answer of a completer.
fn answer_told<C: Candidate>(
    alloc: Global,
    line: &str,
    answer: Result<(usize, Vec<C>), HookFault>,
) -> Result<String, AllocError> {
    match answer {
        Ok((start, found)) => offer_told(alloc, line, start, &found),
        Err(fault) => format!(in alloc; "{fault:?}"),
    }
}

// A completer's answer for a line with the cursor at a place.
fn completed_at<C: Completer>(
    alloc: Global,
    completer: &C,
    line: &str,
    pos: usize,
) -> Result<String, AllocError> {
    if !line.is_char_boundary(pos) {
        return String::from_str(alloc, "no place for a cursor");
    }
    let history = MemHistory::new(alloc);
    let answer = completer.complete(alloc, line, pos, &Context::new(&history));
    answer_told(alloc, line, answer)
}

// A completer's answer for a line with the cursor.
pub(crate) fn completed<C: Completer>(
    alloc: Global,
    completer: &C,
    line: &str,
) -> Result<String, AllocError> {
    let (line, pos) = line_and_place(alloc, line)?;
    completed_at(alloc, completer, line.as_str(), pos)
}

const COMPLETERS: &str = "
    broken cat lo|      = Failed
    boxed cat lo|       = cat |lo; local→local/; log→log, all with lo
    none ca|t lo        = |cat lo
";

/// The answer of a completer by its name: one whose lister fails, one in a box, or the one without
/// candidates.
pub(crate) fn completed_by(alloc: Global, call: &str) -> Result<String, AllocError> {
    let (name, line) = word_and_rest(call);
    match name {
        "broken" => completed(alloc, &FilenameCompleter::new(Broken), line),
        "boxed" => boxed_completed(alloc, line),
        _ => completed(alloc, &(), line),
    }
}

fn of_two_names() -> FilenameCompleter<Folder> {
    let names: &'static [(&'static str, bool)] = &[("log", false), ("local", true)];
    FilenameCompleter::new(Folder { path: "", names })
}

fn boxed_completed(alloc: Global, line: &str) -> Result<String, AllocError> {
    let completer = Box::new(alloc, of_two_names())?;
    completed(alloc, &completer, line)
}

fn copied(alloc: Global, pairs: &[Pair]) -> Result<Vec<Pair>, HookFault> {
    let mut copies = Vec::new(alloc);
    for pair in pairs {
        copies.push(pair.try_clone(alloc)?)?;
    }
    Ok(copies)
}

fn copies_told(alloc: Global) -> Result<String, HookFault> {
    let (start, pairs) = of_two_names().complete_path(alloc, "lo", 2)?;
    let copies = copied(alloc, &pairs)?;
    raised(told(alloc, "lo", start, &copies))
}

#[test]
fn candidates_copied(rt: HostRuntime) -> Result<(), Fail> {
    let said = copies_told(rt.alloc())?;
    same(said.as_str(), "|lo; local→local/; log→log")
}

// A line in which a completer replaced the text from a place to the cursor.
fn updated<C: Completer>(alloc: Global, completer: &C, start: usize) -> Result<String, HookFault> {
    let mut line = line_of(alloc, "cat lo| x")?;
    if start > line.pos() || !line.as_str().is_char_boundary(start) {
        return Err(HookFault::Failed);
    }
    completer.update(alloc, &mut line, start, "log", &mut NoListener)?;
    raised(shown_of(alloc, &line))
}

fn all_updated(alloc: Global) -> Result<String, HookFault> {
    let boxed = updated(alloc, &Box::new(alloc, ())?, 4)?;
    let none = updated(alloc, &None::<WordCompleter>, 4)?;
    let words = updated(alloc, &Some(completer_of(alloc, "log")?), 4)?;
    raised(format!(in alloc; "{boxed}, {none}, {words}"))
}

// Whether a helper without parts finds nothing.
fn finds_nothing(alloc: Global, line: &str) -> Result<bool, HookFault> {
    let history = MemHistory::new(alloc);
    let hint = ().hint(alloc, line, line.len(), &Context::new(&history))?;
    let verdict = ().validate(alloc, &ValidationContext::new(line))?;
    Ok(hint.is_none() && verdict.is_valid())
}

#[test]
fn updates(rt: HostRuntime) -> Result<(), Fail> {
    let said = all_updated(rt.alloc())?;
    same(said.as_str(), "cat log| x, cat log| x, cat log| x")?;
    stands(
        finds_nothing(rt.alloc(), "(")?,
        "a hint or a verdict of nothing",
    )
}

// Where the last word of a line begins, and the word; a text escaped, without quotes or in quotes;
// and unescaped. The escape character comes first.
const WORDS: &str = r#"
    word \ ls '/usr/local/b         = ls '|/usr/local/b; /usr/local/b
    word \ ls /User\ Information    = ls |/User\ Information; /User\ Information
    word none ls /User\ Information = ls /User\ |Information; Information
    word \                          = |;
    word \ word                     = |word; word
    word \ a␠                       = a |;
    word \ a\\ b                    = a\|\ b; \ b
    word \ \ a                      = |\ a; \ a
    word \ é été                    = é |été; été
    word \ a b␉c␊d"e\f'g`h@i$j>k<l=m;n|o&p{q(r␀s = a b␉c␊d"e\f'g`h@i$j>k<l=m;n|o&p{q(r␀|s; s
    bare \ /usr/local/b             = /usr/local/b
    bare \ /User Information        = /User\ Information
    bare none a b                   = a b
    bare é a b                      = aé b
    bare \                          = nothing
    double \ a\ b                   = a\\\ b
    single \ a b                    = a b
    unescape \ /usr/local/b         = /usr/local/b
    unescape \ /User\ Information   = /User Information
    unescape \ a\                   = a
    unescape \ a\\                  = a\
    unescape \ \é\                  = é
    unescape none a\b               = a\b
    unescape é aébé                 = ab
"#;

// Where the last word of a text begins, and the word.
fn word_told(alloc: Global, esc: Option<char>, text: &str) -> Result<String, AllocError> {
    let (start, word) = extract_word(text, text.len(), esc, ends_word);
    let line = marked(alloc, text, start)?;
    format!(in alloc; "{line}; {word}")
}

fn unescaped(alloc: Global, esc: Option<char>, text: &str) -> Result<String, HookFault> {
    let text = unescape(alloc, text, esc)?;
    raised(text.into_owned(alloc))
}

fn escaped(
    alloc: Global,
    esc: Option<char>,
    text: &str,
    quote: Quote,
) -> Result<String, HookFault> {
    let input = String::from_str(alloc, text)?;
    escape(alloc, input, esc, ends_word, quote)
}

// The result of a call for a text.
fn made(alloc: Global, call: &str, esc: Option<char>, text: &str) -> Result<String, HookFault> {
    match call {
        "word" => raised(word_told(alloc, esc, text)),
        "unescape" => unescaped(alloc, esc, text),
        "double" => escaped(alloc, esc, text, Quote::Double),
        "single" => escaped(alloc, esc, text, Quote::Single),
        _ => escaped(alloc, esc, text, Quote::None),
    }
}

// The escape character, if there is one.
fn escape_named(word: &str) -> Option<char> {
    match word {
        "none" => None,
        _ => word.chars().next(),
    }
}

/// The result of a row's call for its text.
pub(crate) fn made_of_row(alloc: Global, call: &str) -> Result<String, HookFault> {
    let (call, rest) = word_and_rest(call);
    let (esc, text) = word_and_rest(rest);
    let text = meant(alloc, text)?;
    made(alloc, call, escape_named(esc), text.as_str())
}

// Candidates, with a semicolon after each, and their common prefix.
const COMMON_PREFIXES: &str = "
                            = none
    User;                   = User
    ;                       = nothing
    User;Users;             = User
    User;Users;;            = none
    fée;fête;               = f
    été;êta;                = none
    漢字b;漢字ab;漢字a;        = 漢字
";

/// The common prefix of a row's candidates.
pub(crate) fn common_prefix(alloc: Global, texts: &str) -> Result<String, AllocError> {
    let candidates: Vec<&str> = texts.split_terminator(';').collect(alloc)?;
    let prefix = longest_common_prefix(&candidates).unwrap_or("none");
    String::from_str(alloc, prefix)
}

#[test]
fn completers(rt: HostRuntime) -> Result<(), Fail> {
    rows_hold(rt.alloc(), &mut Ask::CompletedBy, COMPLETERS)?;
    rows_hold(rt.alloc(), &mut Ask::CommonPrefixes, COMMON_PREFIXES)?;
    rows_hold(rt.alloc(), &mut Try::Words, WORDS)?;
    same("text".display(), "text")
}
