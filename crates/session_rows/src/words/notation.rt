//! The notation of sessions.
//!
//! A row has keys, ` = `, and the lines that are written. After ` | ` comes what else is checked:
//! `ends`, unless it is the end of the input, `saves` and `shows`. Keys are separated by blanks:
//! `C-a` is Ctrl, `M-b` is Esc and then `b`, `Left` is what a terminal sends, and any other word is
//! itself. Lines are separated by blanks too; `""` is an empty one. A control character is written
//! as its picture, a blank as `␠`. If lines aren't added to the history, nothing must be saved. A
//! line without ` = ` is a comment, and so is one that begins with `#`. Settings are words such as
//! `vi`, `columns:4` or `words:al,alp`.

use line_buffer::GraphemeClusterMode;
use line_config::EditMode;
use stand_ins::rows::raised;
use stand_ins::tables::{meant_bytes, parted, push_meant_bytes};
use std::alloc::{AllocError, Global};

/// How the lines of a session are read.
#[derive(Clone, Copy, PartialEq, Eq)]
pub enum Asking {
    /// By `run`.
    Run,
    /// By `read_line` until it fails, and then by `finish`.
    ReadLine,
}

/// The settings of a session.
#[derive(Clone, Copy)]
pub struct Setting<'a> {
    pub asking: Asking,
    pub mode: EditMode,
    pub adding: bool,
    /// Whether the commands act that go on over several keys.
    pub modal: bool,
    /// Whether the helper's styles are drawn.
    pub colours: bool,
    /// Whether tabs are drawn as blanks.
    pub tabs: bool,
    /// Whether a change may be shown by a part of its drawing.
    pub partial: bool,
    /// How many columns apart the stops of tabs are.
    pub stop: u8,
    pub helped: bool,
    /// Whether the helper is an adviser.
    pub advised: bool,
    /// The words to complete, separated by commas.
    pub words: &'a str,
    pub columns: u16,
    pub clusters: GraphemeClusterMode,
    /// The prompt, with pictures.
    pub prompt: &'a str,
    /// The text of the history, with pictures.
    pub loaded: &'a str,
    /// What a reader does at its calls, separated by commas.
    pub reads: &'a str,
    /// All words, including those of bindings and of an adviser.
    pub all: &'a str,
}

fn has(words: &str, wanted: &str) -> bool {
    words.split_whitespace().any(|word| word == wanted)
}

/// The text after a prefix, in the first word that has it.
pub fn after<'a>(words: &'a str, beginning: &str) -> Option<&'a str> {
    for word in words.split_whitespace() {
        if let Some(rest) = word.strip_prefix(beginning) {
            return Some(rest);
        }
    }
    None
}

/// The number after a prefix, if a word has it.
pub fn number_after(words: &str, beginning: &str, otherwise: usize) -> usize {
    match after(words, beginning) {
        Some(digits) => digits.parse().unwrap_or(otherwise),
        None => otherwise,
    }
}

/// The text of one with pictures and numbers of bytes; `None` if the bytes aren't UTF-8.
pub fn text_meant(alloc: Global, shown: &str) -> Result<String, AllocError> {
    match String::from_utf8(meant_bytes(alloc, shown)?) {
        Ok(text) => Ok(text),
        Err(_) => Ok(String::new(alloc)),
    }
}

fn clusters_named(name: &str) -> GraphemeClusterMode {
    match name {
        "WcWidth" => GraphemeClusterMode::WcWidth,
        "NoZwj" => GraphemeClusterMode::NoZwj,
        _ => GraphemeClusterMode::Unicode,
    }
}

/// Emacs mode, 80 columns, the prompt `> `, and the settings of these words.
pub fn setting_of(words: &str) -> Setting<'_> {
    let digits = after(words, "columns:").unwrap_or("80");
    let prompt = if has(words, "bare") { "" } else { "> " };
    Setting {
        asking: Asking::Run,
        mode: if has(words, "vi") {
            EditMode::Vi
        } else {
            EditMode::Emacs
        },
        adding: has(words, "adding"),
        modal: has(words, "modal"),
        colours: has(words, "colours"),
        tabs: has(words, "tabs"),
        partial: has(words, "partial"),
        stop: after(words, "stop:").unwrap_or("8").parse().unwrap_or(8),
        helped: has(words, "helped"),
        advised: has(words, "advised"),
        words: after(words, "words:").unwrap_or(""),
        columns: digits.parse().unwrap_or(80),
        clusters: clusters_named(after(words, "clusters:").unwrap_or("")),
        prompt: after(words, "prompt:").unwrap_or(prompt),
        loaded: after(words, "loaded:").unwrap_or(""),
        reads: after(words, "reads:").unwrap_or(""),
        all: words,
    }
}

/// A field of a row: `nothing` is the empty text.
pub fn field(text: &str) -> &str {
    let text = text.trim();
    if text == "nothing" { "" } else { text }
}

/// A row: the keys, and those of its results that are checked.
#[derive(Clone, Copy)]
pub struct Row<'a> {
    pub keys: &'a str,
    pub lines: &'a str,
    pub ends: &'a str,
    pub saves: Option<&'a str>,
    pub shows: Option<&'a str>,
}

/// The text after a name in a part of a row's expected results.
fn part_of<'a>(wanted: &'a str, name: &str) -> Option<&'a str> {
    for part in wanted.split(" | ") {
        if let Some(rest) = part.strip_prefix(name) {
            return Some(rest);
        }
    }
    None
}

/// A line of a table as a row, if it is one.
pub fn row_of(text: &str) -> Option<Row<'_>> {
    let (keys, wanted) = text.split_once(" = ")?;
    if keys.trim_start().starts_with('#') {
        return None;
    }
    let (lines, _) = parted(wanted, " | ");
    Some(Row {
        keys,
        lines,
        ends: part_of(wanted, "ends ").unwrap_or("Eof").trim(),
        saves: part_of(wanted, "saves "),
        shows: part_of(wanted, "shows "),
    })
}

/// The bytes of named keys.
const NAMED: &str =
    "nothing: Enter:␍ Tab:␉ S-Tab:␛[Z Backspace:␡ Esc:␛ Left:␛[D Right:␛[C Up:␛[A Down:␛[B Home:␛[H End:␛[F \
    Delete:␛[3~ Paste:␛[200~ Pasted:␛[201~";

/// The bytes of a named key.
fn named(word: &str) -> Option<&'static str> {
    for entry in NAMED.split_whitespace() {
        if let Some((name, sent)) = entry.split_once(':')
            && name == word
        {
            return Some(sent);
        }
    }
    None
}

/// The code of Ctrl with a letter or sign.
fn control(word: &str) -> Option<u8> {
    match word.strip_prefix("C-")?.as_bytes() {
        [letter] => Some(*letter & 0x1F),
        _ => None,
    }
}

fn put_key(alloc: Global, bytes: &mut Vec<u8>, word: &str) -> Result<(), AllocError> {
    if let Some(code) = control(word) {
        return raised(bytes.push(code));
    }
    let (before, shown) = match word.strip_prefix("M-") {
        Some(rest) if !rest.is_empty() => (b"\x1B".as_slice(), rest),
        _ => (b"".as_slice(), named(word).unwrap_or(word)),
    };
    bytes.extend_from_slice(before)?;
    push_meant_bytes(alloc, bytes, shown)
}

/// The bytes of typed keys.
pub fn typed(alloc: Global, keys: &str) -> Result<Vec<u8>, AllocError> {
    let mut bytes = Vec::new(alloc);
    for word in keys.split_whitespace() {
        put_key(alloc, &mut bytes, word)?;
    }
    Ok(bytes)
}

fn put_line(alloc: Global, bytes: &mut Vec<u8>, word: &str) -> Result<(), AllocError> {
    let line = if word == "\"\"" { "" } else { word };
    push_meant_bytes(alloc, bytes, line)?;
    raised(bytes.push(b'\n'))
}

/// The bytes of the lines, each with its newline.
pub fn lines_meant(alloc: Global, words: &str) -> Result<Vec<u8>, AllocError> {
    let mut bytes = Vec::new(alloc);
    for word in field(words).split_whitespace() {
        put_line(alloc, &mut bytes, word)?;
    }
    Ok(bytes)
}

/// The beginning of a drawing: CR, ESC [ J, and the prompt between two ESC [ m.
const BEFORE_THE_LINE: &[u8] = b"\r\x1B[J\x1B[m> \x1B[m";

/// The end of a drawing, after the line.
const AFTER_THE_LINE: &[u8] = b"\x1B[m\x1B[m";

/// What stands before the query of a search, by the sign of its drawing.
const HEADINGS: &str =
    "'=(reverse-i-search)` !'=(failed␠reverse-i-search)` >'=(i-search)` !>'=(failed␠i-search)`";

/// The heading of the search that a piece begins with, and the piece after its sign.
fn searched(piece: &str) -> Option<(&'static str, &str)> {
    for entry in HEADINGS.split_whitespace() {
        if let Some((sign, heading)) = entry.split_once('=')
            && let Some(rest) = piece.strip_prefix(sign)
        {
            return Some((heading, rest));
        }
    }
    None
}

/// Appends a drawing after the prompt of a search: the query, `'`, and the line.
fn put_search(
    alloc: Global,
    bytes: &mut Vec<u8>,
    heading: &str,
    rest: &str,
) -> Result<(), AllocError> {
    let (query, line) = parted(rest, "'");
    let prompt = format!(in alloc; "␍␛[J␛[m{heading}{query}':␠␛[m{line}")?;
    put_drawn(alloc, bytes, prompt.as_str())
}

/// Appends a piece of display bytes.
fn put_piece(alloc: Global, bytes: &mut Vec<u8>, piece: &str) -> Result<(), AllocError> {
    match searched(piece) {
        Some((heading, rest)) => put_search(alloc, bytes, heading, rest),
        None => put_drawn(alloc, bytes, piece),
    }
}

/// Appends what a piece shows.
fn put_drawn(alloc: Global, bytes: &mut Vec<u8>, piece: &str) -> Result<(), AllocError> {
    for byte in meant_bytes(alloc, piece)? {
        match byte {
            b'{' => bytes.extend_from_slice(BEFORE_THE_LINE)?,
            b'}' => bytes.extend_from_slice(AFTER_THE_LINE)?,
            other => bytes.push(other)?,
        }
    }
    Ok(())
}

/// Display bytes: `{ab}` is a drawing of the line `ab` in the first row, blanks are nothing, and
/// the rest stands for itself. `'xy'ab}` is a drawing after the prompt of a search for `xy`, `>'` of
/// a forward one, and `!'` and `!>'` of those that failed.
pub fn display_meant(alloc: Global, shown: &str) -> Result<Vec<u8>, AllocError> {
    let mut bytes = Vec::new(alloc);
    for piece in shown.split_whitespace() {
        put_piece(alloc, &mut bytes, piece)?;
    }
    Ok(bytes)
}
