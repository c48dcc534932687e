//! Escapes in a saved history: a newline is written as `\n`, a backslash as two.
ghost use Rattle.std.specs.Prelude.{◌≡◌, ◌==◌, [], IfOk, OnOk, option_map, unwrap_or, string_bytes};
ghost use Rattle.std.specs.List.{list_any};
ghost use Rattle.line_help.specs.HistoryText.{escaped_byte, row_of, unescaped_row, entry_of, SendsText, SendsRun};

use line_config::{ReadlineError, Sink};
use memchr::memchr2;
use std::alloc::{AllocError, Global};

/// Writes bytes of a history's text.
pub(crate) fn put<S: Sink>(sink: &mut S, bytes: &[u8]) -> Result<(), ReadlineError>
    ensures { SendsText S.held S.has_failed bytes.now sink.old sink.new result }
{
    sink.write(bytes).map_err(|_| ReadlineError::HistoryText)
}

/// Passes on the written bytes.
pub(crate) fn pass_on<S: Sink>(sink: &mut S) -> Result<(), ReadlineError>
    ensures sends { SendsText S.held S.has_failed [] sink.old sink.new result }
    ensures passes { OnOk result (S.waits sink.new ≡ []) }
{
    sink.flush().map_err(|_| ReadlineError::HistoryText)
}

/// Writes a byte of an entry: a newline and a backslash as two.
fn put_escaped<S: Sink>(sink: &mut S, byte: u8) -> Result<(), ReadlineError>
    ensures { SendsText S.held S.has_failed (escaped_byte byte) sink.old sink.new result }
{
    match byte {
        b'\n' => put(sink, b"\\n"),
        b'\\' => put(sink, b"\\\\"),
        plain => put(sink, &[plain]),
    }
}

/// Writes the bytes of an entry up to its first newline or backslash, and that one. Returns how
/// many bytes of the entry were written.
fn put_run<S: Sink>(sink: &mut S, bytes: &[u8]) -> Result<usize, ReadlineError>
    ensures { SendsRun S.held S.has_failed bytes.now sink.old sink.new result }
{
    let Some(at) = memchr2(b'\n', b'\\', bytes) else {
        put(sink, bytes)?;
        return Ok(bytes.len());
    };
    put(sink, &bytes[..at])?;
    put_escaped(sink, bytes[at])?;
    Ok(at + 1)
}

/// Writes an entry as a row, which ends in a newline.
pub(crate) fn write_row<S: Sink>(sink: &mut S, entry: &str) -> Result<(), ReadlineError>
    ensures { SendsText S.held S.has_failed (row_of entry.now) sink.old sink.new result }
{
    let bytes = entry.as_bytes();
    let mut sent = 0;
    while sent < bytes.len() {
        sent += put_run(sink, &bytes[sent..])?;
    }
    put(sink, b"\n")
}

/// The text of a row with escapes, or `None` if a backslash precedes anything other than `n` and a
/// backslash.
#[tactic(auto, using(crate::proofs::EscapeLemmas::escape_steps))]
pub(crate) fn unescaped(alloc: Global, row: &str) -> Result<Option<String>, AllocError>
    ensures { IfOk result (λ text. option_map string_bytes text ≡ unescaped_row row.now) }
{
    let mut text = String::with_capacity(alloc, row.len())?;
    let mut escape = false;
    for c in row.chars() {
        if !escape {
            if c == '\\' {
                escape = true;
            } else {
                text.push(c)?;
            }
        } else {
            match c {
                'n' => text.push('\n')?,
                '\\' => text.push('\\')?,
                _ => return Ok(None),
            }
            escape = false;
        }
    }
    if escape {
        return Ok(None);
    }
    Ok(Some(text))
}

/// Whether a row has a backslash.
fn has_backslash(row: &str) -> bool
    ensures { result ≡ list_any (λ b. b == 92) row.now }
{
    row.as_bytes().contains(&b'\\')
}

/// The entry of a row, if it differs from the row. A row without escapes, or with a wrong one, is
/// its own entry.
#[tactic(auto, using(crate::proofs::EscapeLemmas::no_backslash))]
pub(crate) fn unescaped_entry(
    alloc: Global,
    row: &str,
    escapes: bool,
) -> Result<Option<String>, AllocError>
    ensures { IfOk result (λ text. unwrap_or (option_map string_bytes text) row.now
        ≡ entry_of escapes row.now) }
{
    if escapes && has_backslash(row) {
        unescaped(alloc, row)
    } else {
        Ok(None)
    }
}
