//! Words of a text, one per row.
ghost use Rattle.std.specs.Prelude.{◌≡◌, ◌<◌, if◌then◌else◌, ◌++◌, ◌∷◌, [], length, true, false, map, string_bytes, IsTrue, IfErr, OnOk};
ghost use Rattle.std.specs.Str.{is_utf8};
ghost use Rattle.line_config.specs.declared.errors.ReadlineError.TheVariants.{Memory, NotUtf8};
ghost use Rattle.line_help.specs.HistoryText.{entries_of, LoadsWords};

use crate::history::rows::RowReader;
use line_config::{ReadlineError, Source};
use std::alloc::Global;

/// Adds the word of a row. An empty row has no word.
fn push_word(alloc: Global, words: &mut Vec<String>, row: &[u8]) -> Result<(), ReadlineError>
    ensures added { OnOk result (map string_bytes words.new.items
        ≡ map string_bytes words.old.items ++ entries_of false (row.now ∷ [])) }
    ensures text { OnOk result (is_utf8 row.now ≡ true) }
    ensures fault { IfErr result (λ e. (e ≡ (if is_utf8 row.now then Memory else NotUtf8))
        × (0 < length row.now)) }
{
    if row.is_empty() {
        return Ok(());
    }
    let text = str::from_utf8(row).map_err(|_| ReadlineError::NotUtf8)?;
    words.push(String::from_str(alloc, text)?)?;
    Ok(())
}

/// The words of a text, one per row, in their order. Rows are split like a history's, and an empty
/// row has no word. Fails if a row isn't UTF-8 (`NotUtf8`), if the source fails (`Reader`) or if an
/// allocation fails (`Memory`). The rows after one that isn't UTF-8 remain in the source.
pub fn load_words<S: Source>(alloc: Global, source: &mut S) -> Result<Vec<String>, ReadlineError>
    ensures { LoadsWords (S.feed source.old) (S.feed source.new) result }
{
    let mut words = Vec::new(alloc);
    let mut rows = RowReader::new(alloc);
    while rows.read(source)? {
        push_word(alloc, &mut words, &rows.row)?;
    }
    Ok(words)
}
