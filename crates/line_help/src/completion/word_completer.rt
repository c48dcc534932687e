//! Completion from a list of words.
ghost use Rattle.std.specs.Prelude.{◌≡◌, ◌<◌, map, take, length, nat_eq, IfOk, IfErr, string_bytes};
ghost use Rattle.std.specs.List.{starts_with};
ghost use Rattle.line_keys.specs.Replies.{gives};
ghost use Rattle.line_help.specs.Completion.{text_offered, words_for, words_reply};

use crate::completion::word_before::extract_word;
use crate::completion::{Completer, update_line};
use crate::helpers::context::Context;
use crate::history::History;
use line_buffer::{ChangeListener, LineBuffer};
use line_config::HookFault;
use std::alloc::{AllocError, Global};
use std::marker::Model;

/// Completes the text after the last whitespace before the cursor by the words that begin with it,
/// in their order.
#[derive(Debug, Drop)]
pub struct WordCompleter {
    words: Vec<String>,
}

impl Model for WordCompleter {
    ghost use Rattle.std.specs.Prelude.{ℕ, List, map, string_bytes};

    ghost Value = { List (List ℕ) };

    ghost view = { λ c. map string_bytes c.words.items };
}

impl WordCompleter {
    /// A completer with these words.
    pub fn new(words: Vec<String>) -> Self
        ensures { result ≡ map string_bytes words.items }
    {
        WordCompleter { words }
    }
}

fn begins_with(word: &str, beginning: &str) -> bool
    ensures { result ≡ starts_with nat_eq word.now beginning.now }
{
    word.starts_with(beginning)
}

/// The words that begin with a text, in their order.
pub(crate) fn words_for(
    alloc: Global,
    words: &[String],
    beginning: &str,
) -> Result<Vec<String>, AllocError>
    ensures words { IfOk result (λ found. map string_bytes found.items
        ≡ words_for beginning.now (map string_bytes words.now)) }
    ensures memory { IfErr result (λ e.
        0 < length (words_for beginning.now (map string_bytes words.now))) }
{
    let mut found = Vec::new(alloc);
    for word in words {
        if begins_with(word.as_str(), beginning) {
            found.push(String::from_str(alloc, word.as_str())?)?;
        }
    }
    Ok(found)
}

impl Completer for WordCompleter {
    type Candidate = String;

    ghost completion_of = { λ words line pos entries place.
        words_reply text_offered words (take pos line) };

    ghost update_of = { λ words line start elected. gives (tt {0}) };

    fn complete<Hi: History>(
        &self,
        alloc: Global,
        line: &str,
        pos: usize,
        _ctx: &Context<'_, Hi>,
    ) -> Result<(usize, Vec<String>), HookFault> {
        let (start, word) = extract_word(line, pos, None, |c| c.is_whitespace());
        let found = words_for(alloc, &self.words, word)?;
        Ok((start, found))
    }

    fn update<L: ChangeListener>(
        &self,
        alloc: Global,
        line: &mut LineBuffer,
        start: usize,
        elected: &str,
        cl: &mut L,
    ) -> Result<(), HookFault> {
        update_line(alloc, line, start, elected, cl)
    }
}
