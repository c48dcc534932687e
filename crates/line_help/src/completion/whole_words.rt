//! Completion from a list of words, each of which is a whole one.
ghost use Rattle.std.specs.Prelude.{◌≡◌, ◌<◌, map, take, length, IfOk, IfErr, string_bytes};
ghost use Rattle.line_config.specs.declared.errors.HookFault.TheVariants.{Memory};
ghost use Rattle.line_keys.specs.Replies.{gives};
ghost use Rattle.line_help.specs.Completion.{word_offered, words_reply};

use crate::completion::word_before::extract_word;
use crate::completion::word_completer::words_for;
use crate::completion::{Candidate, Completer, update_line};
use crate::helpers::context::Context;
use crate::history::History;
use line_buffer::{ChangeListener, LineBuffer};
use line_config::HookFault;
use std::alloc::Global;
use std::marker::Model;

/// A candidate whose text is another one if there is no other candidate.
#[derive(Debug, Drop)]
pub struct WholeWord {
    /// The text to list.
    pub display: String,
    /// The text to insert into the line.
    pub replacement: String,
    /// The text to insert if there is no other candidate.
    pub alone: String,
}

impl Model for WholeWord {
    ghost use Rattle.std.specs.Prelude.{string_bytes};
    ghost use Rattle.line_help.specs.Completion.{Offered};

    ghost Value = { Offered };

    ghost view = { λ w. record {
      display = string_bytes w.display;
      replacement = string_bytes w.replacement;
      alone = string_bytes w.alone;
    } };
}

impl WholeWord {
    /// A word to list and to insert. If there is no other candidate, `end` follows it, as a space.
    pub fn new(alloc: Global, word: &str, end: &str) -> Result<Self, HookFault>
        ensures word { IfOk result (λ whole. whole ≡ word_offered end.now word.now) }
        ensures fault { IfErr result (λ e. e ≡ Memory) }
    {
        let display = String::from_str(alloc, word)?;
        let replacement = String::from_str(alloc, word)?;
        let mut alone = String::from_str(alloc, word)?;
        alone.push_str(end)?;
        Ok(WholeWord {
            display,
            replacement,
            alone,
        })
    }
}

impl Candidate for WholeWord {
    ghost offers = { λ whole. whole };

    fn display(&self) -> &str {
        self.display.as_str()
    }

    fn replacement(&self) -> &str {
        self.replacement.as_str()
    }

    fn alone(&self) -> &str {
        self.alone.as_str()
    }
}

/// Completes as `WordCompleter` does. If a word is the only candidate, a text that ends words, as a
/// space, may follow it.
#[derive(Debug, Drop)]
pub struct WholeWordCompleter {
    words: Vec<String>,
    end: &'static str,
}

impl Model for WholeWordCompleter {
    ghost use Rattle.std.specs.Prelude.{map, string_bytes};
    ghost use Rattle.line_help.specs.Completion.{WholeWords};

    ghost Value = { WholeWords };

    ghost view = { λ c. record {
      words = map string_bytes c.words.items;
      end = c.end.now;
    } };
}

impl WholeWordCompleter {
    /// A completer with these words, and with what ends a word that is the only candidate.
    pub fn new(words: Vec<String>, end: &'static str) -> Self
        ensures { result ≡ record { words = map string_bytes words.items; end = end.now } }
    {
        WholeWordCompleter { words, end }
    }
}

/// The candidates for these words.
fn whole_words(alloc: Global, words: &[String], end: &str) -> Result<Vec<WholeWord>, HookFault>
    ensures words { IfOk result (λ found. found.items
        ≡ map (word_offered end.now) (map string_bytes words.now)) }
    ensures fault { IfErr result (λ e. e ≡ Memory) }
    ensures memory { IfErr result (λ e. 0 < length words.now) }
{
    let mut found = Vec::new(alloc);
    for word in words {
        found.push(WholeWord::new(alloc, word.as_str(), end)?)?;
    }
    Ok(found)
}

impl Completer for WholeWordCompleter {
    type Candidate = WholeWord;

    ghost completion_of = { λ held line pos entries place.
        words_reply (word_offered held.end) held.words (take pos line) };

    ghost update_of = { λ held line start elected. gives (tt {0}) };

    fn complete<Hi: History>(
        &self,
        alloc: Global,
        line: &str,
        pos: usize,
        _ctx: &Context<'_, Hi>,
    ) -> Result<(usize, Vec<WholeWord>), HookFault> {
        let (start, word) = extract_word(line, pos, None, |c| c.is_whitespace());
        let found = words_for(alloc, &self.words, word)?;
        let whole = whole_words(alloc, &found, self.end)?;
        Ok((start, whole))
    }

    fn update<L: ChangeListener>(
        &self,
        alloc: Global,
        line: &mut LineBuffer,
        start: usize,
        elected: &str,
        cl: &mut L,
    ) -> Result<(), HookFault> {
        update_line(alloc, line, start, elected, cl)
    }
}
