//! A helper for sessions that answers as its words say, right or wrong.
//!
//! The word `advised` asks for it. Its words for hints are `hint:`, `taken:` (what the hint adds to
//! the line) and `hint-from:`, or `hints:taken` for those of the history, and `hints:shown` if these
//! can't be accepted. Those for verdicts are `verdict:`, `later:`,
//! `later-from:` and `message:`. Those for completion are `offers:` (a candidate, or two with a
//! comma between them), `start:`, `ends:` (what follows a candidate that is the only one) and
//! `shown:` (what follows one in a list). Those for styles are `marked:`, `marks-from:`, `keyword:` and
//! what `styles` reads. Those for faults are `hint-fails:`, `verdict-fails:`,
//! `completion-fails:`, `update-fails:` and `wants-memory`; the first word of several of a kind is
//! the one that counts, as of `wants-memory:no wants-memory`.

ghost use Rattle.std.specs.Prelude.{◌≡◌, ◌==◌, nat_le, option_copied, option_map, length, Option, None, Some, false, if◌then◌else◌, string_bytes, IfErr};
ghost use Rattle.line_help.specs.Completion.{Offered};
ghost use Rattle.line_help.specs.Hints.{history_hint};
ghost use Rattle.line_keys.specs.Replies.{gives_at_once, gives_unless};
ghost use Rattle.line_config.specs.declared.errors.HookFault.TheVariants.{Memory};

use crate::words::notation::{after, number_after, text_meant};
use crate::words::styles::{Styles, styles_of};
use line_buffer::{ChangeListener, LineBuffer};
use line_config::{CompletionType, HookFault};
use line_help::{
    Completer, Context, Helper, Highlighter, Hint, Hinter, History, HistoryHinter, Mark, Part,
    Span, ValidationContext, ValidationResult, Validator, WholeWord, update_line,
};
use line_keys::{CmdKind, Text};
use std::alloc::{AllocError, Global};
use std::borrow::CowStr;

/// The verdict on a text; those with a message have the adviser's.
#[derive(Clone, Copy)]
pub enum Verdict {
    Incomplete,
    Invalid,
    InvalidTold,
    Valid,
    ValidTold,
}

/// The candidates for any word.
#[derive(Clone, Copy)]
pub enum Offer<'a> {
    Nothing,
    One(&'a str),
    Two(&'a str, &'a str),
}

/// The hint for any line: a text, and what it adds to the line if it can be accepted; or that of
/// the history, which can be accepted or only be shown.
#[derive(Clone, Copy)]
pub enum Hints<'a> {
    Silent,
    Fixed(&'a str, Option<&'a str>),
    Recalled(bool),
}

/// A hint of an adviser: a text, and what it adds to the line; or the rest of an entry, which can
/// be accepted or only be shown.
#[derive(Drop)]
pub enum Said<'a> {
    Words(&'a str, Option<&'a str>),
    Rest(String, bool),
}

impl Hint for Said<'_> {
    ghost use Rattle.session_rows.specs.declared.words.advice.Said.TheVariants.{Words, Rest};

    ghost says = { λ h. elim h [
      | Words display completion ↦ record { display = display.now; completion = option_copied completion }
      | Rest text completes ↦ record { display = string_bytes text; completion = if completes then Some (string_bytes text) else None }
    ] };

    fn display(&self) -> &str {
        match self {
            Said::Words(display, _) => display,
            Said::Rest(text, _) => text.as_str(),
        }
    }

    fn completion(&self) -> Option<&str> {
        match self {
            Said::Words(_, completion) => *completion,
            Said::Rest(text, true) => Some(text.as_str()),
            Said::Rest(_, false) => None,
        }
    }
}

/// A helper with fixed answers. It has one hint for lines of at least so many bytes, or those of
/// the history, and one verdict for shorter texts and another one for longer texts. Its candidates are the same for
/// every word, which begins at one place. The line is highlighted if the cursor is at `marked_at`,
/// or if it has at least `marks_from` bytes. For texts of at least so many bytes hinter, validator
/// and completer fail, or run out of memory; the completer inserts no text of so many bytes.
#[derive(Clone, Copy, Drop)]
pub struct Adviser<'a> {
    hints: Hints<'a>,
    hint_from: usize,
    hint_fails_from: usize,
    verdict: Verdict,
    later: Verdict,
    later_from: usize,
    message: &'a str,
    verdict_fails_from: usize,
    offer: Offer<'a>,
    start: usize,
    ends: &'a str,
    shown: &'a str,
    completion_fails_from: usize,
    update_fails_from: usize,
    marked_at: usize,
    marks_from: usize,
    styles: Styles<'a>,
    wants_memory: bool,
}

impl Adviser<'_> {
    ghost use Rattle.std.specs.Prelude.{IfOk, ◌++◌};

    /// A candidate with what follows it where it stands alone, and in a list.
    fn offered(&self, alloc: Global, word: &str) -> Result<WholeWord, HookFault>
        ensures word { IfOk result (λ whole. whole
            ≡ record {
              display = word.now ++ self.now.shown.now;
              replacement = word.now;
              alone = word.now ++ self.now.ends.now;
            }) }
        ensures fault { IfErr result (λ e. e ≡ Memory) }
    {
        let WholeWord {
            display,
            replacement,
            alone,
        } = WholeWord::new(alloc, word, self.ends)?;
        let mut display = display;
        display.push_str(self.shown)?;
        Ok(WholeWord {
            display,
            replacement,
            alone,
        })
    }

    fn fault(&self) -> HookFault {
        if self.wants_memory {
            HookFault::Memory
        } else {
            HookFault::Failed
        }
    }

    fn said(&self, alloc: Global) -> Result<Text, HookFault>
        ensures ok { IfOk result (λ t. t ≡ self.now.message.now) }
        ensures err { IfErr result (λ e. e ≡ Memory) }
    {
        match Text::try_from_str(alloc, self.message) {
            Ok(text) => Ok(text),
            Err(_) => Err(HookFault::Memory),
        }
    }
}

impl Completer for Adviser<'_> {
    ghost use Rattle.std.specs.Prelude.{◌∷◌, [], ◌++◌};
    ghost use Rattle.session_rows.specs.declared.words.advice.Offer.TheVariants.{Nothing, One, Two};

    type Candidate = WholeWord;

    ghost completion_of = { λ self line pos entries place. gives_unless (nat_le self.completion_fails_from (length line))
        (record {
          start = self.start;
          candidates = elim self.offer [
            | Nothing ↦ []
            | One a ↦ (record { display = a.now ++ self.shown.now; replacement = a.now; alone = a.now ++ self.ends.now }) ∷ []
            | Two a b ↦ (record { display = a.now ++ self.shown.now; replacement = a.now; alone = a.now ++ self.ends.now })
                ∷ ((record { display = b.now ++ self.shown.now; replacement = b.now; alone = b.now ++ self.ends.now }) ∷ [])
          ];
        }) };

    ghost update_of = { λ self line start elected. gives_unless (nat_le self.update_fails_from (length elected)) (tt {0}) };

    fn complete<Hi: History>(
        &self,
        alloc: Global,
        line: &str,
        _pos: usize,
        _ctx: &Context<'_, Hi>,
    ) -> Result<(usize, Vec<WholeWord>), HookFault> {
        if line.len() >= self.completion_fails_from {
            return Err(self.fault());
        }
        let mut candidates = Vec::new(alloc);
        match self.offer {
            Offer::Nothing => {}
            Offer::One(word) => candidates.push(self.offered(alloc, word)?)?,
            Offer::Two(word, other) => {
                candidates.push(self.offered(alloc, word)?)?;
                candidates.push(self.offered(alloc, other)?)?;
            }
        }
        Ok((self.start, candidates))
    }

    fn update<L: ChangeListener>(
        &self,
        alloc: Global,
        line: &mut LineBuffer,
        start: usize,
        elected: &str,
        cl: &mut L,
    ) -> Result<(), HookFault> {
        if elected.len() >= self.update_fails_from {
            return Err(self.fault());
        }
        update_line(alloc, line, start, elected, cl)
    }
}

impl<'a> Hinter for Adviser<'a> {
    ghost use Rattle.session_rows.specs.declared.words.advice.Hints.TheVariants.{Silent, Fixed, Recalled};

    type Hint = Said<'a>;

    ghost hint_of = { λ self line pos entries place. gives_unless (nat_le self.hint_fails_from (length line))
        (if nat_le self.hint_from (length line) then (elim self.hints [
          | Silent ↦ None
          | Fixed display completion ↦ Some (record { display = display.now; completion = option_copied completion })
          | Recalled completes ↦ option_map (λ t. record { display = t; completion = if completes then Some t else None }) (history_hint line pos entries place)
        ]) else None) };

    fn hint<Hi: History>(
        &self,
        alloc: Global,
        line: &str,
        pos: usize,
        ctx: &Context<'_, Hi>,
    ) -> Result<Option<Said<'a>>, HookFault> {
        if line.len() >= self.hint_fails_from {
            return Err(self.fault());
        }
        if line.len() < self.hint_from {
            return Ok(None);
        }
        match self.hints {
            Hints::Silent => Ok(None),
            Hints::Fixed(display, completion) => Ok(Some(Said::Words(display, completion))),
            Hints::Recalled(completes) => match HistoryHinter.hint(alloc, line, pos, ctx)? {
                Some(text) => Ok(Some(Said::Rest(text, completes))),
                None => Ok(None),
            },
        }
    }
}

impl Highlighter for Adviser<'_> {
    ghost use Rattle.std.specs.Prelude.{◌||◌};
    ghost use Rattle.session_rows.specs.Styles.{text_with_styles};

    ghost marks = { λ self. record {
      marked = λ line pos kind. (pos == self.marked_at) || nat_le self.marks_from (length line);
      paints = λ part text from. text_with_styles self.styles part text from;
    } };

    ghost kept = { λ before after. after ≡ before };

    ghost shown_as = { λ self part text. gives_at_once text };

    ghost shown_after = { λ self line pos kind part text. gives_at_once text };

    fn highlight<'l>(
        &self,
        alloc: Global,
        line: &'l str,
        pos: usize,
    ) -> Result<CowStr<'l>, HookFault> {
        ().highlight(alloc, line, pos)
    }

    fn highlight_prompt<'p>(
        &self,
        alloc: Global,
        prompt: &'p str,
        default: bool,
    ) -> Result<CowStr<'p>, HookFault> {
        ().highlight_prompt(alloc, prompt, default)
    }

    fn highlight_hint<'h>(&self, alloc: Global, hint: &'h str) -> Result<CowStr<'h>, HookFault> {
        ().highlight_hint(alloc, hint)
    }

    fn highlight_candidate<'c>(
        &self,
        alloc: Global,
        candidate: &'c str,
        completion: CompletionType,
    ) -> Result<CowStr<'c>, HookFault> {
        ().highlight_candidate(alloc, candidate, completion)
    }

    fn highlight_char(&mut self, line: &str, pos: usize, _kind: CmdKind) -> bool {
        pos == self.marked_at || line.len() >= self.marks_from
    }

    fn next_span(&self, part: Part, text: &str, from: Mark) -> Option<(Span, Mark)> {
        self.styles.next_span(part, text, from)
    }
}

impl Validator for Adviser<'_> {
    ghost use Rattle.line_help.specs.declared.helpers.validate.ValidationResult.TheVariants as results;
    ghost use Rattle.session_rows.specs.declared.words.advice.Verdict.TheVariants.{Incomplete, Invalid, InvalidTold, Valid, ValidTold};

    ghost verdict_of = { λ self text. gives_unless (nat_le self.verdict_fails_from (length text))
        (elim (if nat_le self.later_from (length text) then self.later else self.verdict) [
          | Incomplete ↦ results.Incomplete
          | Invalid ↦ results.Invalid None
          | InvalidTold ↦ results.Invalid (Some self.message.now)
          | Valid ↦ results.Valid None
          | ValidTold ↦ results.Valid (Some self.message.now)
        ]) };

    ghost while_typing = { λ self. false };

    fn validate(
        &self,
        alloc: Global,
        ctx: &ValidationContext<'_>,
    ) -> Result<ValidationResult, HookFault> {
        let len = ctx.input().len();
        if len >= self.verdict_fails_from {
            return Err(self.fault());
        }
        let verdict = if len >= self.later_from {
            self.later
        } else {
            self.verdict
        };
        let found = match verdict {
            Verdict::Incomplete => ValidationResult::Incomplete,
            Verdict::Invalid => ValidationResult::Invalid(None),
            Verdict::InvalidTold => ValidationResult::Invalid(Some(self.said(alloc)?)),
            Verdict::Valid => ValidationResult::Valid(None),
            Verdict::ValidTold => ValidationResult::Valid(Some(self.said(alloc)?)),
        };
        Ok(found)
    }

    fn validate_while_typing(&self) -> bool {
        false
    }
}

impl<'a> Helper for Adviser<'a> {
    ghost use Rattle.std.proofs.Common.{ap};

    ghost same_completions = { λ before after kept. ap ⟦<Adviser<'a> as Completer>⟧.completion_of kept };

    ghost same_updates = { λ before after kept. ap ⟦<Adviser<'a> as Completer>⟧.update_of kept };

    ghost same_hints = { λ before after kept. ap ⟦<Adviser<'a> as Hinter>⟧.hint_of kept };

    ghost same_verdicts = { λ before after kept. ap ⟦<Adviser<'a> as Validator>⟧.verdict_of kept };
}

/// The texts of an adviser, in memory of their own.
#[derive(Drop)]
pub struct Texts {
    hint: Option<String>,
    taken: Option<String>,
    message: String,
    offers: Option<String>,
    ends: String,
    shown: String,
    keyword: String,
}

fn text_after(alloc: Global, words: &str, beginning: &str) -> Result<Option<String>, AllocError> {
    match after(words, beginning) {
        Some(shown) => Ok(Some(text_meant(alloc, shown)?)),
        None => Ok(None),
    }
}

/// The texts of a setting's adviser.
pub fn texts_of(alloc: Global, words: &str) -> Result<Texts, AllocError> {
    Ok(Texts {
        hint: text_after(alloc, words, "hint:")?,
        taken: text_after(alloc, words, "taken:")?,
        message: text_meant(alloc, after(words, "message:").unwrap_or(""))?,
        offers: text_after(alloc, words, "offers:")?,
        ends: text_meant(alloc, after(words, "ends:").unwrap_or(""))?,
        shown: text_meant(alloc, after(words, "shown:").unwrap_or(""))?,
        keyword: text_meant(alloc, after(words, "keyword:").unwrap_or(""))?,
    })
}

fn verdict_named(name: &str) -> Verdict {
    match name {
        "Incomplete" => Verdict::Incomplete,
        "Invalid" => Verdict::Invalid,
        "InvalidTold" => Verdict::InvalidTold,
        "ValidTold" => Verdict::ValidTold,
        _ => Verdict::Valid,
    }
}

impl Texts {
    fn hints(&self, words: &str) -> Hints<'_> {
        if let Some(how) = after(words, "hints:") {
            return Hints::Recalled(how == "taken");
        }
        match &self.hint {
            Some(display) => Hints::Fixed(
                display.as_str(),
                self.taken.as_ref().map(|text| text.as_str()),
            ),
            None => Hints::Silent,
        }
    }

    fn offer(&self) -> Offer<'_> {
        match &self.offers {
            Some(offers) => match offers.as_str().split_once(',') {
                Some((word, other)) => Offer::Two(word, other),
                None if offers.is_empty() => Offer::Nothing,
                None => Offer::One(offers.as_str()),
            },
            None => Offer::Nothing,
        }
    }

    /// The adviser of a setting.
    pub fn adviser(&self, words: &str) -> Adviser<'_> {
        Adviser {
            hints: self.hints(words),
            hint_from: number_after(words, "hint-from:", 0),
            hint_fails_from: number_after(words, "hint-fails:", usize::MAX),
            verdict: verdict_named(after(words, "verdict:").unwrap_or("")),
            later: verdict_named(after(words, "later:").unwrap_or("")),
            later_from: number_after(words, "later-from:", usize::MAX),
            message: self.message.as_str(),
            verdict_fails_from: number_after(words, "verdict-fails:", usize::MAX),
            offer: self.offer(),
            start: number_after(words, "start:", 0),
            ends: self.ends.as_str(),
            shown: self.shown.as_str(),
            completion_fails_from: number_after(words, "completion-fails:", usize::MAX),
            update_fails_from: number_after(words, "update-fails:", usize::MAX),
            marked_at: number_after(words, "marked:", usize::MAX),
            marks_from: number_after(words, "marks-from:", usize::MAX),
            styles: styles_of(words, self.keyword.as_str()),
            wants_memory: after(words, "wants-memory").unwrap_or(":no") != ":no",
        }
    }
}
