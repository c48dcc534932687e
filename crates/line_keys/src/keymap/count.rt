//! Counts typed before a key: signed numbers.

ghost use Rattle.std.specs.Prelude.{◌≡◌, ◌≤◌, ◌-◌, IfSome, string_bytes};
ghost use Rattle.line_config.specs.Refusals.{OrMemory};
ghost use Rattle.line_config.specs.declared.settings.EditMode.TheVariants.{Emacs, Vi};
ghost use Rattle.line_keys.specs.Counts.{and_digit, count_from_key, count_with_key, digit_of};
ghost use Rattle.line_keys.specs.Counts.{how_often, is_plus, prompt_for};

use crate::flags::Modifiers;
use crate::handler::Decides;
use crate::key::{KeyCode, KeyEvent};
use crate::keymap::InputState;
use crate::refresh::Refresher;
use crate::tty::RawReader;
use line_buffer::RepeatCount;
use line_config::{EditMode, ReadlineError};
use std::alloc::Global;

/// How often a command is repeated, and whether the typed count isn't negative.
#[derive(Clone, Copy)]
pub(crate) struct SignedCount {
    pub(crate) n: RepeatCount,
    pub(crate) positive: bool,
}

impl SignedCount {
    /// The count that was typed, if one was.
    pub(crate) fn new(typed: Option<i16>) -> Self
        ensures n { result.n ≡ how_often typed }
        ensures positive { result.positive ≡ is_plus typed }
    {
        SignedCount {
            n: times(typed),
            positive: is_positive(typed),
        }
    }
}

/// How often a command is repeated.
pub(crate) fn times(count: Option<i16>) -> RepeatCount
    ensures { result ≡ how_often count }
{
    match count {
        None | Some(0) => 1,
        Some(count) => count.unsigned_abs(),
    }
}

/// Whether a count isn't negative.
fn is_positive(count: Option<i16>) -> bool
    ensures { result ≡ is_plus count }
{
    match count {
        None => true,
        Some(count) => count >= 0,
    }
}

/// The count with one more digit. After a minus alone, which stands for -1, the digit replaces the
/// 1.
fn with_digit(count: i16, digit: RepeatCount) -> i16
    requires { digit ≤ 9 }
    ensures { result ≡ and_digit count digit }
{
    if count == -1 {
        return -(digit as i16);
    }
    // Four digits are enough.
    if count.unsigned_abs() >= 1000 {
        return count;
    }
    count * 10 + digit as i16
}

fn prompt(alloc: Global, count: i16) -> Result<String, ReadlineError>
    ensures { OrMemory result (λ s. string_bytes s ≡ prompt_for count) }
{
    Ok(format!(in alloc; "(arg: {count}) ")?)
}

/// The digit of a character.
fn digit(c: char) -> RepeatCount
    requires low { 48 ≤ c }
    requires high { c ≤ 57 }
    ensures value { result ≡ c - 48 }
    ensures small { result ≤ 9 }
{
    c as RepeatCount - 48
}

/// The count that a key starts in Emacs mode: Alt with a digit or with a minus.
fn emacs_begun_by(key: KeyEvent) -> Option<i16>
    ensures { result ≡ count_from_key Emacs key }
{
    match key {
        KeyEvent(KeyCode::Char('-'), Modifiers::ALT) => Some(-1),
        KeyEvent(KeyCode::Char(c @ '0'..='9'), Modifiers::ALT) => Some(digit(c) as i16),
        _ => None,
    }
}

/// The count that a key starts in Vi's command mode: a digit other than 0.
fn vi_begun_by(key: KeyEvent) -> Option<i16>
    ensures { result ≡ count_from_key Vi key }
{
    match digit_of(key) {
        None | Some(0) => None,
        Some(digit) => Some(digit as i16),
    }
}

/// The count that a key starts.
fn begun_by(mode: EditMode, key: KeyEvent) -> Option<i16>
    ensures { result ≡ count_from_key mode key }
{
    match mode {
        EditMode::Emacs => emacs_begun_by(key),
        EditMode::Vi => vi_begun_by(key),
    }
}

/// The count with one more key in Emacs mode, if the key is a digit, or a minus, which is ignored.
fn emacs_counted_on(count: i16, key: KeyEvent) -> Option<i16>
    ensures { result ≡ count_with_key Emacs count key }
{
    match key {
        KeyEvent(KeyCode::Char('-'), Modifiers::NONE | Modifiers::ALT) => Some(count),
        KeyEvent(KeyCode::Char(c @ '0'..='9'), Modifiers::NONE | Modifiers::ALT) => {
            Some(with_digit(count, digit(c)))
        }
        _ => None,
    }
}

/// The digit of a key without modifiers.
fn digit_of(key: KeyEvent) -> Option<RepeatCount>
    ensures value { result ≡ digit_of key }
    ensures small { IfSome result (λ d. d ≤ 9) }
{
    match key {
        KeyEvent(KeyCode::Char(c @ '0'..='9'), Modifiers::NONE) => Some(digit(c)),
        _ => None,
    }
}

/// The count with one more key in Vi mode, if the key is a digit.
fn vi_counted_on(count: i16, key: KeyEvent) -> Option<i16>
    ensures { result ≡ count_with_key Vi count key }
{
    match digit_of(key) {
        Some(digit) => Some(with_digit(count, digit)),
        None => None,
    }
}

/// The count with one more key.
fn counted_on(mode: EditMode, count: i16, key: KeyEvent) -> Option<i16>
    ensures { result ≡ count_with_key mode count key }
{
    match mode {
        EditMode::Emacs => emacs_counted_on(count, key),
        EditMode::Vi => vi_counted_on(count, key),
    }
}

impl<D: Decides> InputState<'_, D> {
    ghost use Rattle.line_keys.specs.InputStates.{FollowsOn};
    ghost use Rattle.line_keys.specs.Counts.{count_and_key, rest_of_count, count_with_key};
    ghost use Rattle.line_keys.specs.PhraseScripts.{is_emacs};
    ghost use Rattle.line_keys.specs.Requests.{AsksInOrder, IsKey};

    /// The key; if it starts a count, the count and the key after it.
    pub(crate) fn counted_key<R: RawReader, W: Refresher>(
        &self,
        alloc: Global,
        rdr: &mut R,
        wrt: &mut W,
        key: KeyEvent,
    ) -> Result<(Option<i16>, KeyEvent), ReadlineError>
        ensures phrase { FollowsOn (λ custom input shown. count_and_key input.mode key)
            self.now self.now D.decides W.display wrt.old wrt.new
            (R.feed rdr.old) (R.feed rdr.new) result }
        ensures asks { AsksInOrder R.asked (IsKey (is_emacs self.now.mode)) rdr.old rdr.new }
    {
        match begun_by(self.mode, key) {
            Some(begun) => self.digit_argument(alloc, rdr, wrt, begun),
            None => Ok((None, key)),
        }
    }

    /// The rest of a count, and the key after it.
    fn digit_argument<R: RawReader, W: Refresher>(
        &self,
        alloc: Global,
        rdr: &mut R,
        wrt: &mut W,
        begun: i16,
    ) -> Result<(Option<i16>, KeyEvent), ReadlineError>
        ensures phrase { FollowsOn
            (λ custom input shown. rest_of_count (count_with_key input.mode) begun)
            self.now self.now D.decides W.display wrt.old wrt.new
            (R.feed rdr.old) (R.feed rdr.new) result }
        ensures asks { AsksInOrder R.asked (IsKey (is_emacs self.now.mode)) rdr.old rdr.new }
    {
        let mut count = begun;
        loop {
            let prompt = prompt(alloc, count)?;
            wrt.refresh_prompt_and_line(prompt.as_str())?;
            let key = rdr.next_key(self.mode == EditMode::Emacs)?;
            match counted_on(self.mode, count, key) {
                Some(more) => count = more,
                None => {
                    wrt.refresh_line()?;
                    return Ok((Some(count), key));
                }
            }
        }
    }
}
