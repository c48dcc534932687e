//! The helper of a line: completer, hinter, highlighter and validator in one.
ghost use Rattle.std.specs.Prelude.{◌≡◌, refl};

use crate::completion::Completer;
use crate::helpers::highlight::Highlighter;
use crate::helpers::hint::Hinter;
use crate::helpers::validate::Validator;

/// A completer, hinter, highlighter and validator.
///
/// `highlight_char` doesn't change what the other calls answer.
pub trait Helper: Completer + Hinter + Highlighter + Validator {
    ghost same_completions: { (before after : Self) → Self.Highlighter.kept before after
        → Self.Completer.completion_of after ≡ Self.Completer.completion_of before };

    ghost same_updates: { (before after : Self) → Self.Highlighter.kept before after
        → Self.Completer.update_of after ≡ Self.Completer.update_of before };

    ghost same_hints: { (before after : Self) → Self.Highlighter.kept before after
        → Self.Hinter.hint_of after ≡ Self.Hinter.hint_of before };

    ghost same_verdicts: { (before after : Self) → Self.Highlighter.kept before after
        → Self.Validator.verdict_of after ≡ Self.Validator.verdict_of before };
}

/// No candidates, no hints and no styles; every text is valid.
impl Helper for () {
    ghost same_completions = { λ before after kept. refl };

    ghost same_updates = { λ before after kept. refl };

    ghost same_hints = { λ before after kept. refl };

    ghost same_verdicts = { λ before after kept. refl };
}
