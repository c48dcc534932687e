//! Parts of a helper that may be missing: a missing one answers like `()`.
ghost use Rattle.std.specs.Prelude.{◌≡◌, None, false};
ghost use Rattle.std.specs.Option.{option_map_or};
ghost use Rattle.line_help.specs.Completion.{nothing_offered};
ghost use Rattle.line_keys.specs.Replies.{gives, gives_at_once};

use crate::completion::{Completer, update_line};
use crate::helpers::context::Context;
use crate::helpers::validate::{ValidationContext, ValidationResult, Validator};
use crate::history::History;
use line_buffer::{ChangeListener, LineBuffer};
use line_config::HookFault;
use std::alloc::Global;

/// No candidates if there is no completer.
impl<C: Completer> Completer for Option<C> {
    type Candidate = C::Candidate;

    ghost completion_of = { λ held line pos entries place. option_map_or
        (λ c. C.completion_of c line pos entries place) held (gives_at_once nothing_offered) };

    ghost update_of = { λ held line start elected. option_map_or
        (λ c. C.update_of c line start elected) held (gives (tt {0})) };

    fn complete<Hi: History>(
        &self,
        alloc: Global,
        line: &str,
        pos: usize,
        ctx: &Context<'_, Hi>,
    ) -> Result<(usize, Vec<C::Candidate>), HookFault> {
        match self {
            Some(completer) => completer.complete(alloc, line, pos, ctx),
            None => Ok((0, Vec::new(alloc))),
        }
    }

    fn update<L: ChangeListener>(
        &self,
        alloc: Global,
        line: &mut LineBuffer,
        start: usize,
        elected: &str,
        cl: &mut L,
    ) -> Result<(), HookFault> {
        match self {
            Some(completer) => completer.update(alloc, line, start, elected, cl),
            None => update_line(alloc, line, start, elected, cl),
        }
    }
}

/// Every text is valid if there is no validator, without a message.
impl<V: Validator> Validator for Option<V> {
    ghost use Rattle.line_help.specs.declared.helpers.validate.ValidationResult.TheVariants.{Valid};

    ghost verdict_of = { λ held text. option_map_or
        (λ v. V.verdict_of v text) held (gives_at_once (Valid None)) };

    ghost while_typing = { λ held. option_map_or V.while_typing held false };

    fn validate(
        &self,
        alloc: Global,
        ctx: &ValidationContext<'_>,
    ) -> Result<ValidationResult, HookFault> {
        match self {
            Some(validator) => validator.validate(alloc, ctx),
            None => Ok(ValidationResult::Valid(None)),
        }
    }

    fn validate_while_typing(&self) -> bool {
        match self {
            Some(validator) => validator.validate_while_typing(),
            None => false,
        }
    }
}
