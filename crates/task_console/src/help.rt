//! What a line is shown while it is typed, and whether it goes on.

ghost use Rattle.std.specs.Prelude.{◌≡◌, false};
ghost use Rattle.line_keys.specs.Replies.{gives_at_once};
ghost use Rattle.task_console.specs.Help.{goes_on, shown_only, usage, verdict};

use keyline::{
    Context, Hint, Hinter, History, HookFault, ValidationContext, ValidationResult, Validator,
};
use std::alloc::Global;

/// What a command takes. It is shown after the line, and no key takes it into the line.
#[derive(Clone, Copy, Debug, Drop)]
pub(crate) struct Usage {
    text: &'static str,
}

impl Hint for Usage {
    ghost says = { λ usage. shown_only usage.text.now };

    fn display(&self) -> &str {
        self.text
    }

    fn completion(&self) -> Option<&str> {
        None
    }
}

/// Shows what a command takes, once the command and a space are typed.
#[derive(Clone, Copy, Debug, Drop)]
pub(crate) struct Usages;

impl Hinter for Usages {
    type Hint = Usage;

    ghost hint_of = { λ self line pos entries place. gives_at_once (usage line) };

    fn hint<Hi: History>(
        &self,
        _alloc: Global,
        line: &str,
        _pos: usize,
        _ctx: &Context<'_, Hi>,
    ) -> Result<Option<Usage>, HookFault> {
        if line == "add " {
            Ok(Some(Usage { text: "TEXT" }))
        } else if line == "done " {
            Ok(Some(Usage { text: "NUMBER" }))
        } else {
            Ok(None)
        }
    }
}

/// A row that ends in a backslash goes on in the next one.
#[derive(Clone, Copy, Debug, Drop)]
pub(crate) struct Continued;

fn goes_on(text: &[u8]) -> bool
    ensures { result ≡ goes_on text.now }
{
    !text.is_empty() && text[text.len() - 1] == b'\\'
}

impl Validator for Continued {
    ghost verdict_of = { λ self text. gives_at_once (verdict text) };

    ghost while_typing = { λ self. false };

    fn validate(
        &self,
        _alloc: Global,
        ctx: &ValidationContext<'_>,
    ) -> Result<ValidationResult, HookFault> {
        if goes_on(ctx.input().as_bytes()) {
            Ok(ValidationResult::Incomplete)
        } else {
            Ok(ValidationResult::Valid(None))
        }
    }

    fn validate_while_typing(&self) -> bool {
        false
    }
}
