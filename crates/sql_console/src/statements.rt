//! What waits for the end of a statement.

ghost use Rattle.std.specs.Prelude.{◌≡◌, false};
ghost use Rattle.line_keys.specs.Replies.{gives_at_once};
ghost use Rattle.sql_console.specs.Statements.{ends_line, has_empty_row, hint_in, how_it_ends, is_whole, statement_verdict};

use keyline::{
    Context, Hint, Hinter, History, HookFault, ValidationContext, ValidationResult, Validator,
};
use std::alloc::Global;

/// It stands in the empty last row of a statement.
#[derive(Clone, Copy, Debug, Drop)]
pub(crate) struct HowItEnds;

impl Hint for HowItEnds {
    ghost says = { λ self. how_it_ends };

    fn display(&self) -> &str {
        "(; ends the statement)"
    }

    fn completion(&self) -> Option<&str> {
        None
    }
}

/// A line goes on, row after row, until it ends in a semicolon. An empty row hands over those
/// before it, and a word for the console itself, which begins with a dot, is whole at once.
#[derive(Clone, Copy, Debug, Drop)]
pub(crate) struct Statements;

fn ends_line(byte: u8) -> bool
    ensures { result ≡ ends_line byte }
{
    byte == b';' || byte == b'\n'
}

fn is_whole(text: &[u8]) -> bool
    ensures { result ≡ is_whole text.now }
{
    text.is_empty() || text[0] == b'.' || ends_line(text[text.len() - 1])
}

/// Whether nothing is in the last row, and another is before it.
fn has_empty_row(text: &[u8]) -> bool
    ensures { result ≡ has_empty_row text.now }
{
    !text.is_empty() && text[text.len() - 1] == b'\n'
}

impl Validator for Statements {
    ghost verdict_of = { λ self text. gives_at_once (statement_verdict text) };

    ghost while_typing = { λ self. false };

    fn validate(
        &self,
        _alloc: Global,
        ctx: &ValidationContext<'_>,
    ) -> Result<ValidationResult, HookFault> {
        if is_whole(ctx.input().as_bytes()) {
            Ok(ValidationResult::Valid(None))
        } else {
            Ok(ValidationResult::Incomplete)
        }
    }

    fn validate_while_typing(&self) -> bool {
        false
    }
}

impl Hinter for Statements {
    type Hint = HowItEnds;

    ghost hint_of = { λ self text place entries at. gives_at_once (hint_in text place) };

    fn hint<Hi: History>(
        &self,
        _alloc: Global,
        line: &str,
        pos: usize,
        _ctx: &Context<'_, Hi>,
    ) -> Result<Option<HowItEnds>, HookFault> {
        if pos == line.len() && has_empty_row(line.as_bytes()) {
            Ok(Some(HowItEnds))
        } else {
            Ok(None)
        }
    }
}
