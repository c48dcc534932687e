//! Validates lines by their brackets.
ghost use Rattle.std.specs.Prelude.{◌≡◌, ◌==◌, if◌then◌else◌, ◌++◌, ◌+◌, ◌≤◌, length, take, drop, false, IsTrue, IfOk, IfErr, codes, encode_utf8};
ghost use Rattle.std.specs.Int.{w64, trailing_zeros};
ghost use Rattle.std.specs.List.{list_any, position_or_len};
ghost use Rattle.line_config.specs.declared.errors.HookFault.TheVariants.{Memory};
ghost use Rattle.line_help.specs.Brackets.{is_bracket};
ghost use Rattle.line_help.specs.Validation.{HasNoBracket, bracket_reply, bracket_verdict};

use crate::helpers::brackets::{is_bracket, is_closing, is_opening, partner};
use crate::helpers::validate::{ValidationContext, ValidationResult, Validator};
use line_config::HookFault;
use line_keys::Text;
use std::alloc::{AllocError, Global};
use std::simd::prelude::*;

/// A line may be accepted if its brackets are balanced. If closing brackets are missing, it is
/// incomplete.
#[derive(Clone, Copy, Debug, Default)]
pub struct MatchingBracketValidator;

impl MatchingBracketValidator {
    /// A validator. It has no state.
    pub fn new() -> Self
        ensures { result ≡ record {} }
    {
        MatchingBracketValidator
    }
}

impl Validator for MatchingBracketValidator {
    ghost verdict_of = { λ self text. bracket_reply text };

    ghost while_typing = { λ self. false };

    fn validate(
        &self,
        alloc: Global,
        ctx: &ValidationContext<'_>,
    ) -> Result<ValidationResult, HookFault> {
        validate_brackets(alloc, ctx.input())
    }

    fn validate_while_typing(&self) -> bool {
        false
    }
}

/// How many bytes are tested at once for brackets.
const LANES: usize = 16;

/// The place of the lowest bit that is set, or how many bits there are.
fn lowest_lane(mask: u64) -> usize
    ensures { result ≡ if mask == 0 then LANES else trailing_zeros w64 mask }
{
    if mask == 0 {
        LANES
    } else {
        mask.trailing_zeros() as usize
    }
}

/// How many bytes precede the first bracket, of those from a place on that are tested at once.
fn lanes_before_bracket(bytes: &[u8], at: usize) -> usize
    requires { at + LANES ≤ length bytes.now }
    ensures count { result ≡ position_or_len is_bracket (take LANES (drop at bytes.now)) }
    ensures bound { result ≤ LANES }
{
    // One bit is all that `(` and `)` differ in, and `[` and `{`, and `]` and `}`.
    let lanes = u8x16::from_slice(&bytes[at..]);
    let round = (lanes & u8x16::splat(0xFE)).simd_eq(u8x16::splat(b'('));
    let folded = lanes | u8x16::splat(0x20);
    let opening = folded.simd_eq(u8x16::splat(b'{'));
    let closing = folded.simd_eq(u8x16::splat(b'}'));
    lowest_lane((round | opening | closing).to_bitmask())
}

/// The place of the first bracket from a place on, or the text's end. Tests a byte at a time.
fn bracket_in_rest(bytes: &[u8], from: usize) -> usize
    requires { from ≤ length bytes.now }
    ensures { result ≡ from + position_or_len is_bracket (drop from bytes.now) }
{
    for place in from..bytes.len() {
        if is_bracket(bytes[place]) {
            return place;
        }
    }
    bytes.len()
}

/// The same, but tests several bytes at a time.
fn next_bracket(bytes: &[u8], from: usize) -> usize
    requires { from ≤ length bytes.now }
    ensures place { result ≡ from + position_or_len is_bracket (drop from bytes.now) }
    ensures bound { result ≤ length bytes.now }
    ensures skips { HasNoBracket bytes.now from result }
{
    // Brackets often stand side by side.
    if from < bytes.len() && is_bracket(bytes[from]) {
        return from;
    }
    let mut place = from;
    while bytes.len() - place >= LANES {
        let count = lanes_before_bracket(bytes, place);
        place += count;
        if count < LANES {
            return place;
        }
    }
    bracket_in_rest(bytes, place)
}

/// Whether the brackets of a text are balanced. The first closing bracket that doesn't fit makes it
/// invalid, with a message that names the innermost open bracket, or the closing one if none is
/// open. Only a text with brackets takes memory.
pub fn validate_brackets(alloc: Global, input: &str) -> Result<ValidationResult, HookFault>
    ensures verdict { IfOk result (λ found. found ≡ bracket_verdict input.now) }
    ensures fault { IfErr result (λ e. (e ≡ Memory)
        × IsTrue (list_any is_bracket input.now)) }
{
    let bytes = input.as_bytes();
    let mut unclosed: Vec<u8> = Vec::new(alloc);
    let mut place = next_bracket(bytes, 0);
    while place < bytes.len() {
        let byte = bytes[place];
        if is_opening(byte) {
            unclosed.push(byte)?;
        } else if is_closing(byte) {
            match unclosed.pop() {
                Some(bracket) => {
                    if partner(bracket) != byte {
                        let message = mismatch(alloc, bracket, "' is not properly closed")?;
                        return Ok(ValidationResult::Invalid(Some(message)));
                    }
                }
                None => {
                    let message = mismatch(alloc, byte, "' is unpaired")?;
                    return Ok(ValidationResult::Invalid(Some(message)));
                }
            }
        }
        place = next_bracket(bytes, place + 1);
    }
    if unclosed.is_empty() {
        Ok(ValidationResult::Valid(None))
    } else {
        Ok(ValidationResult::Incomplete)
    }
}

/// A message about one bracket.
fn mismatch(alloc: Global, bracket: u8, fault: &str) -> Result<Text, AllocError>
    ensures { IfOk result (λ message. message
        ≡ codes "Mismatched brackets: '" ++ (encode_utf8 bracket ++ fault.now)) }
{
    let mut message = String::from_str(alloc, "Mismatched brackets: '")?;
    message.push(bracket as char)?;
    message.push_str(fault)?;
    Ok(Text::from(message))
}
