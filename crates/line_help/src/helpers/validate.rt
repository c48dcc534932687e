//! Validation: whether a line may be accepted.
ghost use Rattle.std.specs.Prelude.{◌≡◌, ℕ, List, Bool, None, false};
ghost use Rattle.line_keys.specs.Replies.{Reply, Replies, gives_at_once, itself};

use line_config::HookFault;
use line_keys::Text;
use std::alloc::Global;

/// A validator's verdict on a text.
#[derive(Debug, Drop, PartialEq, Eq)]
pub enum ValidationResult {
    /// More must be typed.
    Incomplete,
    /// The text can't be accepted as it is, with a message, if there is one.
    Invalid(Option<Text>),
    /// The text can be accepted, with a message, if there is one.
    Valid(Option<Text>),
}

impl ValidationResult {
    ghost use Rattle.line_help.specs.Validation.{is_valid, has_message};

    /// Whether the text can be accepted.
    pub fn is_valid(&self) -> bool
        ensures { result ≡ is_valid self.now }
    {
        match self {
            ValidationResult::Valid(_) => true,
            ValidationResult::Incomplete | ValidationResult::Invalid(_) => false,
        }
    }

    /// Whether there is a message.
    pub fn has_message(&self) -> bool
        ensures { result ≡ has_message self.now }
    {
        match self {
            ValidationResult::Incomplete => false,
            ValidationResult::Invalid(message) | ValidationResult::Valid(message) =>
                message.is_some(),
        }
    }
}

/// The text to validate.
#[derive(Clone, Copy, Debug)]
pub struct ValidationContext<'i> {
    input: &'i str,
}

impl<'i> ValidationContext<'i> {
    /// A context for this text.
    pub fn new(input: &'i str) -> Self
        ensures { result.input.now ≡ input.now }
    {
        ValidationContext { input }
    }

    /// The text.
    pub fn input(&self) -> &str
        ensures { result.now ≡ self.now.input.now }
    {
        self.input
    }
}

/// A validator decides whether a line may be accepted.
pub trait Validator {
    ghost use Rattle.line_help.specs.declared.helpers.validate.ValidationResult.{ValidationResult};

    // Its reply to a text.
    ghost verdict_of: { Self → List ℕ → Reply ValidationResult };

    // Whether it wants to be called while the line is typed.
    ghost while_typing: { Self → Bool };

    /// Its verdict on the text, which depends only on the text.
    fn validate(
        &self,
        alloc: Global,
        ctx: &ValidationContext<'_>,
    ) -> Result<ValidationResult, HookFault>
        ensures { Replies (verdict_of self.now ctx.now.input.now) itself result };

    /// Whether it wants to be called while the line is typed. The editor ignores this.
    fn validate_while_typing(&self) -> bool
        ensures { result ≡ while_typing self.now };
}

/// Every text is valid, without a message.
impl Validator for () {
    ghost use Rattle.line_help.specs.declared.helpers.validate.ValidationResult.TheVariants.{Valid};

    ghost verdict_of = { λ self text. gives_at_once (Valid None) };

    ghost while_typing = { λ self. false };

    fn validate(
        &self,
        _alloc: Global,
        _ctx: &ValidationContext<'_>,
    ) -> Result<ValidationResult, HookFault> {
        Ok(ValidationResult::Valid(None))
    }

    fn validate_while_typing(&self) -> bool {
        false
    }
}
