//! Prompts: texts before a line.
ghost use Rattle.std.specs.Prelude.{◌≡◌, ℕ, List, string_bytes};

use std::convert::AsStr;

/// A prompt in two versions, which should take the same number of columns.
pub trait Prompt {
    // The text without styles, and with them.
    ghost raw_text: { Self → List ℕ };

    ghost styled_text: { Self → List ℕ };

    /// The text without styles, for a display without colours.
    fn raw(&self) -> &str
        ensures { result.now ≡ raw_text self.now };

    /// The text with styles.
    fn styled(&self) -> &str
        ensures { result.now ≡ styled_text self.now };
}

/// A text without styles.
impl Prompt for &str {
    ghost raw_text = { λ prompt. prompt.now };

    ghost styled_text = { λ prompt. prompt.now };

    fn raw(&self) -> &str {
        self
    }

    fn styled(&self) -> &str {
        self
    }
}

/// A text without styles.
impl Prompt for String {
    ghost raw_text = { λ prompt. string_bytes prompt };

    ghost styled_text = { λ prompt. string_bytes prompt };

    fn raw(&self) -> &str {
        self.as_str()
    }

    fn styled(&self) -> &str {
        self.as_str()
    }
}

/// The text without styles, and the text with them.
impl<Raw: AsStr, Styled: AsStr> Prompt for (Raw, Styled) {
    ghost raw_text = { λ prompt. Raw.text prompt.0 };

    ghost styled_text = { λ prompt. Styled.text prompt.1 };

    fn raw(&self) -> &str {
        self.0.as_str()
    }

    fn styled(&self) -> &str {
        self.1.as_str()
    }
}
