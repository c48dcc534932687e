//! The program's helper.

use line_help::{
    HelperParts, MatchingBracketValidator, PromptHighlighter, StandardHighlighter, WordCompleter,
};

/// Completes words and validates brackets, if requested: Tab completes the word before the cursor,
/// and a line with an open bracket continues in a new row. Its styles, and those of the prompt, are
/// drawn on a display with colours.
pub type EditHelper<'s> = HelperParts<
    Option<WordCompleter>,
    (),
    PromptHighlighter<'s, StandardHighlighter>,
    Option<MatchingBracketValidator>,
>;
