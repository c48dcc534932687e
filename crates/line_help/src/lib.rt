//! Helpers of a line: history, completion, hints, highlighting, validation and prompts.
#![tactic(auto)]

pub mod completion;
pub mod helpers;
pub mod history;
pub mod laws;

pub use completion::common_prefix::longest_common_prefix;
pub use completion::file_names::{FilenameCompleter, Listed, Lister};
pub use completion::quotes::{Quote, escape, unescape};
pub use completion::whole_words::{WholeWord, WholeWordCompleter};
pub use completion::word_before::extract_word;
pub use completion::word_completer::WordCompleter;
pub use completion::word_list::load_words;
pub use completion::{Candidate, Completer, Pair, update_line};
pub use helpers::bracket_highlighter::MatchingBracketHighlighter;
pub use helpers::bracket_validator::{MatchingBracketValidator, validate_brackets};
pub use helpers::brackets::{check_bracket, find_matching_bracket};
pub use helpers::context::Context;
pub use helpers::helper::Helper;
pub use helpers::helper_parts::HelperParts;
pub use helpers::highlight::Highlighter;
pub use helpers::hint::{Hint, Hinter, HistoryHinter};
pub use helpers::prompt::Prompt;
pub use helpers::prompt_highlighter::PromptHighlighter;
pub use helpers::standard_highlighter::StandardHighlighter;
pub use helpers::style::{Colour, Hue, Mark, Part, Span, Style};
pub use helpers::style_split::split_styles;
pub use helpers::validate::{ValidationContext, ValidationResult, Validator};
pub use history::History;
pub use history::file_history::{DefaultHistory, FileHistory};
pub use history::history_iter::HistoryIter;
pub use history::memory_history::MemHistory;
pub use history::search::{SearchDirection, SearchResult};
