//! The editor of a line: keys become commands, commands edit the line and its record, and a
//! renderer draws exactly what has changed.
#![tactic(auto, using(crate::proofs::ExitRules::exits))]

mod accepting;
mod candidates;
pub mod characters;
pub mod commands;
mod completing;
mod drawing;
mod drawing_rest;
mod faults;
mod hinting;
mod history;
mod inserting;
mod killing;
pub mod laws;
mod line_loop;
pub mod line_run;
mod measured;
mod modal_commands;
pub mod modal_state;
mod moving;
mod next_command;
mod prefixes;
mod refreshing;
pub mod renderer;
mod rewriting;
pub mod saved;
mod shared_styles;
mod starting;
pub mod state;
mod transforms;
mod turn;
pub mod way;
mod yanking;

pub use commands::{Status, execute};
pub use line_buffer::{
    Anchor, At, CharSearch, Direction, GraphemeClusterMode, Layout, LineBuffer, Mode, Movement,
    Position, RepeatCount, Unit, Word, WordAction,
};
pub use line_config::{
    Behavior, BellStyle, Buffer, Builder, ColorMode, CompletionType, Config, Configurer,
    DeviceFailed, EditMode, HistoryDuplicates, HookFault, Last, ReadSource, ReadlineError, Sink,
    SliceSource, Source, VecSink, WriteSink,
};
pub use line_help::{
    Candidate, Completer, Context, DefaultHistory, FileHistory, FilenameCompleter, Helper,
    Highlighter, Hint, Hinter, History, HistoryHinter, HistoryIter, Listed, Lister,
    MatchingBracketHighlighter, MatchingBracketValidator, MemHistory, Pair, Prompt, Quote,
    SearchDirection, SearchResult, ValidationContext, ValidationResult, Validator, check_bracket,
    escape, extract_word, find_matching_bracket, longest_common_prefix, unescape,
    validate_brackets,
};
pub use line_keys::{
    Bindings, Cmd, CmdKind, ConditionalEventHandler, Decides, Event, EventContext, EventHandler,
    EventMap, InputMode, InputState, Invoke, KeyCode, KeyEvent, Keys, Modifiers, RawReader,
    Refresher, SearchAgain, Text,
};
pub use line_run::{Ran, run};
pub use renderer::{RefreshKind, Renderer};
pub use state::State;
