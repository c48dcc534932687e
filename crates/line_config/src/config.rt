//! The settings of an editor.
ghost use Rattle.std.specs.Prelude.{◌≡◌};
ghost use Rattle.line_config.specs.Config.{default_config, drawn_tab_stop};

use crate::builder::Builder;
use crate::settings::{
    Behavior, BellStyle, ColorMode, CompletionType, EditMode, HistoryDuplicates,
};
use line_buffer::GraphemeClusterMode;

/// The settings of an editor. A [`Configurer`](crate::Configurer) changes them, and a [`Builder`]
/// builds them.
#[derive(Clone, Debug, Drop, PartialEq, Eq)]
pub struct Config {
    pub(crate) max_history_size: usize,
    pub(crate) history_duplicates: HistoryDuplicates,
    pub(crate) history_ignore_space: bool,
    pub(crate) completion_type: CompletionType,
    pub(crate) completion_show_all_if_ambiguous: bool,
    pub(crate) completion_prompt_limit: usize,
    pub(crate) keyseq_timeout: Option<u16>,
    pub(crate) edit_mode: EditMode,
    pub(crate) auto_add_history: bool,
    pub(crate) bell_style: BellStyle,
    pub(crate) color_mode: ColorMode,
    pub(crate) grapheme_cluster_mode: GraphemeClusterMode,
    pub(crate) behavior: Behavior,
    pub(crate) tab_stop: u8,
    pub(crate) indent_size: u8,
    pub(crate) check_cursor_position: bool,
    pub(crate) enable_bracketed_paste: bool,
    pub(crate) enable_synchronized_output: bool,
    pub(crate) enable_signals: bool,
    pub(crate) modal_commands: bool,
    pub(crate) draw_colours: bool,
    pub(crate) draw_tabs: bool,
    pub(crate) partial_redraw: bool,
}

impl Config {
    /// A builder of settings, with the default ones.
    pub fn builder() -> Builder
        ensures { result.config ≡ default_config }
    {
        Builder::new()
    }

    /// The most entries that a history keeps.
    pub fn max_history_size(&self) -> usize
        ensures { result ≡ self.now.max_history_size }
    {
        self.max_history_size
    }

    /// Whether a line that equals the last entry is added to the history.
    pub fn history_duplicates(&self) -> HistoryDuplicates
        ensures { result ≡ self.now.history_duplicates }
    {
        self.history_duplicates
    }

    /// Whether a line that begins with whitespace is left out of the history.
    pub fn history_ignore_space(&self) -> bool
        ensures { result ≡ self.now.history_ignore_space }
    {
        self.history_ignore_space
    }

    /// How several candidates of a completion are shown, under `modal_commands`.
    pub fn completion_type(&self) -> CompletionType
        ensures { result ≡ self.now.completion_type }
    {
        self.completion_type
    }

    /// Whether the first Tab that adds nothing lists the candidates, under `modal_commands`.
    pub fn completion_show_all_if_ambiguous(&self) -> bool
        ensures { result ≡ self.now.completion_show_all_if_ambiguous }
    {
        self.completion_show_all_if_ambiguous
    }

    /// How many candidates are listed at most, under `modal_commands`.
    pub fn completion_prompt_limit(&self) -> usize
        ensures { result ≡ self.now.completion_prompt_limit }
    {
        self.completion_prompt_limit
    }

    /// How long to wait for the rest of a key sequence, in milliseconds. `None` waits without a
    /// limit. Sessions ignore this setting.
    pub fn keyseq_timeout(&self) -> Option<u16>
        ensures { result ≡ self.now.keyseq_timeout }
    {
        self.keyseq_timeout
    }

    /// The keymap.
    pub fn edit_mode(&self) -> EditMode
        ensures { result ≡ self.now.edit_mode }
    {
        self.edit_mode
    }

    /// Whether each accepted line of a session is added to its history.
    pub fn auto_add_history(&self) -> bool
        ensures { result ≡ self.now.auto_add_history }
    {
        self.auto_add_history
    }

    /// What a beep does.
    pub fn bell_style(&self) -> BellStyle
        ensures { result ≡ self.now.bell_style }
    {
        self.bell_style
    }

    /// Whether highlighting is drawn. Sessions ignore this setting.
    pub fn color_mode(&self) -> ColorMode
        ensures { result ≡ self.now.color_mode }
    {
        self.color_mode
    }

    /// How the terminal counts the columns of a grapheme cluster.
    pub fn grapheme_cluster_mode(&self) -> GraphemeClusterMode
        ensures { result ≡ self.now.grapheme_cluster_mode }
    {
        self.grapheme_cluster_mode
    }

    /// Which files the editor reads and writes. Sessions ignore this setting.
    pub fn behavior(&self) -> Behavior
        ensures { result ≡ self.now.behavior }
    {
        self.behavior
    }

    /// How many columns apart the stops are up to which tabs are drawn, if they are.
    pub fn tab_stop(&self) -> u8
        ensures { result ≡ self.now.tab_stop }
    {
        self.tab_stop
    }

    /// By how many spaces a row is indented or dedented.
    pub fn indent_size(&self) -> u8
        ensures { result ≡ self.now.indent_size }
    {
        self.indent_size
    }

    /// Whether the cursor is moved to the first column before a prompt. Sessions ignore this
    /// setting.
    pub fn check_cursor_position(&self) -> bool
        ensures { result ≡ self.now.check_cursor_position }
    {
        self.check_cursor_position
    }

    /// Whether the terminal is asked to mark pasted text. Sessions ignore this setting.
    pub fn enable_bracketed_paste(&self) -> bool
        ensures { result ≡ self.now.enable_bracketed_paste }
    {
        self.enable_bracketed_paste
    }

    /// Whether the terminal is asked to show each drawing at once. Sessions ignore this setting.
    pub fn enable_synchronized_output(&self) -> bool
        ensures { result ≡ self.now.enable_synchronized_output }
    {
        self.enable_synchronized_output
    }

    /// Whether the terminal's signal keys stay enabled. Sessions ignore this setting.
    pub fn enable_signals(&self) -> bool
        ensures { result ≡ self.now.enable_signals }
    {
        self.enable_signals
    }

    /// Whether the commands act that go on over several keys, as the incremental search does.
    pub fn modal_commands(&self) -> bool
        ensures { result ≡ self.now.modal_commands }
    {
        self.modal_commands
    }

    /// Whether a highlighter's styles are drawn.
    pub fn draw_colours(&self) -> bool
        ensures { result ≡ self.now.draw_colours }
    {
        self.draw_colours
    }

    /// Whether a tab is drawn as blanks up to the next stop, and not as a question mark.
    pub fn draw_tabs(&self) -> bool
        ensures { result ≡ self.now.draw_tabs }
    {
        self.draw_tabs
    }

    /// Whether a change of a line may be shown by a part of its drawing.
    pub fn partial_redraw(&self) -> bool
        ensures { result ≡ self.now.partial_redraw }
    {
        self.partial_redraw
    }

    /// How many columns apart the stops are, if tabs are drawn.
    pub fn drawn_tab_stop(&self) -> Option<u8>
        ensures { result ≡ drawn_tab_stop self.now }
    {
        if self.draw_tabs {
            Some(self.tab_stop)
        } else {
            None
        }
    }
}

impl Default for Config {
    ghost is_default = { λ c. c ≡ default_config };

    fn default() -> Self {
        Config {
            max_history_size: 100,
            history_duplicates: HistoryDuplicates::IgnoreConsecutive,
            history_ignore_space: false,
            completion_type: CompletionType::Circular,
            completion_show_all_if_ambiguous: false,
            completion_prompt_limit: 100,
            keyseq_timeout: None,
            edit_mode: EditMode::Emacs,
            auto_add_history: false,
            bell_style: BellStyle::default(),
            color_mode: ColorMode::Enabled,
            grapheme_cluster_mode: GraphemeClusterMode::Unicode,
            behavior: Behavior::default(),
            tab_stop: 8,
            indent_size: 2,
            check_cursor_position: false,
            enable_bracketed_paste: true,
            enable_synchronized_output: true,
            enable_signals: false,
            modal_commands: false,
            draw_colours: false,
            draw_tabs: false,
            partial_redraw: false,
        }
    }
}
