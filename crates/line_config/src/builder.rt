//! Builds settings.
ghost use Rattle.std.specs.Prelude.{◌≡◌, Ok};
ghost use Rattle.std.proofs.Common.{refl};
ghost use Rattle.line_config.specs.Config.{builder_of, default_config, duplicates_of, timeout_of};

use crate::config::Config;
use crate::configurer::Configurer;
use crate::errors::ReadlineError;
use crate::settings::{Behavior, BellStyle, ColorMode, CompletionType, EditMode};
use line_buffer::GraphemeClusterMode;

/// A builder of settings: each call sets one and returns the builder.
#[derive(Clone, Debug, Default, Drop)]
pub struct Builder {
    pub(crate) config: Config,
}

impl Builder {
    /// The default settings.
    pub fn new() -> Self
        ensures { result.config ≡ default_config }
    {
        Builder {
            config: Config::default(),
        }
    }

    /// The settings as set.
    pub fn build(self) -> Config
        ensures { result ≡ self.config }
    {
        self.config
    }

    /// Sets the most entries that a history keeps.
    pub fn max_history_size(mut self, max_size: usize) -> Result<Self, ReadlineError>
        ensures { result ≡ Ok (builder_of (record self.config { max_history_size = max_size })) }
    {
        self.set_max_history_size(max_size)?;
        Ok(self)
    }

    /// Sets whether a line that equals the last entry is left out of the history.
    pub fn history_ignore_dups(mut self, yes: bool) -> Result<Self, ReadlineError>
        ensures { result ≡ Ok (builder_of
            (record self.config { history_duplicates = duplicates_of yes })) }
    {
        self.set_history_ignore_dups(yes)?;
        Ok(self)
    }

    /// Sets whether a line that begins with whitespace is left out of the history.
    pub fn history_ignore_space(mut self, yes: bool) -> Self
        ensures { result ≡ builder_of (record self.config { history_ignore_space = yes }) }
    {
        self.set_history_ignore_space(yes);
        self
    }

    /// Sets how several candidates of a completion are shown, under `modal_commands`.
    pub fn completion_type(mut self, completion_type: CompletionType) -> Self
        ensures { result ≡ builder_of (record self.config { completion_type = completion_type }) }
    {
        self.set_completion_type(completion_type);
        self
    }

    /// Sets whether the first Tab that adds nothing lists the candidates, under `modal_commands`.
    pub fn completion_show_all_if_ambiguous(mut self, yes: bool) -> Self
        ensures { result ≡ builder_of
            (record self.config { completion_show_all_if_ambiguous = yes }) }
    {
        self.set_completion_show_all_if_ambiguous(yes);
        self
    }

    /// Sets how many candidates are listed at most, under `modal_commands`.
    pub fn completion_prompt_limit(mut self, limit: usize) -> Self
        ensures { result ≡ builder_of (record self.config { completion_prompt_limit = limit }) }
    {
        self.set_completion_prompt_limit(limit);
        self
    }

    /// Sets how long to wait for the rest of a key sequence, in milliseconds. `None` waits without
    /// a limit. Sessions ignore this setting.
    pub fn keyseq_timeout(mut self, milliseconds: Option<u16>) -> Self
        ensures { result ≡ builder_of (record self.config { keyseq_timeout = milliseconds }) }
    {
        self.set_keyseq_timeout(milliseconds);
        self
    }

    /// Sets the keymap, and with it the timeout of key sequences: `None` for Emacs, 500
    /// milliseconds for Vi.
    pub fn edit_mode(mut self, edit_mode: EditMode) -> Self
        ensures { result ≡ builder_of
            (record self.config { edit_mode = edit_mode; keyseq_timeout = timeout_of edit_mode }) }
    {
        self.set_edit_mode(edit_mode);
        self
    }

    /// Sets whether each accepted line of a session is added to its history.
    pub fn auto_add_history(mut self, yes: bool) -> Self
        ensures { result ≡ builder_of (record self.config { auto_add_history = yes }) }
    {
        self.set_auto_add_history(yes);
        self
    }

    /// Sets what a beep does.
    pub fn bell_style(mut self, bell_style: BellStyle) -> Self
        ensures { result ≡ builder_of (record self.config { bell_style = bell_style }) }
    {
        self.set_bell_style(bell_style);
        self
    }

    /// Sets whether highlighting is drawn. Sessions ignore this setting.
    pub fn color_mode(mut self, color_mode: ColorMode) -> Self
        ensures { result ≡ builder_of (record self.config { color_mode = color_mode }) }
    {
        self.set_color_mode(color_mode);
        self
    }

    /// Sets how the terminal counts the columns of a grapheme cluster.
    pub fn grapheme_cluster_mode(mut self, mode: GraphemeClusterMode) -> Self
        ensures { result ≡ builder_of (record self.config { grapheme_cluster_mode = mode }) }
    {
        self.set_grapheme_cluster_mode(mode);
        self
    }

    /// Sets which files the editor reads and writes. Sessions ignore this setting.
    pub fn behavior(mut self, behavior: Behavior) -> Self
        ensures { result ≡ builder_of (record self.config { behavior = behavior }) }
    {
        self.config.behavior = behavior;
        self
    }

    /// Sets how many columns apart the stops are up to which tabs are drawn, if they are.
    pub fn tab_stop(mut self, columns: u8) -> Self
        ensures { result ≡ builder_of (record self.config { tab_stop = columns }) }
    {
        self.set_tab_stop(columns);
        self
    }

    /// Sets by how many spaces a row is indented or dedented.
    pub fn indent_size(mut self, spaces: u8) -> Self
        ensures { result ≡ builder_of (record self.config { indent_size = spaces }) }
    {
        self.set_indent_size(spaces);
        self
    }

    /// Sets whether the cursor is moved to the first column before a prompt. Sessions ignore this
    /// setting.
    pub fn check_cursor_position(mut self, yes: bool) -> Self
        ensures { result ≡ builder_of (record self.config { check_cursor_position = yes }) }
    {
        self.set_check_cursor_position(yes);
        self
    }

    /// Sets whether the terminal is asked to mark pasted text. Sessions ignore this setting.
    pub fn bracketed_paste(mut self, yes: bool) -> Self
        ensures { result ≡ builder_of (record self.config { enable_bracketed_paste = yes }) }
    {
        self.enable_bracketed_paste(yes);
        self
    }

    /// Sets whether the terminal's signal keys stay enabled. Sessions ignore this setting.
    pub fn enable_signals(mut self, yes: bool) -> Self
        ensures { result ≡ builder_of (record self.config { enable_signals = yes }) }
    {
        self.set_enable_signals(yes);
        self
    }

    /// Sets whether the commands act that go on over several keys, as the incremental search does.
    pub fn modal_commands(mut self, yes: bool) -> Self
        ensures { result ≡ builder_of (record self.config { modal_commands = yes }) }
    {
        self.set_modal_commands(yes);
        self
    }

    /// Sets whether a highlighter's styles are drawn.
    pub fn draw_colours(mut self, yes: bool) -> Self
        ensures { result ≡ builder_of (record self.config { draw_colours = yes }) }
    {
        self.set_draw_colours(yes);
        self
    }

    /// Sets whether tabs are drawn as blanks.
    pub fn draw_tabs(mut self, yes: bool) -> Self
        ensures { result ≡ builder_of (record self.config { draw_tabs = yes }) }
    {
        self.set_draw_tabs(yes);
        self
    }

    /// Sets whether a change of a line may be shown by a part of its drawing.
    pub fn partial_redraw(mut self, yes: bool) -> Self
        ensures { result ≡ builder_of (record self.config { partial_redraw = yes }) }
    {
        self.set_partial_redraw(yes);
        self
    }
}

impl Configurer for Builder {
    ghost settings = { λ builder. builder.config };

    ghost with_settings = { λ _ config. record { config = config } };

    ghost settings_as_set = { λ _ _. refl };

    ghost own_settings = { λ _. refl };

    ghost later_settings = { λ _ _ _. refl };

    fn config_mut(&mut self) -> &mut Config {
        &mut self.config
    }
}
