//! Changes settings.
ghost use Rattle.std.specs.Prelude.{◌≡◌, IsOk};
ghost use Rattle.std.proofs.Common.{refl};
ghost use Rattle.std.specs.Borrow.{sem, Lends};
ghost use Rattle.line_config.specs.declared.config.Config.{Config};
ghost use Rattle.line_config.specs.contracts.config.Config.{the_row as config_row};
ghost use Rattle.line_config.specs.Config.{Sets, duplicates_of, timeout_of};

use crate::config::Config;
use crate::errors::ReadlineError;
use crate::settings::{BellStyle, ColorMode, CompletionType, EditMode, HistoryDuplicates};
use line_buffer::GraphemeClusterMode;

/// A holder of settings that can be changed. No change fails.
pub trait Configurer {
    // The settings.
    ghost settings: { Self → Config };

    // The same holder with other settings.
    ghost with_settings: { Self → Config → Self };

    /// Borrows the settings to change them.
    fn config_mut(&mut self) -> &mut Config
        ensures* writes_back { sem 𝓛
            (Lends Self.row config_row self.entry result (with_settings self.old)) }
        ensures value { result.now ≡ settings self.old };

    /// Sets the most entries that a history keeps.
    fn set_max_history_size(&mut self, max_size: usize) -> Result<(), ReadlineError>
        ensures done { IsOk result }
        ensures settings { Sets settings with_settings
            (λ c. record c { max_history_size = max_size }) self.old self.new }
    {
        self.config_mut().max_history_size = max_size;
        Ok(())
    }

    /// Sets whether a line that equals the last entry is left out of the history.
    fn set_history_ignore_dups(&mut self, yes: bool) -> Result<(), ReadlineError>
        ensures done { IsOk result }
        ensures settings { Sets settings with_settings
            (λ c. record c { history_duplicates = duplicates_of yes }) self.old self.new }
    {
        self.config_mut().history_duplicates = HistoryDuplicates::when(yes);
        Ok(())
    }

    /// Sets whether a line that begins with whitespace is left out of the history.
    fn set_history_ignore_space(&mut self, yes: bool)
        ensures { Sets settings with_settings (λ c. record c { history_ignore_space = yes })
            self.old self.new }
    {
        self.config_mut().history_ignore_space = yes;
    }

    /// Sets how several candidates of a completion are shown, under `modal_commands`.
    fn set_completion_type(&mut self, completion_type: CompletionType)
        ensures { Sets settings with_settings (λ c. record c { completion_type = completion_type })
            self.old self.new }
    {
        self.config_mut().completion_type = completion_type;
    }

    /// Sets whether the first Tab that adds nothing lists the candidates, under `modal_commands`.
    fn set_completion_show_all_if_ambiguous(&mut self, yes: bool)
        ensures { Sets settings with_settings
            (λ c. record c { completion_show_all_if_ambiguous = yes }) self.old self.new }
    {
        self.config_mut().completion_show_all_if_ambiguous = yes;
    }

    /// Sets how many candidates are listed at most, under `modal_commands`.
    fn set_completion_prompt_limit(&mut self, limit: usize)
        ensures { Sets settings with_settings (λ c. record c { completion_prompt_limit = limit })
            self.old self.new }
    {
        self.config_mut().completion_prompt_limit = limit;
    }

    /// Sets how long to wait for the rest of a key sequence, in milliseconds. `None` waits without
    /// a limit. Sessions ignore this setting.
    fn set_keyseq_timeout(&mut self, milliseconds: Option<u16>)
        ensures { Sets settings with_settings (λ c. record c { keyseq_timeout = milliseconds })
            self.old self.new }
    {
        self.config_mut().keyseq_timeout = milliseconds;
    }

    /// Sets the keymap, and with it the timeout of key sequences: `None` for Emacs, 500
    /// milliseconds for Vi.
    fn set_edit_mode(&mut self, edit_mode: EditMode)
        ensures { Sets settings with_settings
            (λ c. record c { edit_mode = edit_mode; keyseq_timeout = timeout_of edit_mode })
            self.old self.new }
    {
        let config = self.config_mut();
        config.edit_mode = edit_mode;
        config.keyseq_timeout = edit_mode.keyseq_timeout();
    }

    /// Sets whether each accepted line of a session is added to its history.
    fn set_auto_add_history(&mut self, yes: bool)
        ensures { Sets settings with_settings (λ c. record c { auto_add_history = yes })
            self.old self.new }
    {
        self.config_mut().auto_add_history = yes;
    }

    /// Sets what a beep does.
    fn set_bell_style(&mut self, bell_style: BellStyle)
        ensures { Sets settings with_settings (λ c. record c { bell_style = bell_style })
            self.old self.new }
    {
        self.config_mut().bell_style = bell_style;
    }

    /// Sets whether highlighting is drawn. Sessions ignore this setting.
    fn set_color_mode(&mut self, color_mode: ColorMode)
        ensures { Sets settings with_settings (λ c. record c { color_mode = color_mode })
            self.old self.new }
    {
        self.config_mut().color_mode = color_mode;
    }

    /// Sets how the terminal counts the columns of a grapheme cluster.
    fn set_grapheme_cluster_mode(&mut self, mode: GraphemeClusterMode)
        ensures { Sets settings with_settings (λ c. record c { grapheme_cluster_mode = mode })
            self.old self.new }
    {
        self.config_mut().grapheme_cluster_mode = mode;
    }

    /// Sets how many columns apart the stops are up to which tabs are drawn, if they are.
    fn set_tab_stop(&mut self, columns: u8)
        ensures { Sets settings with_settings (λ c. record c { tab_stop = columns })
            self.old self.new }
    {
        self.config_mut().tab_stop = columns;
    }

    /// Sets by how many spaces a row is indented or dedented.
    fn set_indent_size(&mut self, spaces: u8)
        ensures { Sets settings with_settings (λ c. record c { indent_size = spaces })
            self.old self.new }
    {
        self.config_mut().indent_size = spaces;
    }

    /// Sets whether the cursor is moved to the first column before a prompt. Sessions ignore this
    /// setting.
    fn set_check_cursor_position(&mut self, yes: bool)
        ensures { Sets settings with_settings (λ c. record c { check_cursor_position = yes })
            self.old self.new }
    {
        self.config_mut().check_cursor_position = yes;
    }

    /// Sets whether the terminal is asked to mark pasted text. Sessions ignore this setting.
    fn enable_bracketed_paste(&mut self, yes: bool)
        ensures { Sets settings with_settings (λ c. record c { enable_bracketed_paste = yes })
            self.old self.new }
    {
        self.config_mut().enable_bracketed_paste = yes;
    }

    /// Sets whether the terminal is asked to show each drawing at once. Sessions ignore this
    /// setting.
    fn enable_synchronized_output(&mut self, yes: bool)
        ensures { Sets settings with_settings (λ c. record c { enable_synchronized_output = yes })
            self.old self.new }
    {
        self.config_mut().enable_synchronized_output = yes;
    }

    /// Sets whether the terminal's signal keys stay enabled. Sessions ignore this setting.
    fn set_enable_signals(&mut self, yes: bool)
        ensures { Sets settings with_settings (λ c. record c { enable_signals = yes })
            self.old self.new }
    {
        self.config_mut().enable_signals = yes;
    }

    /// Sets whether the commands act that go on over several keys, as the incremental search does.
    fn set_modal_commands(&mut self, yes: bool)
        ensures { Sets settings with_settings (λ c. record c { modal_commands = yes })
            self.old self.new }
    {
        self.config_mut().modal_commands = yes;
    }

    /// Sets whether a highlighter's styles are drawn.
    fn set_draw_colours(&mut self, yes: bool)
        ensures { Sets settings with_settings (λ c. record c { draw_colours = yes })
            self.old self.new }
    {
        self.config_mut().draw_colours = yes;
    }

    /// Sets whether tabs are drawn as blanks.
    fn set_draw_tabs(&mut self, yes: bool)
        ensures { Sets settings with_settings (λ c. record c { draw_tabs = yes })
            self.old self.new }
    {
        self.config_mut().draw_tabs = yes;
    }

    /// Sets whether a change of a line may be shown by a part of its drawing.
    fn set_partial_redraw(&mut self, yes: bool)
        ensures { Sets settings with_settings (λ c. record c { partial_redraw = yes })
            self.old self.new }
    {
        self.config_mut().partial_redraw = yes;
    }

    // Settings are read as they were set.
    ghost settings_as_set: { (holder : Self) (config : Config)
        → settings (with_settings holder config) ≡ config };

    // With its own settings the holder is as it was, and nothing else of it depends on earlier
    // settings.
    ghost own_settings: { (holder : Self) → with_settings holder (settings holder) ≡ holder };

    ghost later_settings: { (holder : Self) (before config : Config)
        → with_settings (with_settings holder before) config ≡ with_settings holder config };
}

impl Configurer for Config {
    ghost settings = { λ config. config };

    ghost with_settings = { λ _ config. config };

    ghost settings_as_set = { λ _ _. refl };

    ghost own_settings = { λ _. refl };

    ghost later_settings = { λ _ _ _. refl };

    fn config_mut(&mut self) -> &mut Config {
        self
    }
}
