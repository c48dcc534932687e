//! The settings: the default ones, those that setters and the calls of the builder give, and the
//! texts of errors.

use line_buffer::{GraphemeClusterMode, OutOfMemory};
use line_config::{
    Behavior, BellStyle, Builder, ColorMode, CompletionType, Config, Configurer, DeviceFailed,
    EditMode, HookFault, ReadlineError,
};
use stand_ins::rows::{same, stands};
use stand_ins::tables::shown;
use std::alloc::{AllocError, Global};
use std::test::Fail;

const DEFAULTS: &str = "Config { max_history_size: 100, history_duplicates: IgnoreConsecutive, \
    history_ignore_space: false, completion_type: Circular, \
    completion_show_all_if_ambiguous: false, completion_prompt_limit: 100, keyseq_timeout: None, \
    edit_mode: Emacs, auto_add_history: false, bell_style: Audible, color_mode: Enabled, \
    grapheme_cluster_mode: Unicode, behavior: Stdio, tab_stop: 8, indent_size: 2, \
    check_cursor_position: false, enable_bracketed_paste: true, enable_synchronized_output: true, \
    enable_signals: false, modal_commands: false, draw_colours: false, draw_tabs: false, \
    partial_redraw: false }";

/// What every setter sets. `behavior` has no setter.
const ALL_SET: &str = "Config { max_history_size: 7, history_duplicates: AlwaysAdd, \
    history_ignore_space: true, completion_type: List, \
    completion_show_all_if_ambiguous: true, completion_prompt_limit: 7, keyseq_timeout: Some(7), \
    edit_mode: Vi, auto_add_history: true, bell_style: Visible, color_mode: Forced, \
    grapheme_cluster_mode: NoZwj, behavior: Stdio, tab_stop: 4, indent_size: 5, \
    check_cursor_position: true, enable_bracketed_paste: false, enable_synchronized_output: false, \
    enable_signals: true, modal_commands: true, draw_colours: true, draw_tabs: true, \
    partial_redraw: true }";

/// What the builder's calls set, of which none is for `enable_synchronized_output`.
const ALL_BUILT: &str = "Config { max_history_size: 7, history_duplicates: AlwaysAdd, \
    history_ignore_space: true, completion_type: List, \
    completion_show_all_if_ambiguous: true, completion_prompt_limit: 7, keyseq_timeout: Some(7), \
    edit_mode: Vi, auto_add_history: true, bell_style: Visible, color_mode: Forced, \
    grapheme_cluster_mode: NoZwj, behavior: PreferTerm, tab_stop: 4, indent_size: 5, \
    check_cursor_position: true, enable_bracketed_paste: false, enable_synchronized_output: true, \
    enable_signals: true, modal_commands: true, draw_colours: true, draw_tabs: true, \
    partial_redraw: true }";

/// Compares the settings with those of a text.
fn is_told(alloc: Global, config: &Config, wanted: &str) -> Result<(), Fail> {
    let said = shown(alloc, config)?;
    same(said.as_str(), wanted)
}

/// Calls every setter.
fn set_all(config: &mut Config) -> Result<(), ReadlineError> {
    config.set_history_ignore_space(true);
    config.set_completion_type(CompletionType::List);
    config.set_completion_show_all_if_ambiguous(true);
    config.set_completion_prompt_limit(7);
    config.set_edit_mode(EditMode::Vi);
    config.set_keyseq_timeout(Some(7));
    config.set_auto_add_history(true);
    config.set_bell_style(BellStyle::Visible);
    config.set_color_mode(ColorMode::Forced);
    config.set_grapheme_cluster_mode(GraphemeClusterMode::NoZwj);
    config.set_tab_stop(4);
    config.set_indent_size(5);
    config.set_check_cursor_position(true);
    config.enable_bracketed_paste(false);
    config.enable_synchronized_output(false);
    config.set_enable_signals(true);
    config.set_modal_commands(true);
    config.set_draw_colours(true);
    config.set_draw_tabs(true);
    config.set_partial_redraw(true);
    config.set_history_ignore_dups(false)?;
    config.set_max_history_size(7)
}

/// A builder with every call made.
fn built(builder: Builder) -> Config {
    builder
        .history_ignore_space(true)
        .completion_type(CompletionType::List)
        .completion_show_all_if_ambiguous(true)
        .completion_prompt_limit(7)
        .edit_mode(EditMode::Vi)
        .keyseq_timeout(Some(7))
        .auto_add_history(true)
        .bell_style(BellStyle::Visible)
        .color_mode(ColorMode::Forced)
        .grapheme_cluster_mode(GraphemeClusterMode::NoZwj)
        .behavior(Behavior::PreferTerm)
        .tab_stop(4)
        .indent_size(5)
        .check_cursor_position(true)
        .bracketed_paste(false)
        .enable_signals(true)
        .modal_commands(true)
        .draw_colours(true)
        .draw_tabs(true)
        .partial_redraw(true)
        .build()
}

fn built_whole() -> Result<Config, ReadlineError> {
    let builder = Builder::new().max_history_size(7)?;
    Ok(built(builder.history_ignore_dups(false)?))
}

#[test]
fn defaults_setters_and_calls_of_the_builder(rt: HostRuntime) -> Result<(), Fail> {
    let mut config = Config::default().clone()?;
    is_told(rt.alloc(), &config, DEFAULTS)?;
    set_all(&mut config)?;
    is_told(rt.alloc(), &config, ALL_SET)?;
    is_told(rt.alloc(), &built_whole()?, ALL_BUILT)
}

/// The timeouts in Vi mode, and then in Emacs mode.
fn timeouts() -> (Option<u16>, Option<u16>) {
    let mut config = Builder::new().edit_mode(EditMode::Vi).build();
    let in_vi = config.keyseq_timeout();
    config.set_edit_mode(EditMode::Emacs);
    (in_vi, config.keyseq_timeout())
}

#[test]
fn timeouts_of_the_modes_and_want_of_memory(_: HostRuntime) -> Result<(), Fail> {
    stands(timeouts() == (Some(500), None), "other timeouts")?;
    stands(is_told_as_memory(), "out of memory by another name")
}

fn is_told_as_memory() -> bool {
    ReadlineError::from(AllocError) == ReadlineError::Memory
        && ReadlineError::from(OutOfMemory) == ReadlineError::Memory
        && HookFault::from(AllocError) == HookFault::Memory
        && HookFault::from(OutOfMemory) == HookFault::Memory
}

const REFUSALS: [ReadlineError; 11] = [
    ReadlineError::Eof,
    ReadlineError::Interrupted,
    ReadlineError::NotUtf8,
    ReadlineError::PasteOutOfPlace,
    ReadlineError::Reader,
    ReadlineError::Display,
    ReadlineError::Lines,
    ReadlineError::HistoryText,
    ReadlineError::Helper,
    ReadlineError::Handler,
    ReadlineError::Memory,
];

fn texts_told(alloc: Global) -> Result<String, AllocError> {
    let mut said = format!(in alloc;
        "{}, {}, {DeviceFailed}",
        HookFault::Failed,
        HookFault::Memory
    )?;
    for refusal in &REFUSALS {
        write!(said, "; {refusal:?}: {refusal}")?;
    }
    Ok(said)
}

#[test]
fn texts_of_errors(rt: HostRuntime) -> Result<(), Fail> {
    let said = texts_told(rt.alloc())?;
    same(
        said.as_str(),
        "hook failed, out of memory, device failed; Eof: EOF; Interrupted: Interrupted; \
        NotUtf8: input is not UTF-8; PasteOutOfPlace: paste out of place; Reader: input failed; \
        Display: display failed; Lines: line output failed; HistoryText: history text failed; \
        Helper: helper failed; Handler: handler failed; Memory: out of memory",
    )
}
