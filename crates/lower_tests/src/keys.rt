//! Tests of keys, bindings, and how keys become commands, as tables.

mod asking;
mod bound;
mod commands;
mod emacs;
mod key_rows;
mod modal;
mod tables;
mod telling;
mod vi_command;
mod vi_insert;
mod vi_operators;

use line_config::EditMode;
use std::test::Fail;
use tables::{each_count, plays};

#[test]
fn each_key_with_each_count(rt: HostRuntime) -> Result<(), Fail> {
    each_count(rt.alloc(), EditMode::Emacs, emacs::COUNTS, emacs::EMACS)?;
    each_count(rt.alloc(), EditMode::Emacs, emacs::COUNTS, emacs::COMMON)
}

#[test]
fn each_key_of_vi(rt: HostRuntime) -> Result<(), Fail> {
    let (counts, commands) = (vi_command::COUNTS, vi_command::COMMANDS);
    each_count(rt.alloc(), EditMode::Vi, counts, commands)?;
    each_count(
        rt.alloc(),
        EditMode::Vi,
        vi_insert::NO_COUNT,
        vi_insert::INSERT,
    )
}

#[test]
fn tables_of_keys(rt: HostRuntime) -> Result<(), Fail> {
    plays(rt.alloc(), EditMode::Emacs, &emacs::TABLES)?;
    plays(rt.alloc(), EditMode::Emacs, &bound::TABLES)?;
    plays(
        rt.alloc(),
        EditMode::Emacs,
        &modal::KEYS_QUOTED_IN_EMACS_MODE,
    )?;
    plays(rt.alloc(), EditMode::Vi, &vi_insert::TABLES)?;
    plays(rt.alloc(), EditMode::Vi, &vi_command::TABLES)?;
    plays(rt.alloc(), EditMode::Vi, &vi_operators::TABLES)?;
    plays(rt.alloc(), EditMode::Vi, &modal::MODAL_KEYS_OF_VI)
}
