//! The base of the tests: stand-ins for the real devices, and the notation of tables.
#![tactic(auto)]

pub mod asked_keys;
pub mod commands;
pub mod devices;
pub mod handlers;
pub mod key_names;
pub mod lines;
pub mod reader_calls;
pub mod readers;
pub mod refreshers;
pub mod rows;
pub mod sinks;
pub mod sources;
pub mod tables;
pub mod typing;
