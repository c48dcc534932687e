//! The promises of `line_config` at work: its devices over readers and writers that transfer pieces
//! or fail, and tables of its settings and texts.

mod devices;
mod settings;
