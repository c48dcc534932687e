//! What all parts of the line editor share: settings, errors, and the devices for input and output.
#![tactic(auto)]

pub mod adapters;
pub mod buffer;
pub mod builder;
pub mod config;
pub mod configurer;
pub mod device;
pub mod errors;
pub mod foretold;
pub mod laws;
pub mod log;
pub mod memory;
pub mod recorded;
mod retry;
pub mod settings;

pub use adapters::{ReadSource, WriteSink};
pub use buffer::Buffer;
pub use builder::Builder;
pub use config::Config;
pub use configurer::Configurer;
pub use device::{DeviceFailed, Last, Sink, Source};
pub use errors::{HookFault, ReadlineError};
pub use foretold::{Foretold, OwnBytes, ReportsBytes};
pub use log::Log;
pub use memory::{ClosedSink, SliceSource, VecSink};
pub use recorded::Recorded;
pub use settings::{Behavior, BellStyle, ColorMode, CompletionType, EditMode, HistoryDuplicates};
