//! The terminal: bytes become keys, and drawings become bytes with a meaning on a display.
#![tactic(auto)]

mod characters;
pub(crate) mod drawing;
pub(crate) mod grid;
pub mod laws;
pub mod measuring;
pub mod reading;
pub mod renderer;

pub use measuring::measure;
pub use reading::reader::KeyReader;
pub use renderer::ScreenRenderer;
