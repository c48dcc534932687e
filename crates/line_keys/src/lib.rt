//! What reader, key tables and editor share: keys, commands, bindings, and the traits of reader and
//! display over which a command is read.
#![tactic(auto)]

pub mod binding;
pub mod command;
pub mod events;
pub mod flags;
pub mod handler;
pub mod key;
pub mod keymap;
pub mod laws;
pub mod redo;
pub mod refresh;
pub mod texts;
pub mod tty;

pub use binding::{Bindings, EventMap};
pub use command::{Cmd, CmdKind, InputMode, SearchAgain};
pub use events::{Event, Keys};
pub use flags::Modifiers;
pub use handler::{ConditionalEventHandler, Decides, EventContext, EventHandler};
pub use key::{KeyCode, KeyEvent};
pub use keymap::InputState;
pub use refresh::{Invoke, Refresher};
pub use texts::Text;
pub use tty::RawReader;
