//! The place of a line in the history.
ghost use Rattle.std.specs.Prelude.{◌≡◌, ◌≤◌, length};

use crate::history::History;

/// A history, and a place in it: the index of the shown entry, or the number of entries if none is
/// shown.
#[derive(Drop)]
pub struct Context<'h, Hi: History> {
    pub(crate) history: &'h Hi,
    pub(crate) place: usize,
    ghost inside: { place ≤ length (Hi.entries history.now) },
}

impl<'h, Hi: History> Context<'h, Hi> {
    /// A context with the place at the end.
    pub fn new(history: &'h Hi) -> Self
        ensures history { result.history.now ≡ history.now }
        ensures place { result.place ≡ length (Hi.entries history.now) }
    {
        let place = history.len();
        Context { history, place }
    }

    /// The history.
    pub fn history(&self) -> &'h Hi
        ensures { result.now ≡ self.now.history.now }
    {
        self.history
    }

    /// The place in the history.
    pub fn history_index(&self) -> usize
        ensures place { result ≡ self.now.place }
        ensures inside { result ≤ length (Hi.entries self.now.history.now) }
    {
        self.place
    }

    /// Sets the place, which must be at most the number of entries.
    pub fn set_history_index(&mut self, place: usize)
        requires { place ≤ length (Hi.entries self.old.history.now) }
        ensures place { self.new.place ≡ place }
        ensures history { self.new.history.now ≡ self.old.history.now }
    {
        self.place = place;
    }
}
