//! The calls of a device of files, which only contracts read.
ghost use Rattle.std.specs.Prelude.{◌≡◌, List, [], ◌∷◌};
ghost use Rattle.std.specs.Borrow.{ftrue};
ghost use Rattle.keyline_files.specs.FileCalls.{FileCall, Did};

use crate::device::Request;
use std::io::ErrorKind;
use std::marker::{Model, PhantomData};

/// The calls of a device of files, the newest first. It takes no memory, and its calls do nothing
/// at run time.
#[derive(Drop)]
pub struct Log {
    marker: PhantomData<u8>,
    pub ghost calls: { List FileCall },
}

impl Model for Log {
    ghost also_owns = { λ _. ftrue };
}

impl Log {
    /// The calls that the caller's proof picks, by what is handed in.
    fn noted<A>(_by: &A) -> Log
        ghost picked: { List FileCall }
        ensures { result.calls ≡ picked }
    {
        Log {
            marker: PhantomData,
        }
    }

    /// No calls.
    pub(crate) fn new() -> Log
        ensures { result.calls ≡ [] }
    {
        Log::noted(&())
    }

    /// Notes a call with its answer.
    pub(crate) fn note(&mut self, what: &Request, bytes: &[u8], answer: &Result<u64, ErrorKind>)
        ensures { self.new.calls ≡ Did what.now bytes.now answer.now ∷ self.old.calls }
    {
        *self = Log::noted(&(&*self, what, bytes, answer));
    }
}
