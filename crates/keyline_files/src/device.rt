//! A device of files: one of them is open at a time.
ghost use Rattle.std.specs.Prelude.{◌≡◌, ℕ, List, ◌∷◌};
ghost use Rattle.keyline_files.specs.FileCalls.{FileCall, Did};

use std::io::ErrorKind;

/// What is asked of the system.
#[derive(Clone, Copy)]
pub enum Request {
    /// The file of this path is opened for reading and appending, and made if it is missing. The one
    /// that was open is closed.
    Opens,
    /// The open file is locked, or that fails after a second.
    Locks,
    /// Whether this path names the open file: 1 or 0.
    Names,
    /// The length of the open file.
    Measures,
    /// Whether the first row of the open file is `#V2`: 1 or 0.
    HasHeader,
    /// The last byte of the open file.
    LastByte,
    /// The bytes are written at the end of the open file, with one write if it takes them all. The
    /// answer is how many were taken.
    Appends,
    /// The open file is cut back to its first bytes, as many as was measured.
    CutsBack,
    /// The open file is closed.
    Closes,
}

pub trait FileDevice {
    /// Each call so far with its answer, the newest first.
    ghost calls: { Self → List FileCall };

    fn call(&mut self, what: Request, bytes: &[u8]) -> Result<u64, ErrorKind>
        ensures noted { calls self.new ≡ Did what bytes.now result ∷ calls self.old };
}
