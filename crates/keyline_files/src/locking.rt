//! Locks on a history file, and whether its path still names it.

use std::fs::{self, File, OpenOptions, TryLockError};
use std::io::{self, Error, ErrorKind};
use std::os::unix::fs::{MetadataExt, OpenOptionsExt};
use std::thread;
use std::time::Duration;

/// The rights of a new history file: its owner's alone.
pub(crate) const RIGHTS: u32 = 0o600;

/// How often a lock is tried, and how many milliseconds are waited after a try: a second in all.
const TRIES: u8 = 100;

const PAUSE: u64 = 10;

/// How often a file that was replaced is opened again.
const TURNS: u16 = 10_000;

/// The file of this path, open for reading and appending. It is made if it is missing.
pub(crate) fn open_to_append(rt: &HostRuntime, path: &str) -> io::Result<File> {
    OpenOptions::new()
        .read(true)
        .append(true)
        .create(true)
        .mode(RIGHTS)
        .open(rt, path)
}

/// Locks a file for its only writer, or fails after a second.
pub(crate) fn lock_to_write(rt: &HostRuntime, file: &File) -> io::Result<()> {
    for _ in 0..TRIES {
        match file.try_lock() {
            Ok(()) => return Ok(()),
            Err(TryLockError::Error(error)) => return Err(error),
            Err(TryLockError::WouldBlock) => thread::sleep(rt, Duration::from_millis(PAUSE)),
        }
    }
    Err(Error::from(ErrorKind::ResourceBusy))
}

/// Locks a file for one of its readers, or fails after a second.
pub(crate) fn lock_to_read(rt: &HostRuntime, file: &File) -> io::Result<()> {
    for _ in 0..TRIES {
        match file.try_lock_shared() {
            Ok(()) => return Ok(()),
            Err(TryLockError::Error(error)) => return Err(error),
            Err(TryLockError::WouldBlock) => thread::sleep(rt, Duration::from_millis(PAUSE)),
        }
    }
    Err(Error::from(ErrorKind::ResourceBusy))
}

/// Whether the path names this file. A path that names nothing was replaced.
pub(crate) fn is_named(rt: &HostRuntime, file: &File, path: &str) -> io::Result<bool> {
    let here = file.metadata()?;
    match fs::metadata(rt, path) {
        Ok(named) => Ok(named.ino() == here.ino() && named.dev() == here.dev()),
        Err(error) if error.kind() == ErrorKind::NotFound => Ok(false),
        Err(error) => Err(error),
    }
}

/// The file that the path names, open and locked for its only writer.
pub(crate) fn locked(rt: &HostRuntime, path: &str) -> io::Result<File> {
    for _ in 0..TURNS {
        let file = open_to_append(rt, path)?;
        lock_to_write(rt, &file)?;
        if is_named(rt, &file, path)? {
            return Ok(file);
        }
    }
    Err(Error::from(ErrorKind::ResourceBusy))
}
