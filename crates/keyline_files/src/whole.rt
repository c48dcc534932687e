//! Files that are read whole.

use std::io::{Error, ErrorKind};
use std::os::unix::fs::FileTypeExt;
use std::{fs, io};

/// The bytes of the file. A device is the error `InvalidInput`, since its bytes may have no end; a
/// pipe is read until its writer closes it.
pub fn read_file(rt: &HostRuntime, path: &str) -> io::Result<Vec<u8>> {
    let kind = fs::metadata(rt, path)?.file_type();
    if kind.is_char_device() || kind.is_block_device() {
        return Err(Error::from(ErrorKind::InvalidInput));
    }
    fs::read(rt, path)
}
