//! The files of the system.
ghost use Rattle.std.specs.Prelude.{◌≡◌, []};

use crate::device::{FileDevice, Request};
use crate::locking::{is_named, lock_to_write, open_to_append};
use crate::log::Log;
use std::fs::File;
use std::io::{self, ErrorKind, Read, Seek, SeekFrom, Write};

/// The files of the system, of which one is open at a time. Each request is made and noted with its
/// answer. That the system does what it answers is read here, and not proved.
#[derive(Drop)]
pub struct Host<'a> {
    rt: &'a HostRuntime,
    file: Option<File>,
    measured: u64,
    log: Log,
}

impl<'a> Host<'a> {
    /// No file is open, and nothing is noted.
    pub fn new(rt: &'a HostRuntime) -> Host<'a>
        ensures { result.log.calls ≡ [] }
    {
        Host {
            rt,
            file: None,
            measured: 0,
            log: Log::new(),
        }
    }

    /// Makes a request.
    fn made(&mut self, what: Request, bytes: &[u8]) -> io::Result<u64>
        ensures { self.new.log ≡ self.old.log }
    {
        if matches!(what, Request::Opens) {
            self.file = Some(open_to_append(self.rt, path_of(bytes)?)?);
            return Ok(0);
        }
        let Some(file) = &mut self.file else {
            return Err(io::Error::from(ErrorKind::InvalidInput));
        };
        match what {
            Request::Opens => Ok(0),
            Request::Locks => lock_to_write(self.rt, file).map(|()| 0),
            Request::Names => is_named(self.rt, file, path_of(bytes)?).map(u64::from),
            Request::Measures => {
                self.measured = file.metadata()?.len();
                Ok(self.measured)
            }
            Request::HasHeader => has_header(file).map(u64::from),
            Request::LastByte => last_byte(file).map(u64::from),
            Request::Appends => {
                file.write_all(bytes)?;
                Ok(bytes.len() as u64)
            }
            Request::CutsBack => {
                file.set_len(self.measured)?;
                Ok(self.measured)
            }
            Request::Closes => {
                self.file = None;
                Ok(0)
            }
        }
    }
}

fn path_of(bytes: &[u8]) -> io::Result<&str> {
    str::from_utf8(bytes).map_err(|_| io::Error::from(ErrorKind::InvalidInput))
}

/// Whether the first row of a file is `#V2`.
fn has_header(file: &mut File) -> io::Result<bool> {
    let mut first = [0u8; 5];
    file.seek(SeekFrom::Start(0))?;
    let count = file.read(&mut first)?;
    Ok(begins_with_header(&first[..count.min(5)]))
}

/// Whether the first row of a text is `#V2`, with or without a carriage return at its end.
pub(crate) fn begins_with_header(text: &[u8]) -> bool {
    match text.strip_prefix(b"#V2") {
        Some(rest) => rest.is_empty() || rest.starts_with(b"\n") || rest.starts_with(b"\r\n"),
        None => false,
    }
}

fn last_byte(file: &mut File) -> io::Result<u8> {
    let mut last = [0u8];
    file.seek(SeekFrom::End(-1))?;
    match file.read(&mut last)? {
        0 => Err(io::Error::from(ErrorKind::UnexpectedEof)),
        _ => Ok(last[0]),
    }
}

impl FileDevice for Host<'_> {
    ghost calls = { λ s. s.log.calls };

    fn call(&mut self, what: Request, bytes: &[u8]) -> Result<u64, ErrorKind> {
        let answer = self.made(what, bytes).map_err(|error| error.kind());
        self.log.note(&what, bytes, &answer);
        answer
    }
}
