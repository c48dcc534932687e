//! The file that keeps a history.

ghost use Rattle.std.specs.Prelude.{◌≡◌, [], IfOk, IsOk, string_bytes};
ghost use Rattle.keyline_files.specs.Paths.{SeenFrom};

use crate::append::append_row;
use crate::device::{FileDevice, Request};
use crate::host::{Host, begins_with_header};
use crate::locking::{RIGHTS, lock_to_read, locked, open_to_append};
use crate::whole::read_file;
use std::fs::{File, Metadata, OpenOptions, Permissions};
use std::io::{Error, ErrorKind, Read, Seek, SeekFrom, Write};
use std::os::unix::fs::{MetadataExt, OpenOptionsExt, PermissionsExt, fchown};
use std::{fs, io};

/// The first row of a history's text, with its newline.
const HEADER: &[u8] = b"#V2\n";

/// How many links are followed, one to the next.
const LINKS: u8 = 40;

/// The text of the file, for the source of a session's history. A missing file is empty, and a
/// device is an error, as `read_file` says. What another program is appending is waited for, at
/// most a second.
pub fn load_history(rt: &HostRuntime, path: &str) -> io::Result<Vec<u8>> {
    let read = match fs::metadata(rt, path) {
        Ok(seen) if seen.is_file() => read_locked(rt, path),
        Ok(_) => read_file(rt, path),
        Err(error) => Err(error),
    };
    match read {
        Err(error) if error.kind() == ErrorKind::NotFound => Ok(Vec::new(rt.alloc())),
        read => read,
    }
}

/// The same, but bytes that aren't UTF-8, such as those of a row that was cut off, are replaced by
/// U+FFFD, each ill-formed part by one. So they spoil no other row. The file stays as it is.
pub fn load_history_lossy(rt: &HostRuntime, path: &str) -> io::Result<Vec<u8>> {
    let text = load_history(rt, path)?;
    if str::from_utf8(text.as_slice()).is_ok() {
        return Ok(text);
    }
    Ok(String::from_utf8_lossy(rt.alloc(), text.as_slice())?.into_bytes())
}

/// Reads a file under the lock of its readers. If a writer keeps its lock for a second, the file is
/// read without it.
fn read_locked(rt: &HostRuntime, path: &str) -> io::Result<Vec<u8>> {
    let mut file = File::open(rt, path)?;
    let _ = lock_to_read(rt, &file);
    read_to_end(rt, &mut file)
}

fn read_to_end(rt: &HostRuntime, file: &mut File) -> io::Result<Vec<u8>> {
    let mut text = Vec::new(rt.alloc());
    file.read_to_end(&mut text)?;
    Ok(text)
}

/// Whether rows can be appended to this file, and if not, why. A missing file is made.
pub fn can_append(rt: &HostRuntime, path: &str) -> io::Result<()> {
    match fs::metadata(rt, path) {
        Ok(seen) if !seen.is_file() => Ok(()),
        _ => open_to_append(rt, path).map(|_| ()),
    }
}

/// Appends the rows of new entries with one write, as `append_row` says: under the lock of the file
/// that the path names, which other programs may append to, cut or replace meanwhile. A missing
/// file is made, for its owner alone. A text without the first row `#V2` is first
/// replaced by one with it. After an error the file has what it had, and the error says why. No rows leave it as it is.
///
/// What is no regular file is only written to.
pub fn append_history(rt: &HostRuntime, path: &str, rows: &[u8]) -> io::Result<()>
    ensures empty { rows.now ≡ [] → IsOk result }
{
    if rows.is_empty() {
        return Ok(());
    }
    match fs::metadata(rt, path) {
        Ok(seen) if !seen.is_file() => return written_to(rt, path, rows),
        _ => {}
    }
    match appended(rt, path, rows) {
        Err(ErrorKind::InvalidData) => add_header(rt, path)?,
        appended => return appended.map_err(Error::from),
    }
    appended(rt, path, rows).map_err(Error::from)
}

fn written_to(rt: &HostRuntime, path: &str, rows: &[u8]) -> io::Result<()> {
    let mut file = OpenOptions::new().write(true).open(rt, path)?;
    file.write_all(rows)
}

fn appended(rt: &HostRuntime, path: &str, rows: &[u8]) -> Result<(), ErrorKind> {
    let mut host = Host::new(rt);
    let appended = append_row(rt.alloc(), &mut host, path.as_bytes(), rows);
    let _ = host.call(Request::Closes, b"");
    appended
}

/// Replaces a text without the first row `#V2` by one with it: its rows have no escapes, so each of
/// its backslashes becomes two.
fn add_header(rt: &HostRuntime, path: &str) -> io::Result<()> {
    let target = target_of(rt, path)?;
    let target = target.as_str();
    let mut file = locked(rt, target)?;
    let old = read_from_start(rt, &mut file)?;
    if begins_with_header(old.as_slice()) {
        return Ok(());
    }
    let mut text = Vec::from_slice(rt.alloc(), HEADER)?;
    for byte in old.as_slice() {
        if *byte == b'\\' {
            text.push(b'\\')?;
        }
        text.push(*byte)?;
    }
    replace(rt, target, Some(&file.metadata()?), text.as_slice())
}

/// Leaves the newest rows of a history file, so many, in a new file of its name, if it has a
/// quarter more of them. Who appends meanwhile waits, and then opens the new one. Returns whether
/// it was cut.
pub fn cut_history(rt: &HostRuntime, path: &str, rows: usize) -> io::Result<bool> {
    let target = target_of(rt, path)?;
    let target = target.as_str();
    match fs::metadata(rt, target) {
        Ok(seen) if seen.is_file() => {}
        _ => return Ok(false),
    }
    let mut file = locked(rt, target)?;
    let old = read_from_start(rt, &mut file)?;
    let old = old.as_slice();
    if !begins_with_header(old) || rows_in(old) <= rows.saturating_add(rows / 4) {
        return Ok(false);
    }
    let mut text = Vec::from_slice(rt.alloc(), HEADER)?;
    text.extend_from_slice(newest_rows(old, rows))?;
    replace(rt, target, Some(&file.metadata()?), text.as_slice())?;
    Ok(true)
}

fn read_from_start(rt: &HostRuntime, file: &mut File) -> io::Result<Vec<u8>> {
    file.seek(SeekFrom::Start(0))?;
    read_to_end(rt, file)
}

/// The number of rows after the first one.
fn rows_in(text: &[u8]) -> usize {
    let mut rows = 0usize;
    for byte in text {
        if *byte == b'\n' {
            rows = rows.saturating_add(1);
        }
    }
    rows.saturating_sub(1)
}

/// The last rows of a text, so many.
fn newest_rows(text: &[u8], count: usize) -> &[u8] {
    let others = rows_in(text).saturating_sub(count);
    let mut rest = text;
    for _ in 0..others.saturating_add(1) {
        let Some(at) = rest.iter().position(|byte| *byte == b'\n') else {
            return rest;
        };
        rest = &rest[at + 1..];
    }
    rest
}

/// Writes the text of a history whole. An empty text is no history's: it leaves the file as it is,
/// since a session whose history has no new entry gives none.
///
/// A regular file is replaced by a new one of its folder that has its permissions and, if the
/// program may give them, its owner and group. So the old text stays until the new one is there,
/// after an error too. A link stays, and a missing file that it names is made, for its owner alone.
/// A file that its permissions protect is not replaced. What is no regular file is written to.
pub fn save_history(rt: &HostRuntime, path: &str, text: &[u8]) -> io::Result<()>
    ensures empty { text.now ≡ [] → IsOk result }
{
    if text.is_empty() {
        return Ok(());
    }
    let target = target_of(rt, path)?;
    let target = target.as_str();
    let old = match fs::metadata(rt, target) {
        Ok(old) => old,
        Err(error) if error.kind() == ErrorKind::NotFound => return replace(rt, target, None, text),
        Err(error) => return Err(error),
    };
    // Opened for writing, so that a file which its rights protect stays as it is.
    let mut file = OpenOptions::new().write(true).open(rt, target)?;
    if !old.is_file() {
        return file.write_all(text);
    }
    replace(rt, target, Some(&old), text)
}

/// Where the links of a path lead to, one after the other.
fn target_of(rt: &HostRuntime, path: &str) -> io::Result<String> {
    let mut target = String::from_str(rt.alloc(), path)?;
    for _ in 0..LINKS {
        let link = match fs::read_link(rt, target.as_str()) {
            Ok(link) => link,
            Err(error) if error.kind() == ErrorKind::OutOfMemory => return Err(error),
            Err(_) => return Ok(target),
        };
        target = match link.to_str() {
            Some(link) => beside(rt, target.as_str(), link)?,
            None => return Err(Error::from(ErrorKind::InvalidData)),
        };
    }
    Err(Error::from(ErrorKind::InvalidData))
}

/// A path as it is seen from the folder of another.
fn beside(rt: &HostRuntime, other: &str, path: &str) -> io::Result<String>
    ensures { IfOk result (λ seen. SeenFrom other.now path.now (string_bytes seen)) }
{
    match other.rsplit_once('/') {
        Some((folder, _)) if !path.starts_with('/') => {
            let mut seen = String::from_str(rt.alloc(), folder)?;
            seen.push('/')?;
            seen.push_str(path)?;
            Ok(seen)
        }
        _ => Ok(String::from_str(rt.alloc(), path)?),
    }
}

fn replace(rt: &HostRuntime, path: &str, old: Option<&Metadata>, text: &[u8]) -> io::Result<()> {
    let (mut file, name) = new_beside(rt, path)?;
    let written = fill(&mut file, old, text).and_then(|()| fs::rename(rt, name.as_str(), path));
    if written.is_err() {
        let _ = fs::remove_file(rt, name.as_str());
    }
    written
}

fn fill(file: &mut File, old: Option<&Metadata>, text: &[u8]) -> io::Result<()> {
    let rights = match old {
        Some(old) => {
            keep_owner(file, old);
            old.permissions()
        }
        None => Permissions::from_mode(RIGHTS),
    };
    file.set_permissions(rights)?;
    file.write_all(text)?;
    file.sync_all()
}

/// Gives a file the owner and the group of another, if the program may.
fn keep_owner(file: &File, old: &Metadata) {
    let _ = fchown(file, None, Some(old.gid()));
    let _ = fchown(file, Some(old.uid()), None);
}

/// A new file in the folder of another, and its name, which is short, whatever the other's is.
fn new_beside(rt: &HostRuntime, path: &str) -> io::Result<(File, String)> {
    for number in 0..u16::MAX {
        let name = format!(in rt.alloc(); ".keyline.{number}.new")?;
        let name = beside(rt, path, name.as_str())?;
        let opened = OpenOptions::new()
            .write(true)
            .create_new(true)
            .mode(RIGHTS)
            .open(rt, name.as_str());
        match opened {
            Ok(file) => return Ok((file, name)),
            Err(error) if error.kind() == ErrorKind::AlreadyExists => {}
            Err(error) => return Err(error),
        }
    }
    Err(Error::from(ErrorKind::AlreadyExists))
}
