//! Lines of keys that a reader reports: no premise about what was read is left.

ghost use Rattle.std.specs.Prelude.{◌≡◌, ◌≤◌, IfOk, Some, refl};
ghost use Rattle.std.specs.Io.{ReadsAtMost};
ghost use Rattle.std.specs.Io.KnownBytes.{ReadConsumes};
ghost use Rattle.editor_tests.specs.Told.{AreLines};

use keyline::{
    Ending, Options, OwnBytes, ReadSource, ReportsBytes, SliceSource, Source, VecSink, edit, play,
};
use std::alloc::Global;
use std::io::{self, Read};

/// The accepted lines, each with its newline, of a session with options whose keys this reader
/// gives, in whatever pieces. If the session doesn't end with its keys, how it ended.
pub fn lines_of<R: ReportsBytes + Drop>(
    alloc: Global,
    options: &Options,
    old: &[u8],
    keys: R,
) -> Result<Vec<u8>, Ending>
    requires { (2 ≤ options.now.columns) × (options.now.columns ≤ 1000) }
    ensures { IfOk result (λ lines. AreLines options.now old.now (R.bytes keys) lines.items) }
{
    let source: ReadSource<R, OwnBytes> = ReadSource::foretold(keys);
    let played = match edit(
        alloc,
        options,
        None,
        SliceSource::new(old),
        source,
        VecSink::new(alloc),
        VecSink::new(alloc),
        VecSink::new(alloc),
    ) {
        Ok(played) => played,
        Err(unopened) => return Err(Ending::from(unopened.why)),
    };
    if played.source.failed() {
        return Err(played.ending);
    }
    match played.ending {
        Ending::Eof => Ok(played.lines.into_bytes()),
        why => Err(why),
    }
}

/// A reader that gives one byte per call.
#[derive(Drop)]
pub(crate) struct OneByOne<'k> {
    pub(crate) bytes: &'k [u8],
}

impl Read for OneByOne<'_> {
    ghost remaining = { λ r. Some r.bytes.now };

    fn read(&mut self, buf: &mut [u8]) -> io::Result<usize>
        ensures bound { ReadsAtMost result buf.new }
        ensures bytes { ReadConsumes (Some self.old.bytes.now) (Some self.new.bytes.now) result
            buf.new }
    {
        if buf.is_empty() {
            return Ok(0);
        }
        let Some((first, rest)) = self.bytes.split_first() else {
            return Ok(0);
        };
        buf[0] = *first;
        self.bytes = rest;
        Ok(1)
    }
}

impl ReportsBytes for OneByOne<'_> {
    ghost bytes = { λ r. r.bytes.now };

    ghost reports = { λ r. refl };
}

/// The same of these keys, of which each read gives one byte.
pub fn lines_by_bytes(
    alloc: Global,
    options: &Options,
    old: &[u8],
    keys: &[u8],
) -> Result<Vec<u8>, Ending>
    requires { (2 ≤ options.now.columns) × (options.now.columns ≤ 1000) }
    ensures { IfOk result (λ lines. AreLines options.now old.now keys.now lines.items) }
{
    lines_of(alloc, options, old, OneByOne { bytes: keys })
}

/// The history's text that the program's session of these keys leaves in memory.
pub fn text_of_play(
    alloc: Global,
    options: &Options,
    old: &[u8],
    keys: &[u8],
) -> Result<Vec<u8>, Ending>
    requires { (2 ≤ options.now.columns) × (options.now.columns ≤ 1000) }
{
    let reader = OneByOne { bytes: keys };
    match play::<OwnBytes, _, _, _>(alloc, options, None, old, reader, io::sink(), io::sink()) {
        Ok(played) => Ok(played.text.into_bytes()),
        Err(unopened) => Err(Ending::from(unopened.why)),
    }
}
