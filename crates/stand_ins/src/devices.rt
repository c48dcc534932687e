//! Readers and writers of std that transfer pieces, are interrupted or fail.

use crate::tables::word_and_rest;
use std::cell::Cell;
use std::io;
use std::io::{ErrorKind, Read, Write};

/// What a reader or a writer does at its calls, one word per call: the most bytes to transfer,
/// `interrupted` or `broken`. A word that ends in `..` applies to all calls from there on; after
/// the last word a call transfers everything.
#[derive(Drop)]
pub struct Turns<'a> {
    left: &'a str,
    calls: &'a Cell<usize>,
}

impl<'a> Turns<'a> {
    /// The turns, with the counter of calls.
    pub fn new(words: &'a str, calls: &'a Cell<usize>) -> Self {
        Turns { left: words, calls }
    }

    /// The most bytes of this call.
    fn next(&mut self) -> io::Result<usize> {
        self.calls.set(self.calls.get().saturating_add(1));
        let (word, behind) = word_and_rest(self.left);
        let turn = match word.strip_suffix("..") {
            Some(turn) => turn,
            None => {
                self.left = behind;
                word
            }
        };
        match turn {
            "interrupted" => Err(io::Error::from(ErrorKind::Interrupted)),
            "broken" => Err(io::Error::from(ErrorKind::BrokenPipe)),
            most => Ok(most.parse::<usize>().unwrap_or(usize::MAX)),
        }
    }
}

/// A reader over a slice.
#[derive(Drop)]
pub struct Pieces<'a> {
    pub bytes: &'a [u8],
    pub turns: Turns<'a>,
}

impl Read for Pieces<'_> {
    fn read(&mut self, buf: &mut [u8]) -> io::Result<usize> {
        let most = self.turns.next()?;
        let count = most.min(buf.len()).min(self.bytes.len());
        let (given, left) = self.bytes.split_at(count);
        buf[..count].copy_from_slice(given);
        self.bytes = left;
        Ok(count)
    }
}

/// A writer into memory, with its turns at writes and at flushes.
#[derive(Drop)]
pub struct Taker<'a> {
    pub taken: Vec<u8>,
    pub turns: Turns<'a>,
    pub flushes: Turns<'a>,
}

impl Write for Taker<'_> {
    fn write(&mut self, buf: &[u8]) -> io::Result<usize> {
        let count = self.turns.next()?.min(buf.len());
        self.taken.extend_from_slice(&buf[..count])?;
        Ok(count)
    }

    fn flush(&mut self) -> io::Result<()> {
        self.flushes.next()?;
        Ok(())
    }
}
