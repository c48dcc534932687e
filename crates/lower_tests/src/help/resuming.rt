//! Sources that end, and give more if they are read again, like a terminal.

ghost use Rattle.std.specs.Prelude.{◌+◌, [], false, length};
ghost use Rattle.line_config.specs.declared.device.Last.TheVariants.{End};

use crate::help::history::load_told;
use line_config::{DeviceFailed, Source};
use line_help::{FileHistory, load_words};
use stand_ins::tables::meant_bytes;
use std::alloc::{AllocError, Global};

/// Some bytes, an end, more bytes, and an end again.
#[derive(Drop)]
struct Resuming<'a> {
    bytes: &'a [u8],
    more: &'a [u8],
}

impl Source for Resuming<'_> {
    ghost feed = { λ s. record {
      told = false;
      coming = [];
      last = End;
      bound = length s.bytes.now + length s.more.now;
      failed = false;
    } };

    ghost buffered = { λ s. [] };

    fn next_byte(&mut self) -> Result<Option<u8>, DeviceFailed> {
        let Some((first, rest)) = self.bytes.split_first() else {
            self.bytes = self.more;
            self.more = &[];
            return Ok(None);
        };
        self.bytes = rest;
        Ok(Some(*first))
    }

    fn buffer(&self) -> &[u8] {
        &[]
    }

    fn consume(&mut self, _amount: usize) {}

    fn failed(&self) -> bool {
        false
    }
}

// A text before which nothing was loaded, and `c` after its end: the answer of a new history, its
// entries then, and those after it loads again.
pub(crate) const ENDS: &str = r"
    a␊b     = part a|b|, then part a|b|c|
    a␊b␊    = part a|b|, then part a|b|c|
    #V2     = whole , then part c|
    #V2␊a   = whole a|, then part a|c|
            = part , then part c|
";

/// What is loaded from such a source.
pub(crate) fn ends_told(alloc: Global, text: &str) -> Result<String, AllocError> {
    let bytes = meant_bytes(alloc, text)?;
    let mut source = Resuming {
        bytes: &bytes,
        more: b"c",
    };
    loaded_twice(alloc, &mut FileHistory::new(alloc), &mut source)
}

fn loaded_twice(
    alloc: Global,
    history: &mut FileHistory,
    source: &mut Resuming<'_>,
) -> Result<String, AllocError> {
    let first = load_told(alloc, history, source)?;
    let second = load_told(alloc, history, source)?;
    format!(in alloc; "{first}, then {second}")
}

// The number of words read from a source, and the number after its end.
pub(crate) fn words_counted(alloc: Global) -> (usize, usize) {
    let mut source = Resuming {
        bytes: b"a\nb",
        more: b"c",
    };
    (
        count_read(alloc, &mut source),
        count_read(alloc, &mut source),
    )
}

fn count_read(alloc: Global, source: &mut Resuming<'_>) -> usize {
    match load_words(alloc, source) {
        Ok(words) => words.len(),
        Err(_) => 0,
    }
}
