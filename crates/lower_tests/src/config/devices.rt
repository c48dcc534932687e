//! The adapters over readers and writers that transfer pieces, are interrupted, or fail. A row has
//! the turns of the reader or the writer, a word for each call, and after `=` the calls that were
//! made at last.

use line_config::{ReadSource, Sink, Source, WriteSink};
use stand_ins::devices::{Pieces, Taker, Turns};
use stand_ins::rows::{Player, each_holds, raised};
use stand_ins::tables::{or_nothing, parted, pictured_bytes};
use std::alloc::{AllocError, Global};
use std::cell::Cell;
use std::test::Fail;

/// Six bytes are read; what is given, how it ends, and how often the reader is called.
const READS_IN_PIECES: &str = "
    1000 = abcdef, end, 2
    1 1 1 1 1 1 = abcdef, end, 7
    2 3 = abcdef, end, 4
    interrupted 1 interrupted interrupted 2 = abcdef, end, 7
    3 broken = abc, failure, 2
    broken = nothing, failure, 1
    6 interrupted broken = abcdef, failure, 3
    ";

/// The turns at writes, and after a bar those at flushes; what is taken of four bytes, what stays
/// unsent, how the flush ends, and how often the writer is called for writes and for flushes.
const WRITES_THAT_TAKE_A_PART_OR_FAIL: &str = "
    1000 = abcd, nothing, passed, 1 1
    1 1 1 = abcd, nothing, passed, 4 1
    3 interrupted interrupted 9 = abcd, nothing, passed, 4 1
    interrupted | interrupted = abcd, nothing, passed, 2 2
    broken = nothing, abcd, failed, 1 0
    1 broken = a, bcd, failed, 2 0
    0 = nothing, abcd, failed, 1 0
    3 0 = abc, d, failed, 2 0
    1000 | broken = abcd, nothing, failed, 1 1
    ";

/// The calls of a table's rows.
#[derive(Clone, Copy, Drop)]
enum Ask {
    Read,
    Written,
}

impl Player for Ask {
    fn play(&mut self, alloc: Global, call: &str) -> Result<String, Fail> {
        raised(match self {
            Ask::Read => read_by(alloc, call),
            Ask::Written => written_by(alloc, call),
        })
    }
}

#[test]
fn devices(rt: HostRuntime) -> Result<(), Fail> {
    let tables = [
        (Ask::Read, READS_IN_PIECES),
        (Ask::Written, WRITES_THAT_TAKE_A_PART_OR_FAIL),
    ];
    each_holds(rt.alloc(), &tables)
}

/// Takes the bytes of a source to its end or its failure, and returns in a word which it was.
fn took_all<S: Source>(source: &mut S, bytes: &mut Vec<u8>) -> Result<&'static str, AllocError> {
    for _ in 0..100 {
        match source.next_byte() {
            Ok(Some(byte)) => bytes.push(byte)?,
            Ok(None) => return Ok("end"),
            Err(_) => return Ok("failure"),
        }
    }
    Ok("no end")
}

/// The bytes of a source over a reader with these turns.
fn read_by(alloc: Global, turns: &str) -> Result<String, AllocError> {
    let calls = Cell::new(0);
    let mut source = ReadSource::new(Pieces {
        bytes: b"abcdef",
        turns: Turns::new(turns, &calls),
    });
    given_told(alloc, &mut source, &calls)
}

fn given_told<S: Source>(
    alloc: Global,
    source: &mut S,
    calls: &Cell<usize>,
) -> Result<String, AllocError> {
    let mut bytes = Vec::new(alloc);
    let last = took_all(source, &mut bytes)?;
    let given = pictured_bytes(alloc, &bytes)?;
    let (given, count) = (or_nothing(given.as_str()), calls.get());
    format!(in alloc; "{given}, {last}, {count}")
}

/// What a writer with these turns takes of `abcd`, in as many calls.
fn written_by(alloc: Global, turns: &str) -> Result<String, AllocError> {
    let (turns, flushes) = parted(turns, " | ");
    let (writes, flushed) = (Cell::new(0), Cell::new(0));
    let mut sink = WriteSink::new(Taker {
        taken: Vec::new(alloc),
        turns: Turns::new(turns, &writes),
        flushes: Turns::new(flushes, &flushed),
    });
    let passed = sink.write(b"ab").is_ok() && sink.write(b"cd").is_ok() && sink.flush().is_ok();
    let (writer, unsent) = sink.into_parts();
    let counts = (writes.get(), flushed.get());
    written_told(alloc, &writer.taken, unsent.as_slice(), passed, counts)
}

fn written_told(
    alloc: Global,
    taken: &[u8],
    unsent: &[u8],
    passed: bool,
    counts: (usize, usize),
) -> Result<String, AllocError> {
    let taken = pictured_bytes(alloc, taken)?;
    let unsent = pictured_bytes(alloc, unsent)?;
    let (taken, unsent) = (or_nothing(taken.as_str()), or_nothing(unsent.as_str()));
    let last = if passed { "passed" } else { "failed" };
    let (writes, flushes) = counts;
    format!(in alloc; "{taken}, {unsent}, {last}, {writes} {flushes}")
}
