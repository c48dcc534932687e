//! The calls of a reader or a writer, repeated if a signal interrupts them.
//!
//! An interrupted call has read or written nothing, so it is no failure of the device. A resized
//! window interrupts a call, and so does a job that is stopped and continued. Every other error is
//! a failure.
ghost use Rattle.std.specs.Prelude.{◌≡◌, ◌++◌, ◌<◌, ◌≤◌, length, take, Ok, Err, OnErr, IfOk, IsTrue, ◌↔◌};
ghost use Rattle.std.specs.Io.KnownBytes.{ReadConsumes};
ghost use Rattle.std.specs.IoError.{error_kind};
ghost use Rattle.line_config.specs.DeviceCalls.{Answers, Flushes, IsReadFailure, IsWriteFailure, Moves, Tries};
ghost use Rattle.line_config.specs.DeviceCalls.{flush_interrupted, move_interrupted, bytes_moved};
ghost use Rattle.line_config.specs.Parts.{Notes, calls_of, inner_of, took};

use crate::device::DeviceFailed;
use crate::recorded::Recorded;
use std::io::{Error, ErrorKind, Read, Write};

// A call must return, so the tries are counted. In practice this number is never reached.
const TRIES: u64 = u64::MAX;

fn was_interrupted(error: &Error) -> bool
    ensures { IsTrue result ↔ (error_kind error.now ≡ ErrorKind.Interrupted) }
{
    matches!(error.kind(), ErrorKind::Interrupted)
}

// One read, repeated if a signal interrupts it.
#[tactic(auto, using(crate::proofs::KnownLemmas::on_known))]
pub(crate) fn read_retrying<R: Read>(
    reader: &mut Recorded<R>,
    buf: &mut [u8],
) -> Result<usize, DeviceFailed>
    ensures bound { IfOk result (λ n. n ≤ length buf.new) }
    ensures reader { ReadConsumes (R.remaining (inner_of reader.old))
        (R.remaining (inner_of reader.new)) result buf.new }
    ensures took { took reader.new ≡ took reader.old ++ bytes_moved result buf.new }
    ensures tries { Tries move_interrupted (calls_of reader.old) (calls_of reader.new)
        (Answers (Moves (Ok (bytes_moved result buf.new))) IsReadFailure result) }
{
    for _tried in 0..TRIES {
        match reader.read(buf) {
            Ok(count) => return Ok(count),
            Err(e) if was_interrupted(&e) => {}
            Err(_) => return Err(DeviceFailed),
        }
    }
    Err(DeviceFailed)
}

// One write, repeated if a signal interrupts it. A write that takes nothing is a failure.
#[tactic(auto, using(crate::proofs::KnownLemmas::on_known, crate::proofs::NotesLemmas::on_notes))]
pub(crate) fn write_retrying<W: Write>(
    writer: &mut Recorded<W>,
    bytes: &[u8],
) -> Result<usize, DeviceFailed>
    ensures bound { IfOk result (λ n. n ≤ length bytes.now) }
    ensures some { IfOk result (λ n. 0 < n) }
    ensures bytes { IfOk result (λ n. took writer.new ≡ took writer.old ++ take n bytes.now) }
    ensures err { OnErr result (took writer.new ≡ took writer.old) }
    ensures writer { Notes W.contents writer.old writer.new }
    ensures tries { Tries move_interrupted (calls_of writer.old) (calls_of writer.new)
        (Answers (Moves (Ok (bytes_moved result bytes.now))) IsWriteFailure result) }
{
    for _tried in 0..TRIES {
        match writer.write(bytes) {
            Ok(0) => return Err(DeviceFailed),
            Ok(count) => return Ok(count),
            Err(e) if was_interrupted(&e) => {}
            Err(_) => return Err(DeviceFailed),
        }
    }
    Err(DeviceFailed)
}

// The writer's flush, repeated if a signal interrupts it.
#[tactic(auto, using(crate::proofs::KnownLemmas::on_known, crate::proofs::NotesLemmas::on_notes))]
pub(crate) fn flush_retrying<W: Write>(writer: &mut Recorded<W>) -> Result<(), DeviceFailed>
    ensures bytes { took writer.new ≡ took writer.old }
    ensures writer { Notes W.contents writer.old writer.new }
    ensures tries { Tries flush_interrupted (calls_of writer.old) (calls_of writer.new)
        (Answers (Flushes (Ok tt)) IsWriteFailure result) }
{
    for _tried in 0..TRIES {
        match writer.flush() {
            Ok(()) => return Ok(()),
            Err(e) if was_interrupted(&e) => {}
            Err(_) => return Err(DeviceFailed),
        }
    }
    Err(DeviceFailed)
}
