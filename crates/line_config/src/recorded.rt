//! A reader or a writer whose calls are noted.
ghost use Rattle.std.specs.Prelude.{◌≡◌, ◌∷◌, ◌++◌, [], Some, unwrap_or};
ghost use Rattle.std.specs.Io.{ReadsAtMost, WritesAtMost};
ghost use Rattle.std.specs.Io.KnownBytes.{Keeps, ReadConsumes, WriteAppends};
ghost use Rattle.line_config.specs.DeviceCalls.{flushes, bytes_moved, moves};

use crate::log::Log;
use std::io::{Read, Result, Write};

/// A reader or a writer over another one. Each call is one call of the other, and is noted with its
/// answer.
#[derive(Drop)]
pub struct Recorded<D> {
    device: D,
    log: Log,
}

impl<D> Recorded<D> {
    ghost use Rattle.line_config.specs.Parts.{calls_of, took, inner_of};

    /// A reader or a writer over this one. Nothing is noted yet.
    pub fn new(device: D) -> Self
        ensures took { took result ≡ [] }
        ensures calls { calls_of result ≡ [] }
        ensures device { inner_of result ≡ device }
    {
        Recorded {
            device,
            log: Log::new(),
        }
    }

    /// The device below.
    pub fn into_inner(self) -> D
        ensures { result ≡ inner_of self }
    {
        self.device
    }
}

impl<W: Write> Recorded<W> {
    ghost use Rattle.line_config.specs.Parts.{calls_of, took, inner_of};

    /// A writer over this one. What it had before is noted, if it reports that, and nothing else.
    pub fn over_writer(writer: W) -> Self
        ensures took { took result ≡ unwrap_or (W.contents writer) [] }
        ensures calls { calls_of result ≡ [] }
        ensures device { inner_of result ≡ writer }
    {
        let log = Log::since(&writer);
        Recorded {
            device: writer,
            log,
        }
    }
}

impl<R: Read> Read for Recorded<R> {
    ghost use Rattle.line_config.specs.Parts.{calls_of, took, inner_of};

    ghost remaining = { λ s. R.remaining s.device };

    fn read(&mut self, buf: &mut [u8]) -> Result<usize>
        ensures bound { ReadsAtMost result buf.new }

        // If the reader below reports its bytes, it has given these and no others.
        ensures bytes { ReadConsumes (R.remaining (inner_of self.old))
            (R.remaining (inner_of self.new)) result buf.new }
        ensures took { took self.new ≡ took self.old ++ bytes_moved result buf.new }
        ensures noted { calls_of self.new ≡ moves result buf.new ∷ calls_of self.old }
    {
        let given = self.device.read(buf);
        self.log.note(&given, buf);
        given
    }
}

impl<W: Write> Write for Recorded<W> {
    ghost use Rattle.line_config.specs.Parts.{calls_of, took, inner_of};

    ghost contents = { λ s. Some s.log.bytes };

    fn write(&mut self, buf: &[u8]) -> Result<usize>
        ensures bound { WritesAtMost result buf.now }
        ensures bytes { WriteAppends (Some (took self.old)) (Some (took self.new)) result buf.now }

        // If the writer below reports its bytes, it has taken these and no others.
        ensures writer { WriteAppends (W.contents (inner_of self.old))
            (W.contents (inner_of self.new)) result buf.now }
        ensures noted { calls_of self.new ≡ moves result buf.now ∷ calls_of self.old }
    {
        let taken = self.device.write(buf);
        self.log.note(&taken, buf);
        taken
    }

    fn flush(&mut self) -> Result<()>
        ensures bytes { Keeps (Some (took self.old)) (Some (took self.new)) }
        ensures writer { Keeps (W.contents (inner_of self.old)) (W.contents (inner_of self.new)) }
        ensures noted { calls_of self.new ≡ flushes result ∷ calls_of self.old }
    {
        let flushed = self.device.flush();
        self.log.note_flush(&flushed);
        flushed
    }
}
