//! Devices in boxes. Moving one moves a pointer, and not the device's array.

ghost use Rattle.std.specs.Prelude.{◌≡◌, ◌^◌, IfErr, IfOk, false};

use line_config::{DeviceFailed, Foretold, ReadSource, Sink, Source, WriteSink};
use std::alloc::Global;
use std::io::{Read, Write};
use std::marker::Model;

/// A device in a box, used like the device.
#[derive(Drop)]
pub struct Boxed<D> {
    inside: Box<D>,
}

impl<D> Model for Boxed<D> {
    ghost Value = { D };

    ghost view = { λ b. b.inside.value };
}

impl<D> Boxed<D> {
    /// If the box can't be allocated, the device is returned.
    pub(crate) fn new(alloc: Global, device: D) -> Result<Self, D>
        ensures ok { IfOk result (λ boxed. boxed ≡ device) }
        ensures back { IfErr result (λ back. back ≡ device) }
    {
        match Box::new(alloc, device) {
            Ok(inside) => Ok(Boxed { inside }),
            Err(refused) => Err(refused.value),
        }
    }

    /// The device.
    pub fn into_inner(self) -> D
        ensures { result ≡ self }
    {
        let Boxed { inside } = self;
        Box::into_inner(inside)
    }
}

impl<R: Read, K: Foretold<R>> Boxed<ReadSource<R, K>> {
    ghost use Rattle.line_config.specs.Adapters.{IsUnread, reader_of};

    /// A source over a reader. If the box can't be allocated, the reader is returned.
    #[inline(never)]
    fn over_reader(alloc: Global, reader: R) -> Result<Self, R>
        ensures unread { IfOk result (λ source. IsUnread reader source) }
        ensures bound { IfOk result (λ source.
            (⟦<ReadSource<R, K> as Source>⟧.feed source).bound ≡ 2 ^ 63) }
        ensures back { IfErr result (λ back. back ≡ reader) }
    {
        match Boxed::new(alloc, ReadSource::foretold(reader)) {
            Ok(source) => Ok(source),
            Err(source) => Err(source.into_parts().0),
        }
    }

    /// The reader.
    #[inline(never)]
    pub(crate) fn into_reader(self) -> R
        ensures { result ≡ reader_of self }
    {
        self.into_inner().into_parts().0
    }
}

impl<W: Write> Boxed<WriteSink<W>> {
    ghost use Rattle.line_config.specs.Adapters.{IsUnused, writer_of};

    /// A sink over a writer. If the box can't be allocated, the writer is returned.
    #[inline(never)]
    fn over_writer(alloc: Global, writer: W) -> Result<Self, W>
        ensures unused { IfOk result (λ sink. IsUnused W.contents writer sink) }
        ensures fresh { IfOk result (λ sink.
            ⟦<WriteSink<W> as Sink>⟧.has_failed sink ≡ false) }
        ensures back { IfErr result (λ back. back ≡ writer) }
    {
        match Boxed::new(alloc, WriteSink::new(writer)) {
            Ok(sink) => Ok(sink),
            Err(sink) => Err(sink.into_parts().0),
        }
    }

    /// The writer.
    #[inline(never)]
    pub(crate) fn into_writer(self) -> W
        ensures { result ≡ writer_of self }
    {
        self.into_inner().into_parts().0
    }
}

impl<S: Source> Source for Boxed<S> {
    ghost feed = { S.feed };

    ghost buffered = { S.buffered };

    fn next_byte(&mut self) -> Result<Option<u8>, DeviceFailed> {
        self.inside.as_mut().next_byte()
    }

    fn buffer(&self) -> &[u8] {
        self.inside.as_ref().buffer()
    }

    fn consume(&mut self, amount: usize) {
        self.inside.as_mut().consume(amount);
    }

    fn failed(&self) -> bool {
        self.inside.as_ref().failed()
    }
}

impl<D: Sink> Sink for Boxed<D> {
    ghost held = { D.held };

    ghost waits = { D.waits };

    ghost has_failed = { D.has_failed };

    fn write(&mut self, bytes: &[u8]) -> Result<(), DeviceFailed> {
        self.inside.as_mut().write(bytes)
    }

    fn flush(&mut self) -> Result<(), DeviceFailed> {
        self.inside.as_mut().flush()
    }

    fn failed(&self) -> bool {
        self.inside.as_ref().failed()
    }
}

/// The devices of a session over a reader and two writers, each in a box.
pub(crate) struct Devices<S, D, L> {
    pub(crate) source: Boxed<S>,
    pub(crate) display: Boxed<D>,
    pub(crate) lines: Boxed<L>,
}

impl<R: Read, K: Foretold<R>, E: Write, W: Write> Devices<
    ReadSource<R, K>,
    WriteSink<E>,
    WriteSink<W>,
> {
    ghost use Rattle.line_config.specs.Adapters.{IsUnread, IsUnused};

    /// Devices over a reader and two writers. Each is in its box from the start, so that its array
    /// isn't moved. If a box can't be allocated, reader and writers are returned, and no call of
    /// them was made.
    pub(crate) fn over(alloc: Global, keys: R, display: E, lines: W) -> Result<Self, (R, E, W)>
        ensures source { IfOk result (λ it. IsUnread keys it.source) }
        ensures bound { IfOk result (λ it.
            (⟦<ReadSource<R, K> as Source>⟧.feed it.source).bound ≡ 2 ^ 63) }
        ensures display { IfOk result (λ it. IsUnused E.contents display it.display) }
        ensures lines { IfOk result (λ it. IsUnused W.contents lines it.lines) }
        ensures shows { IfOk result (λ it.
            ⟦<WriteSink<E> as Sink>⟧.has_failed it.display ≡ false) }
        ensures writes { IfOk result (λ it.
            ⟦<WriteSink<W> as Sink>⟧.has_failed it.lines ≡ false) }
        ensures back { IfErr result (λ back. back ≡ (keys, display, lines)) }
    {
        let source = match Boxed::over_reader(alloc, keys) {
            Ok(source) => source,
            Err(keys) => return Err((keys, display, lines)),
        };
        let display = match Boxed::over_writer(alloc, display) {
            Ok(display) => display,
            Err(display) => return Err((source.into_reader(), display, lines)),
        };
        let lines = match Boxed::over_writer(alloc, lines) {
            Ok(lines) => lines,
            Err(lines) => return Err((source.into_reader(), display.into_writer(), lines)),
        };
        Ok(Devices {
            source,
            display,
            lines,
        })
    }
}
