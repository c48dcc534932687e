//! A sink for tests that fails when they say so.

ghost use Rattle.std.specs.Prelude.{◌≡◌, ◌≤◌, false, length};
ghost use Rattle.stand_ins.specs.declared.sinks.TheConstants.{SIZE};

use line_config::{DeviceFailed, Log, Sink};

const SIZE: usize = 2048;

/// A sink in a fixed array, which takes no memory. It fails when the array or its space is full,
/// after taking what fits. At the call with the number `failing_call` it fails after taking half.
#[derive(Drop)]
pub struct FailingSink {
    bytes: [u8; SIZE],
    len: usize,
    room: usize,
    calls: usize,
    failing_call: usize,
    marks_flushes: bool,
    taken: Log,
    failed: bool,
    asked_again: bool,
    pub ghost within: { len ≤ SIZE },
}

impl FailingSink {
    /// A sink with space for so many bytes, at most those of its array.
    pub fn with_room(room: usize) -> FailingSink
        ensures { ⟦<FailingSink as Sink>⟧.has_failed result ≡ false }
    {
        FailingSink::new(room, usize::MAX)
    }

    /// A sink that fails at the call with this number, counted from 0 over writes and flushes.
    pub fn failing_at(call: usize) -> FailingSink
        ensures { ⟦<FailingSink as Sink>⟧.has_failed result ≡ false }
    {
        FailingSink::new(SIZE, call)
    }

    fn new(room: usize, failing_call: usize) -> FailingSink
        ensures { ⟦<FailingSink as Sink>⟧.has_failed result ≡ false }
    {
        FailingSink {
            bytes: [0; SIZE],
            len: 0,
            room,
            calls: 0,
            failing_call,
            marks_flushes: false,
            taken: Log::new(),
            failed: false,
            asked_again: false,
        }
    }

    /// From now on each flush adds a bar to what it has taken, and fails without space for it.
    pub fn mark_flushes(&mut self) {
        self.marks_flushes = true;
    }

    /// What it has taken.
    pub fn bytes(&self) -> &[u8] {
        let all = &self.bytes[..];
        &all[..self.len]
    }

    /// Whether it was called after it had failed.
    pub fn asked_again(&self) -> bool {
        self.asked_again
    }

    // Whether this call is the one that fails.
    fn fails_now(&mut self) -> bool
        ensures kept { self.new ≡ record self.old { calls = self.new.calls } }
    {
        let fails = self.calls == self.failing_call;
        self.calls = self.calls.saturating_add(1);
        fails
    }

    // Takes as many of the bytes as fit, and at most `most`.
    fn put(&mut self, bytes: &[u8], most: usize) -> usize
        ensures kept { self.new.taken ≡ self.old.taken }
        ensures bound { result ≤ length bytes.now }
    {
        let end = self.len;
        let count = most.min(bytes.len()).min(self.room).min(SIZE - end);
        let all = &mut self.bytes[..];
        all[end..end + count].copy_from_slice(&bytes[..count]);
        self.len = end + count;
        self.room -= count;
        count
    }

    // Marks a flush, if flushes are marked: whether there was space for it.
    fn mark(&mut self) -> bool
        ensures kept { self.new.taken ≡ self.old.taken }
    {
        !self.marks_flushes || self.put(b"|", 1) == 1
    }
}

impl Sink for FailingSink {
    ghost use Rattle.std.specs.Prelude.{[]};

    ghost held = { λ s. s.taken.bytes };

    ghost waits = { λ _. [] };

    ghost has_failed = { λ s. s.failed };

    fn write(&mut self, bytes: &[u8]) -> Result<(), DeviceFailed> {
        if self.failed {
            self.asked_again = true;
            return Err(DeviceFailed);
        }
        let fails = self.fails_now();
        let most = if fails { bytes.len() / 2 } else { bytes.len() };
        let count = self.put(bytes, most);
        self.taken.note(&Ok(count), bytes);
        self.failed = fails || count < bytes.len();
        if self.failed {
            Err(DeviceFailed)
        } else {
            Ok(())
        }
    }

    fn flush(&mut self) -> Result<(), DeviceFailed> {
        if self.failed {
            self.asked_again = true;
            return Err(DeviceFailed);
        }
        self.failed = self.fails_now() || !self.mark();
        if self.failed {
            Err(DeviceFailed)
        } else {
            Ok(())
        }
    }

    fn failed(&self) -> bool {
        self.failed
    }
}
