//! The kill ring: killed texts, to yank them again.

use line_buffer::{ChangeListener, DeleteListener, Direction, Mode, OutOfMemory};
use std::alloc::Global;
use std::marker::Model;

/// The last action on a ring; for a yank, with the number of bytes that it returned.
#[derive(Clone, Copy, Debug, PartialEq, Eq)]
pub enum Action {
    Other,
    Kill,
    Yank(usize),
}

/// Killed texts in slots that are used in turn. Consecutive kills share a slot.
#[derive(Debug, Drop)]
pub struct KillRing {
    slots: Vec<String>,
    size: usize,
    index: usize,
    last_action: Action,
    killing: bool,
}

impl Model for KillRing {
    ghost use Rattle.std.specs.Prelude.{map, vec_len, string_bytes};
    ghost use Rattle.line_record.specs.Ring.{Ring, IsRing};

    ghost Value = { Ring };

    ghost view = { λ r. record {
      slots = map string_bytes r.slots.items;
      size = r.size;
      place = r.index;
      last = r.last_action;
      killing = r.killing;
    } };

    ghost invariant = { λ r. IsRing (vec_len r.slots) r.size r.index r.last_action };
}

impl KillRing {
    ghost use Rattle.std.specs.Prelude.{◌≡◌, IfOk, OnOk, OnErr, ◌<◌, ◌≤◌, ◌-◌, length, map, option_copied, option_map, slice_get, string_bytes};
    ghost use Rattle.line_record.specs.Ring.{new_ring, ring_of, slot_after, ring_with_kill, ring_after_yank, ring_after_turn, yank_exchange};
    ghost use Rattle.line_record.specs.declared.kill_ring.Action.TheVariants.{Other};
    ghost use Rattle.std.specs.Borrow.{sem};
    ghost use Rattle.line_record.specs.RingLends.{ends_as};

    /// An empty ring of `size` slots. A ring without slots keeps nothing.
    pub fn new(alloc: Global, size: usize) -> Result<Self, OutOfMemory>
        ensures ring { IfOk result (λ r. r ≡ new_ring size) }
        ensures refused { OnErr result (0 < size) }
    {
        let slots = Vec::with_capacity(alloc, size)?;
        Ok(KillRing {
            slots,
            size,
            index: 0,
            last_action: Action::Other,
            killing: false,
        })
    }

    /// A ring of `size` slots that holds these texts. The slot at `place` is the current one, and
    /// the next kill starts a new slot. Without texts the place is 0.
    pub fn from_slots(slots: Vec<String>, size: usize, place: usize) -> Self
        requires few { length slots.items ≤ size }
        requires inside { place ≤ length slots.items - 1 }
        ensures { result ≡ ring_of (map string_bytes slots.items) size place }
    {
        KillRing {
            slots,
            size,
            index: place,
            last_action: Action::Other,
            killing: false,
        }
    }

    /// Ends a run of kills: the next kill starts a new slot.
    pub fn reset(&mut self)
        ensures { self.new ≡ record self.old { last = Other } }
    {
        self.last_action = Action::Other;
    }

    /// Stores a killed text. A kill right after a kill is joined to its text.
    pub fn kill(&mut self, alloc: Global, text: &str, mode: Mode) -> Result<(), OutOfMemory>
        ensures ok { OnOk result (self.new ≡ ring_with_kill text.now mode self.old) }
        ensures kept { OnErr result (self.new ≡ self.old) }
        ensures refused { OnErr result (0 < self.old.size) }
    {
        if self.size == 0 {
            self.last_action = Action::Kill;
            return Ok(());
        }
        if self.last_action == Action::Kill {
            return join_slot(&mut self.slots, self.index, text, mode);
        }
        let index = self.next_index();
        put_slot(alloc, &mut self.slots, index, text)?;
        self.index = index;
        self.last_action = Action::Kill;
        Ok(())
    }

    /// The slot that the next kill takes, if it isn't joined to the last one.
    fn next_index(&self) -> usize
        ensures value { result ≡ slot_after (length self.now.slots) self.now.size self.now.place }
        ensures inside { result ≤ length self.now.slots }
        ensures few { 0 < self.now.size → result < self.now.size }
    {
        if self.slots.is_empty() || self.index + 1 == self.size {
            return 0;
        }
        self.index + 1
    }

    /// The killed texts, slot by slot.
    pub fn texts(&self) -> &[String]
        ensures { map string_bytes result.now ≡ self.now.slots }
    {
        &self.slots
    }

    /// The current slot, which a yank returns; 0 if none is filled.
    pub fn place(&self) -> usize
        ensures { result ≡ self.now.place }
    {
        self.index
    }

    /// Borrows the text of the current slot.
    pub fn yank(&mut self) -> Option<&str>
        ensures value { option_copied result ≡ slice_get self.old.slots self.old.place }
        ensures* ring { sem 𝓛 (ends_as self.entry (ring_after_yank self.old)) }
    {
        if self.slots.is_empty() {
            return None;
        }
        self.last_action = Action::Yank(self.slots[self.index].len());
        Some(self.slots[self.index].as_str())
    }

    /// After a yank, turns one slot back and borrows its text. Also returns the number of bytes
    /// that the last yank returned.
    pub fn yank_pop(&mut self) -> Option<(usize, &str)>
        ensures value { option_map (λ p. (p.0, p.1.now)) result ≡ yank_exchange self.old }
        ensures* ring { sem 𝓛 (ends_as self.entry (ring_after_turn self.old)) }
    {
        let Action::Yank(count) = self.last_action else {
            return None;
        };
        if self.slots.is_empty() {
            return None;
        }
        if self.index == 0 {
            self.index = self.slots.len() - 1;
        } else {
            self.index -= 1;
        }
        self.last_action = Action::Yank(self.slots[self.index].len());
        Some((count, self.slots[self.index].as_str()))
    }
}

ghost use Rattle.std.specs.Prelude.{◌≡◌, ◌<◌, ◌≤◌, map, [], length, string_bytes, slice_set, slice_index_or, vec_len, OnOk, OnErr};
ghost use Rattle.line_record.specs.Ring.{joined_text, slots_with_text};

/// Joins a text to the text in a slot.
fn join_slot(
    slots: &mut Vec<String>,
    index: usize,
    text: &str,
    mode: Mode,
) -> Result<(), OutOfMemory>
    requires { index < vec_len slots.old }
    ensures len { vec_len slots.new ≡ vec_len slots.old }
    ensures ok { OnOk result (map string_bytes slots.new.items ≡ slice_set
        (map string_bytes slots.old.items) index
        (joined_text mode text.now (slice_index_or (map string_bytes slots.old.items) index []))) }
    ensures kept { OnErr result (map string_bytes slots.new.items ≡ map string_bytes
        slots.old.items) }
{
    join(&mut slots[index], text, mode)
}

/// Joins a text to another.
fn join(slot: &mut String, text: &str, mode: Mode) -> Result<(), OutOfMemory>
    ensures ok { OnOk result (string_bytes slot.new ≡ joined_text mode text.now
        (string_bytes slot.old)) }
    ensures kept { OnErr result (string_bytes slot.new ≡ string_bytes slot.old) }
{
    match mode {
        Mode::Append => slot.push_str(text)?,
        Mode::Prepend => slot.insert_str(0, text)?,
    }
    Ok(())
}

/// Puts a text into a slot, or into a new one after the last.
fn put_slot(
    alloc: Global,
    slots: &mut Vec<String>,
    index: usize,
    text: &str,
) -> Result<(), OutOfMemory>
    requires { index ≤ vec_len slots.old }
    ensures ok { OnOk result (map string_bytes slots.new.items ≡ slots_with_text index text.now
        (map string_bytes slots.old.items)) }
    ensures kept { OnErr result (map string_bytes slots.new.items ≡ map string_bytes
        slots.old.items) }
{
    let text = String::from_str(alloc, text)?;
    if index < slots.len() {
        slots[index] = text;
        return Ok(());
    }
    slots.push(text)?;
    Ok(())
}

impl DeleteListener for KillRing {
    ghost use Rattle.std.specs.Prelude.{◌≡◌};
    ghost use Rattle.line_record.specs.Ring.{ring_step, ring_refuses};

    ghost takes = { λ s e t. t ≡ ring_step e s };

    ghost refuses = { ring_refuses };

    fn start_killing(&mut self) {
        self.killing = true;
    }

    fn delete(
        &mut self,
        alloc: Global,
        _idx: usize,
        text: &str,
        direction: Direction,
    ) -> Result<(), OutOfMemory> {
        if !self.killing {
            return Ok(());
        }
        let mode = match direction {
            Direction::Forward => Mode::Append,
            Direction::Backward => Mode::Prepend,
        };
        self.kill(alloc, text, mode)
    }

    fn stop_killing(&mut self) {
        self.killing = false;
    }
}

/// Is notified of every change, and ignores all except deletions.
impl ChangeListener for KillRing {
    fn insert_char(&mut self, _alloc: Global, _idx: usize, _c: char) -> Result<(), OutOfMemory> {
        Ok(())
    }

    fn insert_str(&mut self, _alloc: Global, _idx: usize, _text: &str) -> Result<(), OutOfMemory> {
        Ok(())
    }

    fn replace(
        &mut self,
        _alloc: Global,
        _idx: usize,
        _removed: &str,
        _added: &str,
    ) -> Result<(), OutOfMemory> {
        Ok(())
    }
}
