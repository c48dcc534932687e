//! A kill ring as one text for all slots, with the place at which each slot ends.

ghost use Rattle.std.specs.Prelude.{[], ◌≡◌, ◌≢◌, ◌↔◌, IsTrue, IfOk, MatchResult, option_copied};
ghost use Rattle.keyline_call.specs.Slots.{AreSlots, HasRing, IsRingOf, SlotMeans};
ghost use Rattle.keyline_call.specs.declared.status.CallStatus.TheVariants.{Memory};

use crate::status::CallStatus;
use keyline::KILL_RING_SIZE;
use line_buffer::OutOfMemory;
use line_record::KillRing;
use std::alloc::Global;

/// A ring's texts, the ends of its slots in them, and the current slot.
#[derive(Drop)]
pub(crate) struct Slots {
    pub(crate) texts: Vec<u8>,
    pub(crate) ends: Vec<usize>,
    pub(crate) place: usize,
}

/// The slots of a ring.
pub(crate) fn slots_of(alloc: Global, ring: &KillRing) -> Result<Slots, CallStatus>
    ensures { MatchResult result (AreSlots ring.now)
        (λ e. (e ≡ Memory) × (ring.now.slots ≢ [])) }
{
    let slots = ring.texts();
    let mut texts = Vec::new(alloc);
    let mut ends = Vec::new(alloc);
    for text in slots {
        texts.extend_from_slice(text.as_bytes())?;
        ends.push(texts.len())?;
    }
    Ok(Slots {
        texts,
        ends,
        place: ring.place(),
    })
}

/// The text of a slot, if there is one.
fn slot_text<'t>(texts: &'t [u8], start: usize, end: usize) -> Option<&'t str>
    ensures { SlotMeans texts.entry.now start end (option_copied result) }
{
    str::from_utf8(texts.get(start..end)?).ok()
}

/// Whether a ring has these slots, and one of them at this place. Allocates nothing.
pub(crate) fn is_ring(texts: &[u8], ends: &[usize], place: usize) -> bool
    ensures { IsTrue result ↔ HasRing texts.now ends.now place }
{
    if ends.len() > KILL_RING_SIZE {
        return false;
    }
    if place > ends.len().saturating_sub(1) {
        return false;
    }
    let mut start = 0;
    for &end in ends {
        let Some(_text) = slot_text(texts, start, end) else {
            return false;
        };
        start = end;
    }
    start == texts.len()
}

/// The ring of these slots, without a preceding kill.
pub(crate) fn ring_of(
    alloc: Global,
    texts: &[u8],
    ends: &[usize],
    place: usize,
) -> Result<KillRing, OutOfMemory>
    requires { HasRing texts.now ends.now place }
    ensures { IfOk result (IsRingOf texts.now ends.now place) }
{
    let mut slots = Vec::with_capacity(alloc, KILL_RING_SIZE)?;
    let mut start = 0;
    for &end in ends {
        let text = slot_text(texts, start, end).unwrap();
        slots.push(String::from_str(alloc, text)?)?;
        start = end;
    }
    Ok(KillRing::from_slots(slots, KILL_RING_SIZE, place))
}
