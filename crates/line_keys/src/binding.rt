//! Bindings of events.

ghost use Rattle.std.specs.Prelude.{◌≡◌, ◌↔◌, ◌++◌, List, IsTrue, IsSome, IfOk, IfErr, IfSome, OnOk, OnErr, MatchResult, [], option_copied, option_map, position};
ghost use Rattle.line_keys.specs.declared.key.KeyEvent.{KeyEvent};
ghost use Rattle.line_keys.specs.declared.events.Event.{Event};
ghost use Rattle.line_keys.specs.declared.events.Event.TheVariants.{KeySeq};
ghost use Rattle.line_keys.specs.Events.{find, has_event, begins, map_with, IsMap, IsNormal};
ghost use Rattle.line_keys.specs.Events.{normal_event, single};

use crate::events::Event;
use crate::handler::EventHandler;
use crate::key::KeyEvent;
use line_config::ReadlineError;
use std::alloc::Global;
use std::marker::Model;
use std::mem;

/// The bindings of key sequences and other events.
pub type Bindings = EventMap<EventHandler>;

/// Events, each bound to at most one thing.
///
/// An event is bound in its normal form, but looked up as given. Contracts see the pairs in the
/// order in which the events were bound.
#[derive(Drop)]
pub struct EventMap<H> {
    entries: Vec<(Event, H)>,
}

impl<H> Model for EventMap<H> {
    ghost use Rattle.std.specs.Prelude.{List};
    ghost use Rattle.line_keys.specs.declared.events.Event.{Event};
    ghost use Rattle.line_keys.specs.Events.{IsMap};

    ghost Value = { List (Event × H) };

    ghost view = { λ m. m.entries.items };

    ghost invariant = { λ m. IsMap m.entries.items };
}

impl<H: Drop> EventMap<H> {
    /// An empty map.
    pub fn new(alloc: Global) -> Result<Self, ReadlineError>
        ensures { MatchResult result (λ b. b ≡ []) (λ _. ⊥) }
    {
        Ok(EventMap {
            entries: Vec::new(alloc),
        })
    }

    /// Whether nothing is bound.
    pub(crate) fn is_empty(&self) -> bool
        ensures { IsTrue result ↔ (self.now ≡ []) }
    {
        self.entries.is_empty()
    }

    /// Binds an event in its normal form, and returns its old binding. Only an event that isn't
    /// bound yet takes memory; if the allocation fails, nothing changes.
    pub fn bind_sequence(&mut self, event: Event, handler: H) -> Result<Option<H>, ReadlineError>
        ensures old { IfOk result (λ old. old ≡ find (normal_event event) self.old) }
        ensures bound { let before = λ (o : Event). find o self.old in
            OnOk result ((e : Event)
            → find e self.new ≡ map_with (normal_event event) (Some handler) before e) }
        ensures refused { IfErr result (λ e. (e ≡ ReadlineError.Memory)
            × (find (normal_event event) self.old ≡ None)) }
        ensures kept { OnErr result (self.new ≡ self.old) }
    {
        bind_in(&mut self.entries, event.normalize(), handler)
    }

    /// Removes the binding of an event's normal form, and returns it.
    pub fn unbind_sequence(&mut self, event: Event) -> Option<H>
        ensures old { result ≡ find (normal_event event) self.old }
        ensures unbound { let before = λ (o : Event). find o self.old in
            (e : Event) → find e self.new ≡ map_with (normal_event event) None before e }
    {
        unbind_in(&mut self.entries, event.normalize())
    }

    /// The binding of an event.
    #[tactic(auto, using(crate::proofs::Places::found_at, crate::proofs::Places::found_nowhere))]
    pub fn get(&self, event: &Event) -> Option<&H>
        ensures found { option_copied result ≡ find event.now self.now }
        ensures normal { IsSome (find event.now self.now) → IsNormal event.now }
    {
        match place(self.entries.as_slice(), event) {
            Some(i) => Some(&self.entries[i].1),
            None => None,
        }
    }

    /// The binding of one key, with its event, which needn't be built for the lookup.
    #[tactic(auto, using(crate::proofs::Steps::entry))]
    pub(crate) fn entry_of(&self, key: KeyEvent) -> Option<&(Event, H)>
        ensures found { option_map (λ b. b.1) (option_copied result) ≡ find (single key) self.now }
        ensures event { IfSome (option_copied result) (λ b. b.0 ≡ single key) }
    {
        match place_of_key(self.entries.as_slice(), key) {
            Some(i) => Some(&self.entries[i]),
            None => None,
        }
    }

    /// Whether a bound sequence starts with these keys, or equals them.
    pub fn begins(&self, keys: &[KeyEvent]) -> bool
        ensures value { result ≡ begins keys.now self.now }
        ensures bound { IsTrue result
            ↔ ((rest : List KeyEvent) × IsSome (find (KeySeq (keys.now ++ rest)) self.now)) }
    {
        self.some_begins(keys)
    }

    /// Whether the event of some entry starts with these keys.
    fn some_begins(&self, keys: &[KeyEvent]) -> bool
        ensures { result ≡ begins keys.now self.now }
    {
        self.entries.iter().any(|b| b.0.begins_with(keys))
    }
}

/// The index of an event.
fn place<H>(entries: &[(Event, H)], event: &Event) -> Option<usize>
    ensures { result ≡ position (has_event event.now) entries.now }
{
    entries.iter().position(|b| b.0 == *event)
}

/// The index of a key's event.
fn place_of_key<H>(entries: &[(Event, H)], key: KeyEvent) -> Option<usize>
    ensures { result ≡ position (has_event (single key)) entries.now }
{
    entries.iter().position(|b| b.0.is_key(key))
}

/// Binds an event, and returns its old binding.
fn bind_in<H: Drop>(
    entries: &mut Vec<(Event, H)>,
    event: Event,
    handler: H,
) -> Result<Option<H>, ReadlineError>
    ensures old { IfOk result (λ old. old ≡ find event entries.old.items) }
    ensures bound { let before = λ (o : Event). find o entries.old.items in
        OnOk result ((e : Event)
        → find e entries.new.items ≡ map_with event (Some handler) before e) }
    ensures refused { IfErr result (λ e. (e ≡ ReadlineError.Memory)
        × (find event entries.old.items ≡ None)) }
    ensures kept { OnErr result (entries.new.items ≡ entries.old.items) }
    ensures map { IsNormal event → IsMap entries.old.items → IsMap entries.new.items }
{
    match place(entries.as_slice(), &event) {
        Some(i) => {
            let bound = &mut entries[i].1;
            Ok(Some(mem::replace(bound, handler)))
        }
        None => {
            entries.push((event, handler))?;
            Ok(None)
        }
    }
}

/// Removes the binding of an event, and returns it.
fn unbind_in<H: Drop>(entries: &mut Vec<(Event, H)>, event: Event) -> Option<H>
    ensures old { result ≡ find event entries.old.items }
    ensures unbound { let before = λ (o : Event). find o entries.old.items in
        IsMap entries.old.items
        → (e : Event) → find e entries.new.items ≡ map_with event None before e }
    ensures map { IsMap entries.old.items → IsMap entries.new.items }
{
    match place(entries.as_slice(), &event) {
        Some(i) => {
            let (_, handler) = entries.remove(i);
            Some(handler)
        }
        None => None,
    }
}
