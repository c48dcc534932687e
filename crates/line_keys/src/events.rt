//! What can be bound: a sequence of keys, or any key.

ghost use Rattle.std.specs.Prelude.{◌≡◌, List, [], ◌∷◌, slice_get, option_copied, map};
ghost use Rattle.line_config.specs.Refusals.{OrMemory};
ghost use Rattle.line_keys.specs.declared.key.KeyEvent.{KeyEvent};
ghost use Rattle.line_keys.specs.Keys.{normal};

use crate::key::KeyEvent;
use line_config::ReadlineError;
use std::alloc::Global;
use std::fmt;
use std::hash::{Hash, Hasher};
use std::marker::Model;

/// A sequence of keys. It is converted from a `Vec` and back without an allocation.
#[derive(Drop)]
pub struct Keys {
    inner: Vec<KeyEvent>,
}

impl Model for Keys {
    ghost use Rattle.std.specs.Prelude.{List};
    ghost use Rattle.line_keys.specs.declared.key.KeyEvent.{KeyEvent};

    ghost Value = { List KeyEvent };

    ghost view = { λ k. k.inner.items };
}

impl Keys {
    /// A copy of `keys`.
    pub fn try_from_slice(alloc: Global, keys: &[KeyEvent]) -> Result<Self, ReadlineError>
        ensures { OrMemory result (λ k. k ≡ keys.now) }
    {
        let inner = keys.to_vec(alloc)?;
        Ok(Keys { inner })
    }

    /// A copy of the keys.
    pub fn try_clone(&self, alloc: Global) -> Result<Self, ReadlineError>
        ensures { OrMemory result (λ k. k ≡ self.now) }
    {
        Keys::try_from_slice(alloc, self.as_slice())
    }

    /// The keys, borrowed.
    pub fn as_slice(&self) -> &[KeyEvent]
        ensures { result.now ≡ self.now }
    {
        self.inner.as_slice()
    }

    /// The keys, without a copy.
    pub fn into_vec(self) -> Vec<KeyEvent>
        ensures { result.items ≡ self }
    {
        self.inner
    }

    /// Each key in the normal form of bindings.
    pub fn normalize(self) -> Self
        ensures { result ≡ map normal self }
    {
        let mut inner = self.inner;
        for key in inner.iter_mut() {
            *key = KeyEvent::normalize(*key);
        }
        Keys { inner }
    }
}

impl From<Vec<KeyEvent>> for Keys {
    ghost from_gives = { λ v k. k ≡ v.items };

    fn from(inner: Vec<KeyEvent>) -> Self {
        Keys { inner }
    }
}

impl PartialEq for Keys {
    ghost use Rattle.std.specs.Cmp.{partial_equiv_from_equiv};
    ghost use Rattle.std.specs.Cmp.Lexicographic.{pointwise, lists_equiv};
    ghost use Rattle.line_keys.specs.Keys.{same_key};
    ghost use Rattle.line_keys.specs.contracts.key.KeyEventEq.TheImpl.Laws.{laws-law};

    ghost eq = { pointwise same_key };

    ghost laws = { partial_equiv_from_equiv (lists_equiv laws-law) };

    fn eq(&self, other: &Keys) -> bool {
        self.as_slice() == other.as_slice()
    }
}

impl Eq for Keys {
    ghost use Rattle.std.specs.Cmp.Lexicographic.{lists_equiv};
    ghost use Rattle.line_keys.specs.contracts.key.KeyEventEq.TheImpl.Laws.{laws-law};

    ghost laws = { lists_equiv laws-law };
}

impl Hash for Keys {
    ghost use Rattle.std.specs.Hash as fed;
    ghost use Rattle.std.specs.Hash.{items_Alike};
    ghost use Rattle.line_keys.specs.contracts.key.KeyEventHash.TheImpl.Laws.{respects_eq-law};

    ghost hash_input = { fed.slice ⟦<KeyEvent as Hash>⟧.hash_input };

    ghost respects_eq = { (items_Alike (record { fed = respects_eq-law })).fed };

    fn hash<H: Hasher>(&self, state: &mut H) {
        self.as_slice().hash(state);
    }
}

impl fmt::Debug for Keys {
    fn fmt<W: fmt::Write>(&self, f: &mut fmt::Formatter<W>) -> fmt::Result {
        fmt::Debug::fmt(self.as_slice(), f)
    }
}

/// An event that can be bound.
#[derive(Debug, PartialEq, Eq, Hash, Drop)]
pub enum Event {
    /// Any single key that isn't bound itself.
    Any,
    /// Keys, one after the other.
    KeySeq(Keys),
    /// A mouse event, which no terminal sends here.
    Mouse(),
}

impl Event {
    ghost use Rattle.line_keys.specs.Events.{begins_with, key_number, normal_event, single};
    ghost use Rattle.line_keys.specs.Events.{same_event};

    /// The event of one key.
    pub fn from_key(alloc: Global, key: KeyEvent) -> Result<Self, ReadlineError>
        ensures { OrMemory result (λ e. e ≡ single key) }
    {
        let keys = Keys::try_from_slice(alloc, &[key])?;
        Ok(Event::KeySeq(keys))
    }

    /// A copy of the event.
    pub fn try_clone(&self, alloc: Global) -> Result<Self, ReadlineError>
        ensures { OrMemory result (λ e. e ≡ self.now) }
    {
        match self {
            Event::Any => Ok(Event::Any),
            Event::KeySeq(keys) => Ok(Event::KeySeq(keys.try_clone(alloc)?)),
            Event::Mouse() => Ok(Event::Mouse()),
        }
    }

    /// The key with index `i`.
    pub fn get(&self, i: usize) -> Option<&KeyEvent>
        ensures { option_copied result ≡ key_number self.now i }
    {
        match self {
            Event::KeySeq(keys) => keys.as_slice().get(i),
            _ => None,
        }
    }

    /// Whether the event is this single key.
    pub(crate) fn is_key(&self, key: KeyEvent) -> bool
        ensures { result ≡ same_event self.now (single key) }
    {
        match self {
            Event::KeySeq(keys) => keys.as_slice() == [key].as_slice(),
            _ => false,
        }
    }

    /// Whether the event is a sequence that starts with these keys, or equals them.
    pub(crate) fn begins_with(&self, keys: &[KeyEvent]) -> bool
        ensures { result ≡ begins_with keys.now self.now }
    {
        match self {
            Event::KeySeq(sequence) => sequence.as_slice().starts_with(keys),
            _ => false,
        }
    }

    /// The event in the normal form of bindings: each key as `KeyEvent::normalize` returns it.
    pub fn normalize(self) -> Self
        ensures { result ≡ normal_event self }
    {
        match self {
            Event::KeySeq(keys) => Event::KeySeq(keys.normalize()),
            other => other,
        }
    }
}
