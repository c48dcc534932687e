//! Laws of the definitions. Each is the contract of a function that does nothing.
#![tactic(auto, using(crate::proofs::Steps::key_equality, crate::proofs::Steps::event_equality, crate::proofs::Settling::phrase_settles, crate::proofs::QuotedKeys::quoted_as_sent))]

ghost use Rattle.std.specs.Prelude.{◌≡◌, ◌↔◌, IsTrue};
ghost use Rattle.line_keys.specs.declared.key.KeyEvent.{KeyEvent};
ghost use Rattle.line_keys.specs.declared.events.Event.{Event};
ghost use Rattle.std.specs.Prelude.{ℕ, true};
ghost use Rattle.line_keys.specs.CustomBindings.{Custom};
ghost use Rattle.line_keys.specs.InputStates.{phrase};
ghost use Rattle.line_keys.specs.PhraseScripts.{Input, steps, Settles};
ghost use Rattle.line_keys.specs.Refreshing.{Shown};
ghost use Rattle.line_keys.specs.Common.{QuotedAsSent};

use crate::events::Event;
use crate::key::KeyEvent;
use std::hash::Hash;

/// `==` holds if and only if the keys are the same, and then they have the same hash.
pub fn key_equality()
    ensures values { (a b : KeyEvent) → IsTrue (⟦<KeyEvent as PartialEq>⟧.eq a b) ↔ (a ≡ b) }
    ensures hash { (a b : KeyEvent) → IsTrue (⟦<KeyEvent as PartialEq>⟧.eq a b)
        → ⟦<KeyEvent as Hash>⟧.hash_input a ≡ ⟦<KeyEvent as Hash>⟧.hash_input b }
{}

/// `==` holds if and only if the events are the same, and then they have the same hash.
pub fn event_equality()
    ensures values { (a b : Event) → IsTrue (⟦<Event as PartialEq>⟧.eq a b) ↔ (a ≡ b) }
    ensures hash { (a b : Event) → IsTrue (⟦<Event as PartialEq>⟧.eq a b)
        → ⟦<Event as Hash>⟧.hash_input a ≡ ⟦<Event as Hash>⟧.hash_input b }
{}

/// After a phrase that gives a command the session's own prompt is shown again: the prompt of a
/// count is replaced.
pub fn phrases_settle()
    ensures { (custom : Custom) (input : Input) (shown : Shown) (n : ℕ)
        → Settles true (steps (phrase custom input shown) n) }
{}

/// A quoted key inserts the character that it was sent as. U+0008 comes as the key Backspace, of
/// which U+007F is inserted; the control characters from U+0080 on come as one key, and insert
/// nothing.
pub fn quoted_keys_are_as_sent()
    ensures { QuotedAsSent }
{}
