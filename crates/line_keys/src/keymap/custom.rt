//! Custom bindings.

ghost use Rattle.std.specs.Prelude.{◌≡◌, slice_get};

use crate::command::Cmd;
use crate::events::{Event, Keys};
use crate::handler::{Decides, EventContext};
use crate::key::KeyEvent;
use crate::keymap::InputState;
use crate::keymap::count::SignedCount;
use crate::refresh::Refresher;
use crate::tty::RawReader;
use line_config::ReadlineError;
use std::alloc::Global;

/// The result of a sequence of keys.
#[derive(Drop)]
pub enum Followed {
    /// It is bound to this command.
    Bound(Cmd),
    /// It isn't bound. Its second key was this, if one was read.
    Unbound(Option<KeyEvent>),
}

impl<D: Decides> InputState<'_, D> {
    ghost use Rattle.line_keys.specs.InputStates.{DecidesIn, FollowsIn};
    ghost use Rattle.line_keys.specs.CustomKeys.{custom_answer, sequence_answer, handler_arguments_for, key_sequence};
    ghost use Rattle.line_keys.specs.CustomBindings.{answer_by};
    ghost use Rattle.line_keys.specs.CustomKeys.{or_any};
    ghost use Rattle.line_keys.specs.Events.{single};
    ghost use Rattle.line_keys.specs.Requests.{AsksInOrder, IsKey};
    ghost use Rattle.std.specs.Prelude.{true};

    /// The command of the key's own binding, or of the binding of any key.
    pub(crate) fn custom_binding<W: Refresher>(
        &self,
        alloc: Global,
        wrt: &W,
        key: KeyEvent,
        count: SignedCount,
    ) -> Result<Option<Cmd>, ReadlineError>
        ensures { DecidesIn (λ s. custom_answer s key)
            self.now D.decides (W.display.shown wrt.now) count result }
    {
        if self.custom_bindings.is_empty() {
            return Ok(None);
        }
        self.bound_key(alloc, wrt, key, count)
    }

    /// The same, looked up in the bindings. Not inlined, so that a key costs little if there are
    /// none.
    #[inline(never)]
    fn bound_key<W: Refresher>(
        &self,
        alloc: Global,
        wrt: &W,
        key: KeyEvent,
        count: SignedCount,
    ) -> Result<Option<Cmd>, ReadlineError>
        ensures { DecidesIn (λ s. custom_answer s key)
            self.now D.decides (W.display.shown wrt.now) count result }
    {
        match self.custom_bindings.entry_of(key) {
            Some((event, handler)) => self.decided(alloc, wrt, handler, event, count),
            None => self.any_binding(alloc, wrt, key, count),
        }
    }

    /// The command of the binding of any key, for which the key's event is built.
    fn any_binding<W: Refresher>(
        &self,
        alloc: Global,
        wrt: &W,
        key: KeyEvent,
        count: SignedCount,
    ) -> Result<Option<Cmd>, ReadlineError>
        ensures { DecidesIn (λ s. answer_by (or_any s.custom None)
            (handler_arguments_for s (single key)))
            self.now D.decides (W.display.shown wrt.now) count result }
    {
        match self.custom_bindings.get(&Event::Any) {
            Some(handler) => {
                let event = Event::from_key(alloc, key)?;
                self.decided(alloc, wrt, handler, &event, count)
            }
            None => Ok(None),
        }
    }

    /// A handler's answer to an event.
    fn decided<W: Refresher>(
        &self,
        alloc: Global,
        wrt: &W,
        handler: &D,
        event: &Event,
        count: SignedCount,
    ) -> Result<Option<Cmd>, ReadlineError>
        ensures { DecidesIn (λ s. D.decides handler.now (handler_arguments_for s event.now))
            self.now D.decides (W.display.shown wrt.now) count result }
    {
        let ctx = EventContext::new(self.mode, self.input_mode, wrt);
        handler.decide(alloc, event, count.n, count.positive, &ctx)
    }

    /// The command bound to a sequence of keys that starts with this key. As long as a bound
    /// sequence starts with the keys so far, or equals them, one more key is read.
    pub(crate) fn custom_seq_binding<R: RawReader, W: Refresher>(
        &self,
        alloc: Global,
        rdr: &mut R,
        wrt: &W,
        key: KeyEvent,
        count: SignedCount,
    ) -> Result<Followed, ReadlineError>
        ensures phrase { FollowsIn (λ s. key_sequence s key) self.now D.decides W.display wrt.now
            count (R.feed rdr.old) (R.feed rdr.new) result }
        ensures asks { AsksInOrder R.asked (IsKey true) rdr.old rdr.new }
    {
        if !self.custom_bindings.begins(&[key]) {
            return Ok(Followed::Unbound(None));
        }
        let mut keys = Vec::new(alloc);
        keys.push(key)?;
        while self.custom_bindings.begins(keys.as_slice()) {
            let key = rdr.next_key(true)?;
            keys.push(key)?;
            if let Some(cmd) = self.sequence_command(alloc, wrt, keys.as_slice(), count)? {
                return Ok(Followed::Bound(cmd));
            }
        }
        let second = second_of(keys.as_slice());
        Ok(Followed::Unbound(second))
    }

    /// The command bound to exactly these keys.
    fn sequence_command<W: Refresher>(
        &self,
        alloc: Global,
        wrt: &W,
        keys: &[KeyEvent],
        count: SignedCount,
    ) -> Result<Option<Cmd>, ReadlineError>
        ensures { DecidesIn (λ s. sequence_answer s keys.now)
            self.now D.decides (W.display.shown wrt.now) count result }
    {
        let event = Event::KeySeq(Keys::try_from_slice(alloc, keys)?);
        match self.custom_bindings.get(&event) {
            Some(handler) => self.decided(alloc, wrt, handler, &event, count),
            None => Ok(None),
        }
    }
}

fn second_of(keys: &[KeyEvent]) -> Option<KeyEvent>
    ensures { result ≡ slice_get keys.now 1 }
{
    keys.get(1).copied()
}
