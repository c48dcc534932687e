//! Keys of the caller's own. If one is typed, the line stops there.

ghost use Rattle.std.specs.Prelude.{[], ◌∷◌, ◌++◌, ◌≡◌, ◌≢◌, ◌<◌, ◌||◌, IfSome, MatchResult, is_some, length, option_map, position};
ghost use Rattle.line_keys.specs.Events.{find};
ghost use Rattle.line_keys.specs.declared.events.Event.{Event};
ghost use Rattle.keyline_call.specs.Asks.{AreAsked, is_zero, keys_in, names, none_more, rows_of};
ghost use Rattle.keyline_call.specs.declared.status.CallStatus.TheVariants.{Memory};

use crate::status::CallStatus;
use keyline::{EditMode, ReadlineError, SliceSource};
use line_buffer::RepeatCount;
use line_keys::{Cmd, Decides, Event, EventContext, EventMap, KeyEvent, Keys, RawReader};
use line_screen::KeyReader;
use std::alloc::Global;

/// The binding of a key of the caller's own: no command comes of it.
#[derive(Drop)]
pub(crate) struct Asking;

impl Decides for Asking {
    ghost use Rattle.keyline_call.specs.Asks.{stops_at};

    ghost decides = { stops_at };

    fn decide(
        &self,
        _alloc: Global,
        _evt: &Event,
        _n: RepeatCount,
        _positive: bool,
        _ctx: &EventContext<'_>,
    ) -> Result<Option<Cmd>, ReadlineError> {
        Err(ReadlineError::Handler)
    }
}

/// The keys of a row whose reading ended so; `None` if that isn't its end.
fn ended(why: ReadlineError, keys: Vec<KeyEvent>) -> Option<Vec<KeyEvent>>
    ensures { option_map (λ v. v.items) result
        ≡ option_map (λ more. keys.items ++ more) (none_more why) }
{
    match why {
        ReadlineError::Eof => Some(keys),
        _ => None,
    }
}

/// The keys of a row; `None` if it isn't keys alone.
fn keys_in(alloc: Global, mode: EditMode, row: &[u8]) -> Result<Option<Vec<KeyEvent>>, CallStatus>
    ensures { MatchResult result (λ keys. option_map (λ v. v.items) keys ≡ keys_in mode row.now)
        (λ e. e ≡ Memory) }
{
    let mut reader = KeyReader::new(SliceSource::new(row), mode);
    let mut keys = Vec::new(alloc);
    loop {
        match reader.next_key(false) {
            Ok(key) => keys.push(key)?,
            Err(why) => return Ok(ended(why, keys)),
        }
    }
}

/// Binds the keys of a row.
fn bind_row(
    alloc: Global,
    mode: EditMode,
    row: &[u8],
    bindings: &mut EventMap<Asking>,
) -> Result<(), CallStatus>
    ensures { MatchResult result (λ _. (e : Event) → is_some (find e bindings.new)
        ≡ (names mode e row.now || is_some (find e bindings.old))) (λ e. e ≡ Memory) }
{
    if let Some(keys) = keys_in(alloc, mode, row)? {
        let _old = bindings.bind_sequence(Event::KeySeq(Keys::from(keys)), Asking)?;
    }
    Ok(())
}

/// The place of the first zero.
fn zero_in(text: &[u8]) -> Option<usize>
    ensures place { result ≡ position is_zero text.now }
    ensures inside { IfSome result (λ at. at < length text.now) }
{
    text.iter().position(|byte| *byte == 0)
}

/// The first row of a text, up to a zero or the end, and what follows it.
fn cut_row(text: &[u8]) -> (&[u8], &[u8])
    requires { text.now ≢ [] }
    ensures rows { rows_of text.now ≡ result.0.now ∷ rows_of result.1.now }
    ensures falls { length result.1.now < length text.now }
{
    match zero_in(text) {
        Some(at) => (&text[..at], &text[at + 1..]),
        None => (text, &[]),
    }
}

/// The keys that a text names, each sequence as it is sent, with a zero after it. A sequence that
/// isn't whole keys is left out.
pub(crate) fn bindings_of(
    alloc: Global,
    mode: EditMode,
    text: &[u8],
) -> Result<EventMap<Asking>, CallStatus>
    ensures { MatchResult result (AreAsked mode text.now) (λ e. (e ≡ Memory) × (text.now ≢ [])) }
{
    let mut bindings = EventMap::new(alloc)?;
    let mut rest = text;
    while !rest.is_empty() {
        let (row, more) = cut_row(rest);
        bind_row(alloc, mode, row, &mut bindings)?;
        rest = more;
    }
    Ok(bindings)
}
