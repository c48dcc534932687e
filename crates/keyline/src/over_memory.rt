//! A whole session over memory.

ghost use Rattle.std.specs.Prelude.{◌≡◌, ◌⊎◌, ◌≤◌, [], Err, IfErr, IfOk, false};
ghost use Rattle.line_config.specs.Feed.{fresh_feed};
ghost use Rattle.line_config.specs.declared.device.Last.TheVariants.{End};
ghost use Rattle.line_config.specs.declared.errors.ReadlineError.TheVariants.{Memory};
ghost use Rattle.line_keys.specs.CustomBindings.{custom_of};
ghost use Rattle.line_screen.specs.Reading.{with_kept};
ghost use Rattle.keyline.specs.Program.{given_over, start_by, word_texts};
ghost use Rattle.keyline.specs.SessionCalls.{loads};
ghost use Rattle.keyline.specs.Transcripts.{Transcribes, is_cut, word_helper};

use crate::edit_helper::EditHelper;
use crate::ending::Ending;
use crate::program::helper_with;
use crate::session::{Ended, Session};
use line_config::{Config, ReadlineError, Sink, SliceSource, Source, VecSink};
use line_help::Span;
use line_keys::{Decides, EventMap};
use std::alloc::{AllocError, Global};

/// The result of a session.
#[derive(Drop)]
pub struct Transcript {
    /// The accepted lines, each with a newline.
    pub lines: Vec<u8>,
    /// The bytes sent to the display.
    pub display: Vec<u8>,
    /// The history's text to save; empty if no entry is new.
    pub history: Vec<u8>,
    pub ending: Ending,
    /// The bytes of the keys that were not read, as after Ctrl-C.
    pub unread: Vec<u8>,
}

/// These words complete the word before the cursor. The prompt has no styles.
fn helper_by<'s>(words: Option<Vec<String>>, none: &'s [Span]) -> Option<EditHelper<'s>>
    requires { none.now ≡ [] }
    ensures { result ≡ word_helper (word_texts words) }
{
    if words.is_none() {
        return None;
    }
    Some(helper_with(words, none, false))
}

/// Whether a device or a lack of memory ended a session, and not its keys.
fn is_cut(ending: Ending) -> bool
    ensures { result ≡ is_cut ending }
{
    !matches!(
        ending,
        Ending::Eof
            | Ending::Interrupted
            | Ending::NotUtf8
            | Ending::PasteOutOfPlace
            | Ending::Handler
    )
}

/// The byte that was read ahead, and the rest of the source.
fn unread_of<'k>(
    alloc: Global,
    ahead: Option<u8>,
    source: &SliceSource<'k>,
) -> Result<Vec<u8>, AllocError>
    ensures { IfOk result (λ bytes.
        bytes.items ≡ (with_kept ahead (⟦<SliceSource<'k> as Source>⟧.feed source.now)).coming) }
{
    let mut bytes = Vec::new(alloc);
    if let Some(byte) = ahead {
        bytes.push(byte)?;
    }
    bytes.extend_from_slice(source.buffer())?;
    Ok(bytes)
}

/// Runs a session on these keys and this history text, over memory. Returns what it writes, draws
/// and saves, how it ends and what it leaves unread, as the definition of a session says. Tab
/// completes the given words.
///
/// Fails only if memory runs out, or if the history text isn't UTF-8.
pub fn transcribe<B: Decides>(
    alloc: Global,
    config: Config,
    words: Option<Vec<String>>,
    bindings: EventMap<B>,
    prompt: &str,
    columns: u16,
    history: &[u8],
    keys: &[u8],
) -> Result<Transcript, ReadlineError>
    requires { (2 ≤ columns) × (columns ≤ 1000) }
    ensures session { IfOk result (Transcribes
        (given_over config (custom_of bindings B.decides) prompt.now columns
        (word_helper (word_texts words)))
        (start_by config history.now keys.now End) keys.now) }
    ensures refused { IfErr result (λ why. (why ≡ Memory)
        ⊎ (loads config (fresh_feed history.now End) ≡ Err why)) }
{
    let no_styles = Vec::new(alloc);
    let session = Session::open(
        alloc,
        config,
        bindings,
        SliceSource::new(history),
        helper_by(words, no_styles.as_slice()),
        prompt,
        SliceSource::new(keys),
        columns,
        VecSink::new(alloc),
        VecSink::new(alloc),
        VecSink::new(alloc),
    )?;
    let ended = session.run();
    if is_cut(ended.ending) || ended.text.failed() {
        return Err(ReadlineError::Memory);
    }
    let unread = unread_of(alloc, ended.ahead, &ended.source)?;
    Ok(Transcript {
        lines: ended.lines.into_bytes(),
        display: ended.display.into_bytes(),
        history: ended.text.into_bytes(),
        ending: ended.ending,
        unread,
    })
}
