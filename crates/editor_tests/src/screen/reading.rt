//! Bytes read as keys, characters and pasted texts.

use line_config::{EditMode, SliceSource, Source};
use line_keys::RawReader;
use line_screen::KeyReader;
use stand_ins::reader_calls::tell_call;
use stand_ins::rows::{Player, rows_hold, trimmed};
use stand_ins::tables::{meant_bytes, parted, pictured_bytes};
use std::alloc::{AllocError, Global};
use std::test::Fail;

// Bytes, and calls of a reader of these bytes, one after the other; their answers. After `then`
// comes what the reader has read ahead: `unbuffer` by itself, `parts` with the bytes that it leaves.
// `+` is for a single Esc that doesn't wait.
const IN_EMACS: &str = "
    ␛a : key key = A-a Eof
    ␛␛[D : key key key = Esc Left Eof
    ␛␛ : key key key = Esc Esc Eof
    ␛␡ : key key = A-Backspace Eof
    ␛éa : key key key = A-é a Eof
    ␛‹c3› : key = NotUtf8
    ab␛‹c3› : key key key = a b NotUtf8
    ␛[200~a␛[201~ : wait key+ paste then parts = PasteStart PasteOutOfPlace PasteOutOfPlace , leaves a␛[201~
    ␛[200~a␛[201~ : wait char then parts = PasteStart PasteOutOfPlace , leaves a␛[201~
    ␛[200~a␛[201~ : wait wait+ then parts = PasteStart PasteOutOfPlace , leaves a␛[201~
    a : paste then parts = PasteOutOfPlace , leaves a
    ‹e2 82›ab : key then parts = NotUtf8 , leaves b
    ␛␛[D : wait+ char char then unbuffer = Esc ␛ [ , keeps none
    ␛␛[D : key+ then unbuffer = Esc , keeps ␛
";

const IN_VI: &str = "
    ␛a : key key key = Esc a Eof
    ␛␛[D : key key key = Esc Left Eof
    ␛éa : key key key key = Esc é a Eof
    ␛‹c3› : key key = Esc NotUtf8
    a␛‹ff› : key key key = a Esc NotUtf8
    ␛␛[D : key then parts = Esc , keeps ␛, leaves [D
    [D : char key wait then parts = [ D Eof , leaves
";

const IN_BOTH: &str = "
    ‹› : key = Eof
    ␛ : key key = Esc Eof
    ␛[ : key = Eof
    ␛[3␍a : key key key = UnknownEscSeq a Eof
    ␛[3éa : key key key = UnknownEscSeq a Eof
    ‹c2 9b› : key key = S-Esc Eof
    é : key key = é Eof
    a␛[201~b␍ : key key key key key = a PasteEnd b Enter Eof
    a␛[9~b␍ : key key key key key = a UnknownEscSeq b Enter Eof
    ␛[200~a␛[201~␍ : key key = PasteStart PasteOutOfPlace
    ab␍␘␛[200~x␛[201~ : key key key key key key = a b Enter C-X PasteStart PasteOutOfPlace
    ab␍‹ff› : key key key key = a b Enter NotUtf8
    ab␛[ : key key key = a b Eof
    ␛O : key = Eof
    ␛[1;5 : key = Eof
    ␛[15 : key = Eof
";

// Overlong forms, surrogates, numbers beyond the last character, and bytes that begin none.
const NO_CHARACTERS: &str = "
    ‹80› : key = NotUtf8
    ‹bf› : key = NotUtf8
    ‹c0 80› : key = NotUtf8
    ‹c1 bf› : key = NotUtf8
    ‹e0 80 80› : key = NotUtf8
    ‹e0 9f bf› : key = NotUtf8
    ‹f0 80 80 80› : key = NotUtf8
    ‹f0 8f bf bf› : key = NotUtf8
    ‹ed a0 80› : key = NotUtf8
    ‹ed bf bf› : key = NotUtf8
    ‹f4 90 80 80› : key = NotUtf8
    ‹f5 80 80 80› : key = NotUtf8
    ‹f8 88 80 80 80› : key = NotUtf8
    ‹fe› : key = NotUtf8
    ‹ff› : key = NotUtf8
    ‹c3›( : key = NotUtf8
    ‹e2 82›( : key = NotUtf8
    ‹f0 9f 98›( : key = NotUtf8
";

// The first and the last characters of each length, and those around the surrogates; and their
// first bytes alone.
const CHARACTERS: &str = "
    ‹00› : char char = ␀ Eof
    ‹7f› : char char = ␡ Eof
    ‹c2 80› : char char = \u{80} Eof
    ‹df bf› : char char = \u{7ff} Eof
    ‹e0 a0 80› : char char = \u{800} Eof
    ‹ed 9f bf› : char char = \u{d7ff} Eof
    ‹ee 80 80› : char char = \u{e000} Eof
    ‹ef bf bf› : char char = \u{ffff} Eof
    ‹f0 90 80 80› : char char = \u{10000} Eof
    ‹f3 bf bf bf› : char char = \u{fffff} Eof
    ‹f4 8f bf bf› : char char = \u{10ffff} Eof
    ‹df bf› : key key = \u{7ff} Eof
    ‹ed 9f bf› : key key = \u{d7ff} Eof
    ‹f4 8f bf bf› : key key = \u{10ffff} Eof
    ‹c2› : char = NotUtf8
    ‹e0› : char = NotUtf8
    ‹ed 9f› : char = NotUtf8
    ‹f0› : char = NotUtf8
    ‹f0 90› : char = NotUtf8
    ‹f4 8f bf› : char = NotUtf8
";

// The text after each PasteStart is read. The last ones end as the bytes do: at their end, or inside
// a character.
const TEXTS: &str = "
    ␛[200~␛[201~␊ : key paste key key = PasteStart  C-J Eof
    ␛[200~a␊b␛[201~␊ : key paste key key = PasteStart a␊b C-J Eof
    ␛[200~a␍␊b␍c␛[201~␊ : key paste key key = PasteStart a␊b␊c C-J Eof
    ␛[200~␍␛[201~␊ : key paste key key = PasteStart ␊ C-J Eof
    ␛[200~␍␊␛[201~␊ : key paste key key = PasteStart ␊ C-J Eof
    ␛[200~␍␍␊␛[201~␊ : key paste key key = PasteStart ␊␊ C-J Eof
    ␛[200~␊␍␛[201~␊ : key paste key key = PasteStart ␊␊ C-J Eof
    ␛[200~␍␛␊␛[201~␊ : key paste key key = PasteStart ␊␛␊ C-J Eof
    ␛[200~␉␛[201~␊ : key paste key key = PasteStart ␉ C-J Eof
    ␛[200~é€␛[201~␊ : key paste key key = PasteStart é€ C-J Eof
    ␛[200~␛␛[201~␊ : key paste key key = PasteStart ␛ C-J Eof
    ␛[200~␛[␛[2␛[20␛[201␛[201~␊ : key paste key key = PasteStart ␛[␛[2␛[20␛[201 C-J Eof
    ␛[200~␛[200~␛[202~␛[201~␊ : key paste key key = PasteStart ␛[200~␛[202~ C-J Eof
    ␛[200~[201~␛[201~␊ : key paste key key = PasteStart [201~ C-J Eof
    ␛[200~a‹ff› : key paste = PasteStart NotUtf8
    ␛[200~a␊b␛[201~␍c␛[200~d␛[201~ : key paste key key key paste key = PasteStart a␊b Enter c PasteStart d Eof
    ␛[200~ : key paste = PasteStart Eof
    ␛[200~a : key paste = PasteStart Eof
    ␛[200~a‹e2› : key paste = PasteStart NotUtf8
    ␛[200~a‹e2 82› : key paste = PasteStart NotUtf8
    ␛[200~a€ : key paste = PasteStart Eof
    ␛[200~a€␍ : key paste = PasteStart Eof
    ␛[200~a€␍␊ : key paste = PasteStart Eof
    ␛[200~a€␍␊␛ : key paste = PasteStart Eof
    ␛[200~a€␍␊␛[20 : key paste = PasteStart Eof
    ␛[200~a€␍␊␛[20␛[201 : key paste = PasteStart Eof
";

// What a reader has read ahead.
fn tell_kept(said: &mut String, kept: Option<u8>) -> Result<(), AllocError> {
    match kept {
        Some(0x1B) => said.push_str(", keeps ␛"),
        Some(byte) => write!(said, ", keeps {byte:x}"),
        None => said.push_str(", keeps none"),
    }
}

// The rest of a source.
fn rest_of<S: Source>(alloc: Global, source: &mut S) -> Result<String, AllocError> {
    let mut bytes = Vec::new(alloc);
    for _ in 0..100 {
        let Ok(Some(byte)) = source.next_byte() else {
            break;
        };
        bytes.push(byte)?;
    }
    pictured_bytes(alloc, &bytes)
}

// Makes a call, and writes its answer.
fn tell_answer<R: RawReader>(
    alloc: Global,
    reader: &mut R,
    call: &str,
    said: &mut String,
) -> Result<(), AllocError> {
    match tell_call(alloc, reader, call, said) {
        Ok(()) => said.push(' '),
        Err(why) => write!(said, "{why:?} "),
    }
}

fn tell_answers<R: RawReader>(
    alloc: Global,
    reader: &mut R,
    calls: &str,
    said: &mut String,
) -> Result<(), AllocError> {
    for call in calls.split_whitespace() {
        tell_answer(alloc, reader, call, said)?;
    }
    Ok(())
}

// The rest of a source, and what was read ahead from it.
fn tell_parts<S: Source>(
    alloc: Global,
    said: &mut String,
    source: &mut S,
    kept: Option<u8>,
) -> Result<(), AllocError> {
    if kept.is_some() {
        tell_kept(said, kept)?;
    }
    let rest = rest_of(alloc, source)?;
    write!(said, ", leaves {rest}")
}

// Writes what a reader leaves, if the last word asks for it.
fn tell_end<S: Source + Drop>(
    alloc: Global,
    reader: KeyReader<S>,
    end: &str,
    said: &mut String,
) -> Result<(), AllocError> {
    match end {
        "unbuffer" => tell_kept(said, reader.unbuffer()),
        "parts" => {
            let (mut source, kept) = reader.into_parts();
            tell_parts(alloc, said, &mut source, kept)
        }
        _ => Ok(()),
    }
}

// Makes the calls, and writes the result.
fn tell_called(
    alloc: Global,
    mode: EditMode,
    bytes: &[u8],
    calls: &str,
    said: &mut String,
) -> Result<(), AllocError> {
    let (answered, end) = parted(calls, " then ");
    let mut reader = KeyReader::new(SliceSource::new(bytes), mode);
    tell_answers(alloc, &mut reader, answered, said)?;
    tell_end(alloc, reader, end, said)
}

/// The answers of calls of a reader of these bytes.
pub(crate) fn called(
    alloc: Global,
    mode: EditMode,
    bytes: &[u8],
    calls: &str,
) -> Result<String, Fail> {
    let mut said = String::new(alloc);
    tell_called(alloc, mode, bytes, calls, &mut said)?;
    trimmed(alloc, said.as_str())
}

/// The answers of a row's calls in a mode.
#[derive(Drop)]
struct Reads {
    mode: EditMode,
}

impl Player for Reads {
    fn play(&mut self, alloc: Global, call: &str) -> Result<String, Fail> {
        let (bytes, calls) = parted(call, " : ");
        let bytes = meant_bytes(alloc, bytes)?;
        called(alloc, self.mode, &bytes, calls)
    }
}

fn read_in(alloc: Global, mode: EditMode, tables: &[&str]) -> Result<(), Fail> {
    let reads = &mut Reads { mode };
    for table in tables {
        rows_hold(alloc, reads, table)?;
    }
    Ok(())
}

#[test]
fn bytes_read_as_keys_and_texts(rt: HostRuntime) -> Result<(), Fail> {
    let both = &[IN_BOTH, NO_CHARACTERS, CHARACTERS, TEXTS];
    read_in(rt.alloc(), EditMode::Emacs, &[IN_EMACS])?;
    read_in(rt.alloc(), EditMode::Vi, &[IN_VI])?;
    read_in(rt.alloc(), EditMode::Emacs, both)?;
    read_in(rt.alloc(), EditMode::Vi, both)
}
