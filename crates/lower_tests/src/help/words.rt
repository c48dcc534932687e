//! Words: completion with them, and how they are read from a text.

use crate::help::asks::Ask;
use crate::help::completion::completed;
use crate::help::history::write_entry;
use crate::help::resuming::{ENDS, words_counted};
use line_config::{ReadlineError, SliceSource};
use line_help::{Completer, WholeWordCompleter, WordCompleter, load_words};
use stand_ins::rows::{Player, raised, rows_hold, stands};
use stand_ins::tables::{meant_bytes, word_and_rest, words_in};
use std::alloc::{AllocError, Global};
use std::test::Fail;

/// A completer with the words of a text, separated by spaces.
pub(crate) fn completer_of(alloc: Global, text: &str) -> Result<WordCompleter, AllocError> {
    Ok(WordCompleter::new(words_in(alloc, text, ' ')?))
}

const LISTED: &str = "alpha alpine twin twin été étoile e\u{301}a eb 漢字 al";

// A line with the cursor; where the word begins, the candidates in their order, and their common
// prefix.
const BY_WORDS: &str = "
    al|             = |al; alpha→alpha; alpine→alpine; al→al, all with al
    alp|            = |alp; alpha→alpha; alpine→alpine, all with alp
    alpha|          = |alpha; alpha→alpha, all with alpha
    alphas|         = |alphas
    x alp|ha y      = x |alpha y; alpha→alpha; alpine→alpine, all with alp
    tw|             = |tw; twin→twin; twin→twin, all with twin
    ét|             = |ét; été→été; étoile→étoile, all with ét
    été é|t         = été |ét; été→été; étoile→étoile, all with ét
    e|              = |e; e\u{301}a→e\u{301}a; eb→eb, all with e
    a␉漢|            = a␉|漢; 漢字→漢字, all with 漢字
    a\u{3000}tw|    = a\u{3000}|tw; twin→twin; twin→twin, all with twin
    a␊al|p          = a␊|alp; alpha→alpha; alpine→alpine; al→al, all with al
    a'alp|          = |a'alp
    x |             = x |; alpha→alpha; alpine→alpine; twin→twin; twin→twin; été→été; étoile→étoile; e\u{301}a→e\u{301}a; eb→eb; 漢字→漢字; al→al
";

/// A completer that gets each row's line.
#[derive(Drop)]
struct Asked<C> {
    completer: C,
}

impl<C: Completer> Player for Asked<C> {
    fn play(&mut self, alloc: Global, line: &str) -> Result<String, Fail> {
        raised(completed(alloc, &self.completer, line))
    }
}

// The same by whole words, which a space ends.
const BY_WHOLE_WORDS: &str = "
    alp|            = |alp; alpha→alpha; alpine→alpine, all with alp
    alpha|          = |alpha; alpha→alpha, all with alpha, alone \"alpha \"
    x alpi|ha y     = x |alpiha y; alpine→alpine, all with alpine, alone \"alpine \"
    été é|t         = été |ét; été→été; étoile→étoile, all with ét
    漢|              = |漢; 漢字→漢字, all with 漢字, alone \"漢字 \"
    tw|             = |tw; twin→twin; twin→twin, all with twin
    alphas|         = |alphas
    x |             = x |; alpha→alpha; alpine→alpine; twin→twin; twin→twin; été→été; étoile→étoile; e\u{301}a→e\u{301}a; eb→eb; 漢字→漢字; al→al
";

// By 100,000 words.
const AMONG_MANY: &str = "
    word99999|      = |word99999; word99999→word99999, all with word99999
    word9|9999      = |word99999; word9→word9; word90→word90; word91→word91; word92→word92; word93→word93; word94→word94; word95→word95; word96→word96; word97→word97; word98→word98; word99→word99; word900→word900; 11111 in all, all with word9
    w|              = |w; word0→word0; word1→word1; word2→word2; word3→word3; word4→word4; word5→word5; word6→word6; word7→word7; word8→word8; word9→word9; word10→word10; word11→word11; 100000 in all, all with word
";

// Words that end in a number, from 0 on.
fn numbered(alloc: Global, count: u32) -> Result<WordCompleter, AllocError> {
    let mut words = Vec::new(alloc);
    for number in 0..count {
        words.push(format!(in alloc; "word{number}")?)?;
    }
    Ok(WordCompleter::new(words))
}

// The words of a text, with a bar after each; for the second text the source fails at the end.
const TEXTS: &str = r"
    whole alpha␊alpine      = alpha|alpine|
    whole b␊a␊b␊            = b|a|b|
    whole a␍␊b␍␊            = a|b|
    whole ␊␊a␊␍␊b␊␊         = a|b|
    whole ␍a␍␍␊b␍           = ␍a␍|b␍|
    whole #V2␊a\nb␊é c      = #V2|a\nb|é c|
    whole                   = nothing
    whole a␊‹c3 28›␊b       = NotUtf8
    whole ‹c3›              = NotUtf8
    cut a␊b                 = Reader
    cut                     = Reader
    cut ‹ff›␊b              = NotUtf8
    cut a␊‹ff›              = Reader
";

// The words of a text, or why there are none.
fn words_told(
    alloc: Global,
    answer: Result<Vec<String>, ReadlineError>,
) -> Result<String, AllocError> {
    match answer {
        Ok(words) => bars_behind(alloc, &words),
        Err(fault) => format!(in alloc; "{fault:?}"),
    }
}

fn bars_behind(alloc: Global, words: &[String]) -> Result<String, AllocError> {
    let mut said = String::new(alloc);
    for word in words {
        write_entry(alloc, &mut said, word.as_str())?;
    }
    Ok(said)
}

/// A source of these bytes that fails at their end, if they are `cut`.
pub(crate) fn source_of<'a>(end: &str, bytes: &'a [u8]) -> SliceSource<'a> {
    match end {
        "cut" => SliceSource::failing_after(bytes),
        _ => SliceSource::new(bytes),
    }
}

/// The words of a row's text.
pub(crate) fn words_of_text(alloc: Global, call: &str) -> Result<String, AllocError> {
    let (end, text) = word_and_rest(call);
    let bytes = meant_bytes(alloc, text)?;
    let mut source = source_of(end, &bytes);
    let answer = load_words(alloc, &mut source);
    words_told(alloc, answer)
}

fn completes<C: Completer + Drop>(alloc: Global, completer: C, rows: &str) -> Result<(), Fail> {
    rows_hold(alloc, &mut Asked { completer }, rows)
}

#[test]
fn words_complete(rt: HostRuntime) -> Result<(), Fail> {
    let alloc = rt.alloc();
    completes(alloc, completer_of(alloc, LISTED)?, BY_WORDS)?;
    let whole = WholeWordCompleter::new(words_in(alloc, LISTED, ' ')?, " ");
    completes(alloc, whole, BY_WHOLE_WORDS)
}

#[test]
fn many_words(rt: HostRuntime) -> Result<(), Fail> {
    completes(rt.alloc(), numbered(rt.alloc(), 100_000)?, AMONG_MANY)
}

#[test]
fn words_of_texts(rt: HostRuntime) -> Result<(), Fail> {
    rows_hold(rt.alloc(), &mut Ask::WordsOfTexts, TEXTS)?;
    rows_hold(rt.alloc(), &mut Ask::Ends, ENDS)?;
    stands(
        words_counted(rt.alloc()) == (2, 1),
        "a word read behind the end",
    )
}
