//! The program's invocation: its options, and whether what is off by default is turned on.

ghost use Rattle.std.specs.Prelude.{◌≡◌, true, IfErr, IfOk, IfSome, ◌<◌, ◌++◌, length, map, position, remove};
ghost use Rattle.keyline.specs.Options.{InvokesTo, IsAnswer, IsStyled, decides, place_of_extended, place_of_extended_in, for_options, HasColumns};

use crate::options::{Options, Parsed, parse};
use line_help::split_styles;
use std::alloc::{AllocError, Global};
use std::convert::AsStr;

/// How the program is to run.
#[derive(Debug, Drop)]
pub struct Invocation {
    /// The options. With `extended` the prompt is without its control sequences, and has the styles
    /// that they mean.
    pub options: Options,
    /// Whether what is off by default is turned on.
    pub extended: bool,
}

/// The meaning of a command line in which `--extended` may stand.
#[derive(Debug, Drop)]
pub enum Invoked {
    /// A session by this invocation.
    Run(Invocation),
    /// The help text, for standard output; the program then ends with status 0.
    Help(String),
    /// What is wrong with the command line, and the usage, for standard error; the status is 2.
    Usage(String),
    /// Unknown: an allocation failed.
    Memory,
}

impl Invocation {
    /// Parses a command line; the first word is the program's name. `--extended` may stand once,
    /// anywhere before `--`; the other words are those of [`parse`].
    pub fn parse<S: AsStr>(alloc: Global, words: &[S]) -> Invoked
        ensures answers { InvokesTo (map S.text words.now) result }
        ensures columns { HasColumns (for_options result) }
    {
        let Some(place) = extended_at(words) else {
            return answered(alloc, parse(alloc, words), false);
        };
        match others(alloc, words, place) {
            Ok(others) => answered(alloc, parse(alloc, others.as_slice()), true),
            Err(_) => Invoked::Memory,
        }
    }
}

// The answer for the options, together with what is said of `--extended`.
fn answered(alloc: Global, parsed: Parsed, extended: bool) -> Invoked
    ensures answer { IsAnswer extended parsed result }
    ensures columns { HasColumns parsed → HasColumns (for_options result) }
{
    match parsed {
        Parsed::Run(options) => match styled_if(alloc, extended, options) {
            Ok(options) => Invoked::Run(Invocation { options, extended }),
            Err(_) => Invoked::Memory,
        },
        Parsed::Help(text) => Invoked::Help(text),
        Parsed::Usage(text) => Invoked::Usage(text),
        Parsed::Memory => Invoked::Memory,
    }
}

// The options, with the prompt's styles apart if so wanted.
fn styled_if(alloc: Global, extended: bool, options: Options) -> Result<Options, AllocError>
    ensures styled { IfOk result (IsStyled extended options) }
    ensures fault { IfErr result (λ e. extended ≡ true) }
{
    if !extended {
        return Ok(options);
    }
    let mut options = options;
    let (prompt, styles) = split_styles(alloc, options.prompt.as_str())?;
    options.prompt = prompt;
    options.prompt_styles = styles;
    Ok(options)
}

// The place of `--extended` in a command line.
fn extended_at<S: AsStr>(words: &[S]) -> Option<usize>
    ensures value { result ≡ place_of_extended_in (map S.text words.now) }
    ensures bound { IfSome result (λ place. place < length words.now) }
{
    match words {
        [] => None,
        [_, words @ ..] => Some(extended_among(words)? + 1),
    }
}

// Its place in words, if it stands before any `--`.
fn extended_among<S: AsStr>(words: &[S]) -> Option<usize>
    ensures value { result ≡ place_of_extended (map S.text words.now) }
    ensures bound { IfSome result (λ place. place < length words.now) }
{
    let Some(place) = first_that_decides(words) else {
        return None;
    };
    if words[place].as_str() == "--extended" {
        Some(place)
    } else {
        None
    }
}

// The place of the first word that is `--extended` or `--`.
fn first_that_decides<S: AsStr>(words: &[S]) -> Option<usize>
    ensures { result ≡ position (λ word. decides (S.text word)) words.now }
{
    words.iter().position(|word| decides(word.as_str()))
}

fn decides(word: &str) -> bool
    ensures { result ≡ decides word.now }
{
    word == "--extended" || word == "--"
}

// All words but the one in this place.
fn others<S: AsStr>(alloc: Global, words: &[S], place: usize) -> Result<Vec<&str>, AllocError>
    requires { place < length words.now }
    ensures { IfOk result (λ others. map (λ w. w.now) others.items
        ≡ remove (map S.text words.now) place) }
{
    let mut others = Vec::new(alloc);
    append(&mut others, &words[..place])?;
    append(&mut others, &words[place + 1..])?;
    Ok(others)
}

fn append<'a, S: AsStr>(texts: &mut Vec<&'a str>, words: &'a [S]) -> Result<(), AllocError>
    ensures { IfOk result (λ done. map (λ w. w.now) texts.new.items
        ≡ map (λ w. w.now) texts.old.items ++ map S.text words.now) }
{
    for word in words {
        texts.push(word.as_str())?;
    }
    Ok(())
}
