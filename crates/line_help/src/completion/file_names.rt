//! Completion of file names, from lists of what folders contain.
ghost use Rattle.std.specs.Prelude.{◌≡◌, ◌==◌, ◌++◌, ℕ, List, nat_eq, drop, if◌then◌else◌, length, take, IsTrue, IfOk, IfErr, IsCharBoundary, string_bytes, vec_items, Some};
ghost use Rattle.std.specs.Cow.{cow_str_bytes};
ghost use Rattle.line_config.specs.declared.errors.HookFault.TheVariants.{Memory};
ghost use Rattle.line_help.specs.Completion.{Offered, completion_by};
ghost use Rattle.line_help.specs.FileNames.{Named, is_special, typed_path, folder_of, offered_name, offered_names, unsorted_completion, path_completion, is_displayed_before};
ghost use Rattle.std.specs.List.{after_last, starts_with};
ghost use Rattle.std.specs.List.Sorted.{IsSortedBy};
ghost use Rattle.line_help.specs.Quotes.{text_with_escapes, text_without_escapes, escapes_at, unclosed_quote};
ghost use Rattle.line_keys.specs.Replies.{Reply, Replies, gives, itself};

use crate::completion::quotes::{Quote, escape, find_unclosed_quote, unescape};
use crate::completion::word_before::{ends_word, extract_word, is_double_quote_char};
use crate::completion::{Candidate, Completer, Pair, update_line};
use crate::helpers::context::Context;
use crate::history::History;
use line_buffer::{ChangeListener, LineBuffer};
use line_config::HookFault;
use std::alloc::Global;
use std::borrow::CowStr;
use std::marker::Model;

/// An item of a folder.
#[derive(Debug, Drop)]
pub struct Listed {
    /// The name, without the folder's.
    pub name: String,
    /// Whether it is a folder.
    pub is_dir: bool,
}

impl Model for Listed {
    ghost use Rattle.std.specs.Prelude.{string_bytes};
    ghost use Rattle.line_help.specs.FileNames.{Named};

    ghost Value = { Named };

    ghost view = { λ l. record { name = string_bytes l.name; is_dir = l.is_dir } };
}

impl Listed {
    fn begins_with(&self, name: &str) -> bool
        ensures { result ≡ starts_with nat_eq self.now.name name.now }
    {
        self.name.as_str().starts_with(name)
    }
}

/// Lists folders.
pub trait Lister {
    // The content of a folder, by its path; empty if the folder can't be listed.
    ghost held_in: { Self → List ℕ → Reply (List Named) };

    /// The content of the folder `dir`, empty if there is no such folder. The path ends in a slash,
    /// or is empty if no folder was typed.
    fn list(&self, alloc: Global, dir: &str) -> Result<Vec<Listed>, HookFault>
        ensures { Replies (held_in self.now dir.now) vec_items result };
}

/// Completes the names of files and folders.
#[derive(Debug, Drop)]
pub struct FilenameCompleter<L> {
    pub(crate) lister: L,
}

/// A partly typed path.
#[derive(Drop)]
struct TypedPath<'l> {
    start: usize,
    path: CowStr<'l>,
    quote: Quote,
}

/// The escape character in paths.
const ESCAPE_CHAR: Option<char> = Some('\\');

/// The path after a quote.
fn quoted<'l>(
    alloc: Global,
    text: &'l str,
    start: usize,
    quote: Quote,
) -> Result<TypedPath<'l>, HookFault>
    requires { IsCharBoundary text.now start }
    ensures start { IfOk result (λ typed. typed.start ≡ start) }
    ensures path { IfOk result (λ typed. cow_str_bytes typed.path
        ≡ (if escapes_at (Some (start, quote))
        then text_without_escapes (drop start text.now) (Some 92) else drop start text.now)) }
    ensures quote { IfOk result (λ typed. typed.quote ≡ quote) }
    ensures fault { IfErr result (λ e. (e ≡ Memory)
        × IsTrue (escapes_at (Some (start, quote)))) }
{
    let rest = &text[start..];
    let path = match quote {
        Quote::Double => unescape(alloc, rest, ESCAPE_CHAR)?,
        Quote::Single | Quote::None => CowStr::Borrowed(rest),
    };
    Ok(TypedPath { start, path, quote })
}

/// The path at the end of a text: the text after an open quote, or the last word.
#[tactic(auto, using(crate::proofs::FileNameLemmas::behind_quote))]
fn typed_path<'l>(alloc: Global, text: &'l str) -> Result<TypedPath<'l>, HookFault>
    ensures typed { IfOk result (λ typed. typed_path text.now ≡ record
        { start = typed.start; path = cow_str_bytes typed.path; quote = typed.quote }) }
    ensures fault { IfErr result (λ e. (e ≡ Memory)
        × IsTrue (escapes_at (unclosed_quote text.now))) }
{
    match find_unclosed_quote(text) {
        Some((place, quote)) => quoted(alloc, text, place + 1, quote),
        None => {
            let (start, word) = extract_word(text, text.len(), ESCAPE_CHAR, ends_word);
            let path = unescape(alloc, word, ESCAPE_CHAR)?;
            Ok(TypedPath {
                start,
                path,
                quote: Quote::None,
            })
        }
    }
}

/// A path's folder, up to its last slash, and its name.
fn split_path(path: &str) -> (&str, &str)
    ensures folder { result.0.now ≡ folder_of path.now }
    ensures name { result.1.now ≡ after_last (λ b. b == 47) path.now }
{
    match path.rfind('/') {
        Some(place) => path.split_at(place + 1),
        None => ("", path),
    }
}

/// A path with an escape before each character that needs one.
fn escape_path(alloc: Global, path: String, quote: Quote) -> Result<String, HookFault>
    ensures text { IfOk result (λ text. string_bytes text
        ≡ text_with_escapes (string_bytes path) (Some 92) (is_special quote) quote) }
    ensures fault { IfErr result (λ e. e ≡ Memory) }
{
    match quote {
        Quote::Double => escape(alloc, path, ESCAPE_CHAR, is_double_quote_char, quote),
        Quote::Single | Quote::None => escape(alloc, path, ESCAPE_CHAR, ends_word, quote),
    }
}

/// The candidate for a listed name.
fn offered_name(
    alloc: Global,
    quote: Quote,
    folder: &str,
    listed: &Listed,
) -> Result<Pair, HookFault>
    ensures pair { IfOk result (λ pair. pair ≡ offered_name quote folder.now listed.now) }
    ensures fault { IfErr result (λ e. e ≡ Memory) }
{
    let mut path = String::from_str(alloc, folder)?;
    path.push_str(listed.name.as_str())?;
    if listed.is_dir {
        path.push('/')?;
    }
    let replacement = escape_path(alloc, path, quote)?;
    let display = String::from_str(alloc, listed.name.as_str())?;
    Ok(Pair {
        display,
        replacement,
    })
}

/// The candidates for listed names.
fn offered_names(
    alloc: Global,
    quote: Quote,
    folder: &str,
    name: &str,
    all: &[Listed],
) -> Result<Vec<Pair>, HookFault>
    ensures pairs { IfOk result (λ pairs. pairs.items
        ≡ offered_names quote folder.now name.now all.now) }
    ensures fault { IfErr result (λ e. e ≡ Memory) }
{
    let mut pairs = Vec::new(alloc);
    for listed in all {
        if listed.begins_with(name) {
            pairs.push(offered_name(alloc, quote, folder, listed)?)?;
        }
    }
    Ok(pairs)
}

impl<L: Lister> FilenameCompleter<L> {
    /// A completer over a lister.
    pub fn new(lister: L) -> Self
        ensures { result.lister ≡ lister }
    {
        FilenameCompleter { lister }
    }

    /// Where the path before `pos` starts, and a candidate for each name in its folder that begins
    /// with the typed name, sorted by name.
    pub fn complete_path(
        &self,
        alloc: Global,
        line: &str,
        pos: usize,
    ) -> Result<(usize, Vec<Pair>), HookFault>
        requires { IsCharBoundary line.now pos }
        ensures reply { Replies (path_completion (L.held_in self.now.lister) (take pos line.now))
            (completion_by itself) result }
        ensures sorted { IfOk result (λ found. IsSortedBy is_displayed_before found.1.items) }
    {
        let (start, mut pairs) = self.complete_path_unsorted(alloc, line, pos)?;
        pairs.sort_by(|one, other| one.display().cmp(other.display()))?;
        Ok((start, pairs))
    }

    /// The same in the order in which the lister returns the names.
    pub fn complete_path_unsorted(
        &self,
        alloc: Global,
        line: &str,
        pos: usize,
    ) -> Result<(usize, Vec<Pair>), HookFault>
        requires { IsCharBoundary line.now pos }
        ensures { Replies (unsorted_completion (L.held_in self.now.lister) (take pos line.now))
            (completion_by itself) result }
    {
        let typed = typed_path(alloc, &line[..pos])?;
        let (folder, name) = split_path(typed.path.as_str());
        let all = self.lister.list(alloc, folder)?;
        let pairs = offered_names(alloc, typed.quote, folder, name, &all)?;
        Ok((typed.start, pairs))
    }
}

impl<L: Lister> Completer for FilenameCompleter<L> {
    type Candidate = Pair;

    ghost completion_of = { λ self line pos entries place. path_completion (L.held_in self.lister)
        (take pos line) };

    ghost update_of = { λ self line start elected. gives (tt {0}) };

    fn complete<Hi: History>(
        &self,
        alloc: Global,
        line: &str,
        pos: usize,
        _ctx: &Context<'_, Hi>,
    ) -> Result<(usize, Vec<Pair>), HookFault> {
        self.complete_path(alloc, line, pos)
    }

    fn update<U: ChangeListener>(
        &self,
        alloc: Global,
        line: &mut LineBuffer,
        start: usize,
        elected: &str,
        cl: &mut U,
    ) -> Result<(), HookFault> {
        update_line(alloc, line, start, elected, cl)
    }
}
