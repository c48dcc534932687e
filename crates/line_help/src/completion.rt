//! Completion: what may replace the word before the cursor.

pub mod common_prefix;
pub mod file_names;
pub mod quotes;
pub mod whole_words;
pub mod word_before;
pub mod word_completer;
pub mod word_list;

ghost use Rattle.std.specs.Prelude.{◌≡◌, ◌≤◌, ℕ, List, ⊤, IfOk, IfErr, IsCharBoundary, box_value};
ghost use Rattle.line_buffer.specs.Line.{Line};
ghost use Rattle.line_config.specs.declared.errors.HookFault.TheVariants.{Memory};
ghost use Rattle.line_help.specs.Completion.{Offered, Completion, text_offered, nothing_offered, completion_by, Updates};
ghost use Rattle.line_keys.specs.Replies.{Reply, Replies, gives, gives_at_once, itself};

use crate::helpers::context::Context;
use crate::history::History;
use line_buffer::{ChangeListener, LineBuffer};
use line_config::HookFault;
use std::alloc::{Allocator, Global};
use std::convert::AsStr;
use std::marker::Model;

/// A candidate.
pub trait Candidate: Drop {
    // Its texts.
    ghost offers: { Self → Offered };

    /// The text to list.
    fn display(&self) -> &str
        ensures { result.now ≡ (offers self.now).display };

    /// The text to insert into the line.
    fn replacement(&self) -> &str
        ensures { result.now ≡ (offers self.now).replacement };

    /// The text to insert if there is no other candidate: its replacement, and, if that is a whole
    /// word, what ends a word, such as a space. It is asked for only if the setting
    /// `modal_commands` is on.
    fn alone(&self) -> &str
        ensures { result.now ≡ (offers self.now).alone };
}

impl<T: AsStr + Drop> Candidate for T {
    ghost offers = { λ text. text_offered (T.text text) };

    fn display(&self) -> &str {
        self.as_str()
    }

    fn replacement(&self) -> &str {
        self.as_str()
    }

    fn alone(&self) -> &str {
        self.as_str()
    }
}

/// A candidate whose two texts may differ.
#[derive(Debug, Drop)]
pub struct Pair {
    /// The text to list.
    pub display: String,
    /// The text to insert into the line.
    pub replacement: String,
}

impl Model for Pair {
    ghost use Rattle.std.specs.Prelude.{string_bytes};
    ghost use Rattle.line_help.specs.Completion.{Offered};

    ghost Value = { Offered };

    ghost view = { λ p. record {
      display = string_bytes p.display;
      replacement = string_bytes
          p.replacement;
      alone = string_bytes p.replacement;
    } };
}

impl Pair {
    /// A copy of the candidate, in memory of its own.
    pub fn try_clone(&self, alloc: Global) -> Result<Self, HookFault>
        ensures same { IfOk result (λ pair. pair ≡ self.now) }
        ensures fault { IfErr result (λ e. e ≡ Memory) }
    {
        let display = String::from_str(alloc, self.display.as_str())?;
        let replacement = String::from_str(alloc, self.replacement.as_str())?;
        Ok(Pair {
            display,
            replacement,
        })
    }
}

impl Candidate for Pair {
    ghost offers = { λ pair. pair };

    fn display(&self) -> &str {
        self.display.as_str()
    }

    fn replacement(&self) -> &str {
        self.replacement.as_str()
    }

    fn alone(&self) -> &str {
        &self.replacement
    }
}

/// A completer of words.
pub trait Completer {
    /// The type of its candidates.
    type Candidate: Candidate;

    // Its reply, depending on the line, the place, the history's entries and the place in the
    // history.
    ghost completion_of: { Self → List ℕ → ℕ → List (List ℕ) → ℕ → Reply Completion };

    // Whether it inserts a text into a line, depending on the line, the start and the text.
    ghost update_of: { Self → Line → ℕ → List ℕ → Reply ⊤ };

    /// Where the word before the cursor at `pos` starts, in bytes, and the candidates for it. They
    /// depend only on the line, the place, the history's entries and the place in the history.
    fn complete<Hi: History>(
        &self,
        alloc: Global,
        line: &str,
        pos: usize,
        ctx: &Context<'_, Hi>,
    ) -> Result<(usize, Vec<Self::Candidate>), HookFault>
        requires { IsCharBoundary line.now pos }
        ensures { Replies (completion_of self.now line.now pos (Hi.entries ctx.now.history.now)
            ctx.now.place) (completion_by Self.Candidate.offers) result };

    /// Replaces the line from `start` to the cursor by a candidate's replacement.
    fn update<L: ChangeListener>(
        &self,
        alloc: Global,
        line: &mut LineBuffer,
        start: usize,
        elected: &str,
        cl: &mut L,
    ) -> Result<(), HookFault>
        requires order { start ≤ line.old.place }
        requires boundary { IsCharBoundary line.old.text start }
        ensures line { Updates L.takes L.refuses start elected.now cl.old cl.new line.old line.new
            result }
        ensures reply { Replies (update_of self.now line.old start elected.now) itself result };
}

/// Replaces the line from `start` to the cursor by a text.
pub fn update_line<L: ChangeListener>(
    alloc: Global,
    line: &mut LineBuffer,
    start: usize,
    elected: &str,
    cl: &mut L,
) -> Result<(), HookFault>
    requires order { start ≤ line.old.place }
    requires boundary { IsCharBoundary line.old.text start }
    ensures line { Updates L.takes L.refuses start elected.now cl.old cl.new line.old line.new
        result }
    ensures fault { IfErr result (λ e. e ≡ Memory) }
{
    let end = line.pos();
    line.replace(alloc, start..end, elected, cl)?;
    Ok(())
}

/// No candidates.
impl Completer for () {
    type Candidate = String;

    ghost completion_of = { λ self line pos entries place. gives_at_once nothing_offered };

    ghost update_of = { λ self line start elected. gives (tt {0}) };

    fn complete<Hi: History>(
        &self,
        alloc: Global,
        _line: &str,
        _pos: usize,
        _ctx: &Context<'_, Hi>,
    ) -> Result<(usize, Vec<String>), HookFault> {
        Ok((0, Vec::new(alloc)))
    }

    fn update<L: ChangeListener>(
        &self,
        alloc: Global,
        line: &mut LineBuffer,
        start: usize,
        elected: &str,
        cl: &mut L,
    ) -> Result<(), HookFault> {
        update_line(alloc, line, start, elected, cl)
    }
}

impl<C: Completer, A: Allocator> Completer for Box<C, A> {
    type Candidate = C::Candidate;

    ghost completion_of = { λ held. C.completion_of (box_value held) };

    ghost update_of = { λ held. C.update_of (box_value held) };

    fn complete<Hi: History>(
        &self,
        alloc: Global,
        line: &str,
        pos: usize,
        ctx: &Context<'_, Hi>,
    ) -> Result<(usize, Vec<C::Candidate>), HookFault> {
        (**self).complete(alloc, line, pos, ctx)
    }

    fn update<L: ChangeListener>(
        &self,
        alloc: Global,
        line: &mut LineBuffer,
        start: usize,
        elected: &str,
        cl: &mut L,
    ) -> Result<(), HookFault> {
        (**self).update(alloc, line, start, elected, cl)
    }
}
