//! What stands between the commands of a line: a search of the history, candidates, or nothing.
ghost use Rattle.std.specs.Prelude.{◌≡◌, ◌-◌, ◌++◌, if◌then◌else◌, min, take, encode_utf8, IfErr, OnErr, OnOk, string_bytes};
ghost use Rattle.line_config.specs.Refusals.{OrMemory};
ghost use Rattle.line_config.specs.declared.errors.ReadlineError.TheVariants.{Memory};
ghost use Rattle.line_buffer.specs.Hits.{last_char};
ghost use Rattle.line_keys.specs.declared.command.Cmd.TheVariants.{Kill};
ghost use Rattle.line_editor.specs.Candidates.{cycle_at};
ghost use Rattle.line_editor.specs.declared.modal_state.Standing.TheVariants.{Off, Rests};
ghost use Rattle.line_editor.specs.Modal.{modal_of, modal_first, wish_of};
ghost use Rattle.line_editor.specs.Searching.{query_in, modal_with_query, modal_after_erase, heading, search_prompt, act_of, next_at, onward, dir_again};

use crate::characters::as_scalar;
use line_buffer::Movement;
use line_config::{CompletionType, Config, ReadlineError};
use line_help::SearchDirection;
use line_keys::{Cmd, SearchAgain};
use std::alloc::Global;

/// What goes on between two commands of a line.
#[derive(Clone, Copy)]
pub enum Standing {
    /// Nothing ever does: the setting is off.
    Off,
    /// Nothing.
    Rests,
    /// An entry that begins with the line, and to which Up went.
    Prefixes,
    /// A search of the history.
    Searches,
    /// A completion that left several candidates: the next Tab lists them.
    Tabbed,
    /// A list of candidates below the line.
    Lists,
    /// One of several candidates, in place of the word.
    Cycles,
}

/// What a command may begin between commands, or go on with.
#[derive(Clone, Copy)]
pub enum Wish {
    /// A search of the history.
    Search(SearchDirection),
    /// The row above, or an earlier entry.
    Up,
    /// The row below, or a later entry.
    Down,
    /// A completion, or the next candidate.
    Tab,
    /// The candidate before.
    TabBack,
    /// The line as it was.
    Leave,
    /// The last query once more.
    Again(SearchAgain),
    /// None of these.
    Other,
}

/// Which command is done in place of one that came.
#[derive(Clone, Copy)]
pub enum Next {
    /// None.
    Nothing,
    /// That one.
    Same,
    /// The one that goes to the earlier entry with the same beginning.
    Earlier,
    /// The one that goes to the later entry with the same beginning.
    Later,
    /// The one that comes back to the line that was saved.
    Own,
}

/// What a command is to a search that goes on.
#[derive(Clone, Copy)]
pub enum Act {
    /// A character more of the query.
    Types(char),
    /// The query's last character goes.
    Erases,
    /// The next entry in a direction.
    Goes(SearchDirection),
    /// The line as it was.
    Leaves,
    /// The line that was found.
    Ends,
}

/// What goes on between two commands of a line, or what is left of the last search.
#[derive(Drop)]
pub struct ModalState {
    pub(crate) completion_type: CompletionType,
    pub(crate) lists_at_once: bool,
    pub(crate) limit: usize,
    pub(crate) standing: Standing,
    pub(crate) query: String,
    pub(crate) fresh: bool,
    pub(crate) dir: SearchDirection,
    pub(crate) fails: bool,
    pub(crate) put: bool,
    pub(crate) start: usize,
    pub(crate) at: usize,
    pub(crate) candidate: usize,
    pub(crate) place: usize,
}

fn first_standing(on: bool) -> Standing
    ensures { result ≡ (if on then Rests else Off) }
{
    if on { Standing::Rests } else { Standing::Off }
}

/// What stands before the query.
fn heading(dir: SearchDirection, fails: bool) -> &'static str
    ensures { result.now ≡ heading dir fails }
{
    match (dir, fails) {
        (SearchDirection::Reverse, false) => "(reverse-i-search)`",
        (SearchDirection::Reverse, true) => "(failed reverse-i-search)`",
        (SearchDirection::Forward, false) => "(i-search)`",
        (SearchDirection::Forward, true) => "(failed i-search)`",
    }
}

/// What a command may begin, or go on with.
pub(crate) fn wish_of(cmd: &Cmd) -> Wish
    ensures { result ≡ wish_of cmd.now }
{
    match cmd {
        Cmd::ReverseSearchHistory => Wish::Search(SearchDirection::Reverse),
        Cmd::ForwardSearchHistory => Wish::Search(SearchDirection::Forward),
        Cmd::LineUpOrPreviousHistory(_) => Wish::Up,
        Cmd::LineDownOrNextHistory(_) => Wish::Down,
        Cmd::Complete => Wish::Tab,
        Cmd::CompleteBackward => Wish::TabBack,
        Cmd::Abort => Wish::Leave,
        Cmd::SearchAgain(way) => Wish::Again(*way),
        _ => Wish::Other,
    }
}

fn act_of_movement(movement: &Movement) -> Act
    ensures { result ≡ act_of (Kill movement.now) }
{
    match movement {
        Movement::BackwardChar(_) => Act::Erases,
        _ => Act::Ends,
    }
}

/// What a command is to a search that goes on.
pub(crate) fn act_of(cmd: &Cmd) -> Act
    ensures { result ≡ act_of cmd.now }
{
    match cmd {
        Cmd::SelfInsert(_, c) => Act::Types(*c),
        Cmd::Kill(movement) => act_of_movement(movement),
        Cmd::ReverseSearchHistory => Act::Goes(SearchDirection::Reverse),
        Cmd::ForwardSearchHistory => Act::Goes(SearchDirection::Forward),
        Cmd::Abort => Act::Leaves,
        _ => Act::Ends,
    }
}

/// The entry after one, of so many.
fn next_at(dir: SearchDirection, at: usize, count: usize) -> Option<usize>
    ensures { result ≡ next_at dir at count }
{
    match dir {
        SearchDirection::Reverse => { if at == 0 { None } else { Some(at - 1) } }
        SearchDirection::Forward => {
            if at < count && at + 1 < count {
                Some(at + 1)
            } else {
                None
            }
        }
    }
}

/// The direction of the last search, or the other one.
pub(crate) fn dir_again(way: SearchAgain, dir: SearchDirection) -> SearchDirection
    ensures { result ≡ dir_again way dir }
{
    match (way, dir) {
        (SearchAgain::Same, dir) => dir,
        (SearchAgain::Opposite, SearchDirection::Forward) => SearchDirection::Reverse,
        (SearchAgain::Opposite, SearchDirection::Reverse) => SearchDirection::Forward,
    }
}

/// The candidate after one, of so many, in a direction. After the last one, and before the first,
/// comes the word as it was.
pub(crate) fn cycle_at(dir: SearchDirection, at: usize, count: usize) -> usize
    ensures { result ≡ cycle_at dir at count }
{
    match dir {
        SearchDirection::Forward if at < count => at + 1,
        SearchDirection::Forward => 0,
        SearchDirection::Reverse if at == 0 => count,
        SearchDirection::Reverse => at.min(count).saturating_sub(1),
    }
}

/// A text without its last character.
fn drop_last(text: &mut String)
    ensures { string_bytes text.new
        ≡ (let old = string_bytes text.old in take (last_char old) old) }
{
    match text.pop() {
        Some(last) => {
            as_scalar(last);
        }
        None => text.clear(),
    }
}

impl ModalState {
    /// As a line begins, after a search for this query.
    pub(crate) fn new(config: &Config, query: String) -> Self
        ensures { modal_of result ≡ modal_first config.now (string_bytes query) }
    {
        ModalState {
            completion_type: config.completion_type(),
            lists_at_once: config.completion_show_all_if_ambiguous(),
            limit: config.completion_prompt_limit(),
            standing: first_standing(config.modal_commands()),
            query,
            fresh: true,
            dir: SearchDirection::Reverse,
            fails: false,
            put: false,
            start: 0,
            at: 0,
            candidate: 0,
            place: 0,
        }
    }

    /// What is searched for.
    fn query(&self) -> &str
        ensures { result.now ≡ query_in (modal_of self.now) }
    {
        if self.fresh { "" } else { self.query.as_str() }
    }

    /// What is drawn before the line.
    pub(crate) fn prompt(&self, alloc: Global) -> Result<String, ReadlineError>
        ensures { OrMemory result (λ s. string_bytes s ≡ search_prompt (modal_of self.now)) }
    {
        let heading = heading(self.dir, self.fails);
        let query = self.query();
        Ok(format!(in alloc; "{heading}{query}': ")?)
    }

    /// A character more of the query. Without memory all stays, the last query too.
    pub(crate) fn type_in(&mut self, alloc: Global, c: char) -> Result<(), ReadlineError>
        ensures ok { OnOk result (modal_of self.new
            ≡ modal_with_query (query_in (modal_of self.old) ++ encode_utf8 c)
            (modal_of self.old)) }
        ensures err { IfErr result (λ e. e ≡ Memory) }
        ensures same { OnErr result (modal_of self.new ≡ modal_of self.old) }
    {
        if !self.fresh {
            self.query.push(c)?;
            return Ok(());
        }
        let mut query = String::new(alloc);
        query.push(c)?;
        self.query = query;
        self.fresh = false;
        Ok(())
    }

    /// The query without its last character, looked for from where the search began.
    pub(crate) fn erase(&mut self)
        ensures { modal_of self.new ≡ modal_after_erase (modal_of self.old) }
    {
        if self.fresh {
            self.query.clear();
        }
        self.fresh = false;
        self.at = self.start;
        drop_last(&mut self.query);
    }

    /// From which entry the next one is looked for.
    pub(crate) fn onward(&self, dir: SearchDirection, count: usize) -> Option<usize>
        ensures { result ≡ onward self.now.at dir (modal_of self.now) count }
    {
        if self.fresh {
            Some(self.at)
        } else {
            next_at(dir, self.at, count)
        }
    }

    /// From which entry the last query is looked for once more, if this one is shown.
    pub(crate) fn from_again(
        &self,
        dir: SearchDirection,
        shown: usize,
        count: usize,
    ) -> Option<usize>
        ensures { result ≡ onward (min shown (count - 1)) dir (modal_of self.now) count }
    {
        if self.fresh {
            Some(shown.min(count.saturating_sub(1)))
        } else {
            next_at(dir, self.at, count)
        }
    }
}
