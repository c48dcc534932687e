//! A command that may be taken before it is done.
ghost use Rattle.std.specs.Prelude.{◌≡◌, ◌⊎◌, OnOk, string_bytes, IsCharBoundary, IsTrue, length, true, Ok};
ghost use Rattle.std.specs.Result.{result_and};
ghost use Rattle.line_help.specs.Search.{Finds};
ghost use Rattle.line_editor.specs.declared.modal_state.Standing.TheVariants.{Prefixes, Searches, Tabbed, Lists, Cycles};
ghost use Rattle.line_editor.specs.declared.modal_state.Wish.TheVariants.{Search, Again};
ghost use Rattle.line_editor.specs.Modal.{modal_of, modal_at_rest, next_of};
ghost use Rattle.line_editor.specs.Searching.{hit_undo_effect, search_drawn, look, modal_after_look, search_for, is_place, line_at_place, place_effect, give_up_effect, begin_search, modal_at_search_start, modal_with_query, modal_with_empty_query, looks_again};

use crate::modal_state::{Act, ModalState, Next, Standing, Wish, act_of, dir_again, wish_of};
use crate::renderer::Renderer;
use crate::state::State;
use line_buffer::LineBuffer;
use line_config::ReadlineError;
use line_help::{Helper, History, SearchDirection, SearchResult};
use line_keys::{Cmd, SearchAgain};

/// Whether the cursor may stand at a place.
fn is_place(line: &LineBuffer, place: usize) -> bool
    ensures value { result ≡ is_place place line.now }
    ensures boundary { IsTrue result → IsCharBoundary line.now.text place }
{
    place <= line.len() && line.as_str().is_char_boundary(place)
}

/// Puts the cursor at a place, if it may stand there.
fn place_cursor(line: &mut LineBuffer, place: usize)
    ensures { line.new ≡ line_at_place place line.old }
{
    if is_place(line, place) {
        line.set_pos(place);
    }
}

impl<'p, 'h, Out: Renderer, H: Helper + Drop, Hi: History> State<'p, 'h, Out, H, Hi> {
    ghost use Rattle.line_edits.specs.Edits.{update_group};
    ghost use Rattle.line_editor.specs.Searching.{looks_typed, looks, modal_with_char, onward, looks_erased};
    ghost use Rattle.line_editor.specs.States.{value_of, setting_of, Does};
    ghost use Rattle.line_editor.specs.ModalCommands.{meeting, meeting_at_rest, meeting_on, meeting_anew};
    ghost use Rattle.line_editor.specs.Drawing.{refresh_effect};
    ghost use Rattle.line_editor.specs.States.{Meets};
    ghost use Rattle.line_editor.specs.Values.{then_do, edit_effect, close_groups};

    /// Undoes the entry that stands in place of the line, if there is one.
    pub(crate) fn take_hit_back(&mut self, put: bool) -> Result<(), ReadlineError>
        ensures does { Does (hit_undo_effect put) self.old self.new result }
    {
        if !put {
            return Ok(());
        }
        self.known = None;
        self.recorded.undo(self.alloc, 1)?;
        Ok(())
    }

    /// Puts an entry in place of the line. Nothing is drawn.
    fn put_entry(&mut self, entry: &str, pos: usize) -> Result<(), ReadlineError>
        requires { IsCharBoundary entry.now pos }
        ensures does { Does (edit_effect (update_group entry.now pos)) self.old self.new
            result }
    {
        self.known = None;
        self.recorded.update_grouped(self.alloc, entry, pos)?;
        Ok(())
    }

    /// The same in place of the last entry that was found.
    fn put_hit(&mut self, put: bool, entry: &str, pos: usize) -> Result<(), ReadlineError>
        requires { IsCharBoundary entry.now pos }
        ensures does { Does
            (then_do (hit_undo_effect put) (edit_effect (update_group entry.now pos)))
            self.old self.new result }
    {
        self.take_hit_back(put)?;
        self.put_entry(entry, pos)
    }

    /// Draws the line after the search's prompt.
    fn show_search(&mut self, modal: &ModalState) -> Result<(), ReadlineError>
        ensures does { Does (search_drawn (modal_of modal.now)) self.old self.new result }
    {
        let prompt = modal.prompt(self.alloc)?;
        self.refresh_behind(prompt.as_str())
    }

    /// Puts the cursor at a place, if it may stand there.
    pub(crate) fn put_cursor(&mut self, place: usize)
        ensures does { Does {A = Unit {0}} (place_effect place) self.old self.new (Ok (tt {0})) }
    {
        self.known = None;
        let recorded = &mut self.recorded;
        place_cursor(&mut recorded.line, place);
    }

    /// Begins a search.
    fn begin_search(
        &mut self,
        modal: &mut ModalState,
        dir: SearchDirection,
    ) -> Result<(), ReadlineError>
        ensures does { Does (begin_search dir (modal_of modal.old)) self.old self.new result }
        ensures modal { OnOk result (modal_of modal.new
            ≡ modal_at_search_start dir (length (setting_of self.old).entries) (value_of self.old)
            (modal_of modal.old)) }
    {
        let count = self.ctx.history().len();
        modal.standing = Standing::Searches;
        modal.fresh = true;
        modal.dir = dir;
        modal.fails = false;
        modal.put = false;
        modal.start = self.ctx.history_index().min(count.saturating_sub(1));
        modal.at = modal.start;
        modal.place = self.recorded.line.pos();
        self.close_groups()?;
        self.show_search(modal)
    }

    /// Looks for the query from an entry on, and shows what is found in place of the line.
    fn look(
        &mut self,
        modal: &mut ModalState,
        dir: SearchDirection,
        from: Option<usize>,
    ) -> Result<(), ReadlineError>
        ensures does { Does (look dir from (modal_of modal.old)) self.old self.new result }
        ensures modal { OnOk result (modal_of modal.new
            ≡ modal_after_look dir (search_for (modal_of modal.old).query dir from
            (setting_of self.old).entries) (modal_of modal.old)) }
        ensures query { modal.new.query ≡ modal.old.query }
    {
        let history = self.ctx.history();
        let found = sought(history, modal.query.as_str(), dir, from);
        modal.dir = dir;
        modal.fresh = false;
        match found {
            Some(hit) => {
                self.put_hit(modal.put, hit.entry, hit.pos)?;
                modal.fails = false;
                modal.put = true;
                modal.at = hit.idx;
                self.show_search(modal)
            }
            None => {
                modal.fails = !modal.query.is_empty();
                self.show_search(modal)
            }
        }
    }

    /// The line as it was before the search.
    fn give_up(&mut self, modal: &mut ModalState) -> Result<(), ReadlineError>
        ensures does { Does (give_up_effect (modal_of modal.old)) self.old self.new result }
        ensures modal { modal_of modal.new ≡ modal_at_rest (modal_of modal.old) }
    {
        modal.standing = Standing::Rests;
        self.take_hit_back(modal.put)?;
        self.put_cursor(modal.place);
        self.refresh()
    }

    /// A character more of the query.
    fn search_typed(&mut self, modal: &mut ModalState, c: char) -> Result<(), ReadlineError>
        ensures does { Does (λ a v. (looks_typed c (modal_of modal.old) a v).effect) self.old
            self.new result }
        ensures modal { OnOk result (modal_of modal.new ≡ (looks_typed
            c (modal_of modal.old) (setting_of self.old) (value_of self.old)).modal) }
        ensures query { (modal_of modal.new ≡ modal_of modal.old)
            ⊎ (string_bytes modal.new.query ≡ (modal_with_char c (modal_of modal.old)).query) }
    {
        modal.type_in(self.alloc, c)?;
        let (dir, at) = (modal.dir, modal.at);
        self.look(modal, dir, Some(at))
    }

    /// The query without its last character.
    fn search_erased(&mut self, modal: &mut ModalState) -> Result<(), ReadlineError>
        ensures does { Does (λ a v. (looks_erased (modal_of modal.old) a v).effect) self.old
            self.new result }
        ensures modal { OnOk result (modal_of modal.new
            ≡ (looks_erased (modal_of modal.old) (setting_of self.old) (value_of self.old)).modal) }
    {
        modal.erase();
        if modal.query.is_empty() {
            return self.search_emptied(modal);
        }
        let (dir, at) = (modal.dir, modal.start);
        self.look(modal, dir, Some(at))
    }

    /// The line as it was before a search, which goes on with an empty query.
    fn search_emptied(&mut self, modal: &mut ModalState) -> Result<(), ReadlineError>
        ensures does { Does (λ a v. (looks_again true (modal_of modal.old) a v).effect) self.old
            self.new result }
        ensures modal { OnOk result
            (modal_of modal.new ≡ modal_with_empty_query (modal_of modal.old)) }
    {
        let place = modal.place;
        self.take_hit_back(modal.put)?;
        self.put_cursor(place);
        modal.fails = false;
        modal.put = false;
        self.show_search(modal)
    }

    /// The next entry that has the query.
    fn search_on(
        &mut self,
        modal: &mut ModalState,
        dir: SearchDirection,
    ) -> Result<(), ReadlineError>
        ensures does { Does (look dir
            (onward (modal_of modal.old).at dir (modal_of modal.old)
            (length (setting_of self.old).entries))
            (modal_with_query (modal_of modal.old).query (modal_of modal.old)))
            self.old self.new result }
        ensures modal { OnOk result (modal_of modal.new
            ≡ (looks dir (onward (modal_of modal.old).at dir (modal_of modal.old)
            (length (setting_of self.old).entries))
            (modal_with_query (modal_of modal.old).query (modal_of modal.old))
            (setting_of self.old) (value_of self.old)).modal) }
    {
        let from = modal.onward(dir, self.ctx.history().len());
        modal.fresh = false;
        self.look(modal, dir, from)
    }

    /// What a search that goes on makes of a command.
    fn met_searches(&mut self, modal: &mut ModalState, cmd: &Cmd) -> Result<Next, ReadlineError>
        requires { modal.old.standing ≡ Searches }
        ensures { Meets (meeting (modal_of modal.old) cmd.now) (next_of cmd.now) self.old self.new
            (modal_of modal.new) result }
    {
        match act_of(cmd) {
            Act::Types(c) => self.search_typed(modal, c)?,
            Act::Erases => self.search_erased(modal)?,
            Act::Goes(dir) => self.search_on(modal, dir)?,
            Act::Leaves => self.give_up(modal)?,
            Act::Ends => return self.meet_anew(modal, wish_of(cmd), cmd),
        }
        Ok(Next::Nothing)
    }

    /// Begins a search, unless the history is empty.
    fn met_search(
        &mut self,
        modal: &mut ModalState,
        dir: SearchDirection,
        cmd: &Cmd,
    ) -> Result<Next, ReadlineError>
        ensures { Meets (meeting_at_rest (Search dir) (modal_of modal.old) cmd.now)
            (next_of cmd.now) self.old self.new (modal_of modal.new) result }
    {
        if self.ctx.history().len() == 0 {
            return Ok(Next::Same);
        }
        self.begin_search(modal, dir)?;
        Ok(Next::Nothing)
    }

    /// Puts an entry in place of the line, and draws it.
    fn put_again(&mut self, entry: &str, pos: usize) -> Result<(), ReadlineError>
        requires { IsCharBoundary entry.now pos }
        ensures { Does (then_do close_groups
            (then_do (edit_effect (update_group entry.now pos)) refresh_effect))
            self.old self.new result }
    {
        self.close_groups()?;
        self.put_entry(entry, pos)?;
        self.refresh()
    }

    /// Looks for the last query once more. Beeps if nothing is found.
    fn met_again(
        &mut self,
        modal: &mut ModalState,
        way: SearchAgain,
        cmd: &Cmd,
    ) -> Result<Next, ReadlineError>
        ensures { Meets (meeting_at_rest (Again way) (modal_of modal.old) cmd.now)
            (next_of cmd.now) self.old self.new (modal_of modal.new) result }
    {
        let history = self.ctx.history();
        let dir = dir_again(way, modal.dir);
        let from = modal.from_again(dir, self.ctx.history_index(), history.len());
        match sought(history, modal.query.as_str(), dir, from) {
            Some(hit) => {
                modal.fresh = false;
                modal.at = hit.idx;
                self.put_again(hit.entry, hit.pos)?;
            }
            None => self.beep()?,
        }
        Ok(Next::Nothing)
    }

    /// What a command begins if nothing goes on.
    fn met_resting(
        &mut self,
        modal: &mut ModalState,
        wish: Wish,
        cmd: &Cmd,
    ) -> Result<Next, ReadlineError>
        ensures { Meets (meeting_at_rest wish (modal_of modal.old) cmd.now) (next_of cmd.now)
            self.old self.new (modal_of modal.new) result }
    {
        match wish {
            Wish::Search(dir) => self.met_search(modal, dir, cmd),
            Wish::Up => self.met_up(modal, cmd),
            Wish::Tab => self.tab(modal, modal.lists_at_once, cmd),
            Wish::Again(way) => self.met_again(modal, way, cmd),
            _ => Ok(Next::Same),
        }
    }

    /// What a command makes of the entries that begin with the line.
    fn met_prefixes(
        &mut self,
        modal: &mut ModalState,
        wish: Wish,
        cmd: &Cmd,
    ) -> Result<Next, ReadlineError>
        ensures { Meets (meeting_on Prefixes wish (modal_of modal.old) cmd.now) (next_of cmd.now)
            self.old self.new (modal_of modal.new) result }
    {
        match wish {
            Wish::Up => self.rise(modal, cmd),
            Wish::Down => self.fall(modal, cmd),
            _ => {
                modal.standing = Standing::Rests;
                self.met_resting(modal, wish, cmd)
            }
        }
    }

    /// What a command makes of a completion that left several candidates.
    fn met_tabbed(
        &mut self,
        modal: &mut ModalState,
        wish: Wish,
        cmd: &Cmd,
    ) -> Result<Next, ReadlineError>
        ensures { Meets (meeting_on Tabbed wish (modal_of modal.old) cmd.now) (next_of cmd.now)
            self.old self.new (modal_of modal.new) result }
    {
        match wish {
            Wish::Tab => self.tab(modal, true, cmd),
            _ => {
                modal.standing = Standing::Rests;
                self.met_resting(modal, wish, cmd)
            }
        }
    }

    /// Draws the line anew behind its own prompt; and what the command begins.
    fn meet_anew(
        &mut self,
        modal: &mut ModalState,
        wish: Wish,
        cmd: &Cmd,
    ) -> Result<Next, ReadlineError>
        ensures { Meets (meeting_anew wish (modal_of modal.old) cmd.now) (next_of cmd.now)
            self.old self.new (modal_of modal.new) result }
    {
        self.refresh()?;
        modal.standing = Standing::Rests;
        self.met_resting(modal, wish, cmd)
    }

    /// What a command makes of a list of candidates.
    fn met_lists(
        &mut self,
        modal: &mut ModalState,
        wish: Wish,
        cmd: &Cmd,
    ) -> Result<Next, ReadlineError>
        ensures { Meets (meeting_on Lists wish (modal_of modal.old) cmd.now) (next_of cmd.now)
            self.old self.new (modal_of modal.new) result }
    {
        match wish {
            Wish::Tab => self.tab(modal, true, cmd),
            _ => self.meet_anew(modal, wish, cmd),
        }
    }

    /// What a command makes of a candidate that stands in place of the word.
    fn met_cycles(
        &mut self,
        modal: &mut ModalState,
        wish: Wish,
        cmd: &Cmd,
    ) -> Result<Next, ReadlineError>
        ensures { Meets (meeting_on Cycles wish (modal_of modal.old) cmd.now) (next_of cmd.now)
            self.old self.new (modal_of modal.new) result }
    {
        match wish {
            Wish::Tab => self.cycle(modal, SearchDirection::Forward, cmd),
            Wish::TabBack => self.cycle(modal, SearchDirection::Reverse, cmd),
            Wish::Leave => {
                self.give_up(modal)?;
                Ok(Next::Nothing)
            }
            _ => {
                modal.standing = Standing::Rests;
                self.met_resting(modal, wish, cmd)
            }
        }
    }

    /// What goes on between commands makes of a command.
    fn met(&mut self, modal: &mut ModalState, cmd: &Cmd) -> Result<Next, ReadlineError>
        ensures { Meets (meeting (modal_of modal.old) cmd.now) (next_of cmd.now) self.old self.new
            (modal_of modal.new) result }
    {
        if let Standing::Off = modal.standing {
            return Ok(Next::Same);
        }
        self.met_on(modal, cmd)
    }

    /// The same if something may stand there. Not inlined: each key would cost more even if the
    /// setting is off.
    #[inline(never)]
    fn met_on(&mut self, modal: &mut ModalState, cmd: &Cmd) -> Result<Next, ReadlineError>
        ensures { Meets (meeting (modal_of modal.old) cmd.now) (next_of cmd.now) self.old self.new
            (modal_of modal.new) result }
    {
        match modal.standing {
            Standing::Off => Ok(Next::Same),
            Standing::Rests => self.met_resting(modal, wish_of(cmd), cmd),
            Standing::Prefixes => self.met_prefixes(modal, wish_of(cmd), cmd),
            Standing::Searches => self.met_searches(modal, cmd),
            Standing::Tabbed => self.met_tabbed(modal, wish_of(cmd), cmd),
            Standing::Lists => self.met_lists(modal, wish_of(cmd), cmd),
            Standing::Cycles => self.met_cycles(modal, wish_of(cmd), cmd),
        }
    }

    /// A command before it is done: what goes on between commands makes of it, and which one is
    /// done in its place.
    pub(crate) fn meet(
        &mut self,
        modal: &mut ModalState,
        cmd: &mut Cmd,
    ) -> Result<(), ReadlineError>
        ensures { Meets (meeting (modal_of modal.old) cmd.old) (λ c. c) self.old self.new
            (modal_of modal.new) (result_and result (Ok cmd.new)) }
    {
        match self.met(modal, cmd)? {
            Next::Nothing => *cmd = Cmd::Unknown,
            Next::Same => {}
            Next::Earlier => *cmd = Cmd::HistorySearchBackward,
            Next::Later => *cmd = Cmd::HistorySearchForward,
            Next::Own => *cmd = Cmd::EndOfHistory,
        }
        Ok(())
    }
}

/// The nearest entry from a place on, if there is a place, that has the query.
fn sought<'a, Hi: History>(
    history: &'a Hi,
    query: &str,
    dir: SearchDirection,
    from: Option<usize>,
) -> Option<SearchResult<'a>>
    ensures { Finds (search_for query.now dir from) (Hi.entries history.now) result }
{
    history.search(query, from?, dir)
}
