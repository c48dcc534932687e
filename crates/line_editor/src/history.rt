//! Shows history entries in place of the line.
ghost use Rattle.std.specs.Prelude.{◌≡◌, ◌<◌, ◌≤◌, length, IsCharBoundary, true, false};

use crate::renderer::Renderer;
use crate::saved::SavedLine;
use crate::state::State;
use line_config::ReadlineError;
use line_help::{Helper, History, SearchDirection};

#[tactic(auto, using(crate::proofs::StopsLemmas::recalls_stop))]
impl<'p, 'h, Out: Renderer, H: Helper + Drop, Hi: History> State<'p, 'h, Out, H, Hi> {
    ghost use Rattle.line_editor.specs.States.{setting_of, Does};
    ghost use Rattle.line_edits.specs.Edits.{update_steps};
    ghost use Rattle.line_editor.specs.Values.{edit_effect};
    ghost use Rattle.line_editor.specs.History.{save_effect, come_back_effect, history_step, history_end, entry_shown, recall_earlier_effect, leave_effect, search_from, history_search};

    /// Saves the line to come back to it.
    pub fn backup(&mut self) -> Result<(), ReadlineError>
        ensures does { Does save_effect self.old self.new result }
    {
        let pos = self.recorded.line.pos();
        self.saved = SavedLine::copy(self.alloc, self.recorded.line.as_str(), pos)?;
        Ok(())
    }

    /// Restores the saved line, as one change.
    pub fn restore(&mut self) -> Result<(), ReadlineError>
        ensures does { Does (λ s v. edit_effect (update_steps v.saved.text v.saved.place) s v)
            self.old self.new result }
    {
        self.known = None;
        self.recorded
            .update(self.alloc, self.saved.text.as_str(), self.saved.pos)?;
        Ok(())
    }

    /// Goes back to the saved line.
    fn come_back(&mut self) -> Result<(), ReadlineError>
        ensures does { Does come_back_effect self.old self.new result }
    {
        let end = self.ctx.history().len();
        self.ctx.set_history_index(end);
        self.restore()?;
        self.refresh()
    }

    /// Saves the line if it leaves the history's end.
    pub(crate) fn backup_on_leaving(&mut self) -> Result<(), ReadlineError>
        ensures does { Does leave_effect self.old self.new result }
    {
        if self.ctx.history_index() == self.ctx.history().len() {
            self.backup()
        } else {
            Ok(())
        }
    }

    /// Shows an entry in place of the line, as one change, with the cursor at a place of it.
    fn show_entry(&mut self, index: usize, entry: &str, pos: usize) -> Result<(), ReadlineError>
        requires index { index ≤ length (setting_of self.old).entries }
        requires boundary { IsCharBoundary entry.now pos }
        ensures does { Does (entry_shown index entry.now pos) self.old self.new result }
    {
        self.ctx.set_history_index(index);
        self.known = None;
        self.recorded.update_grouped(self.alloc, entry, pos)?;
        self.refresh()
    }

    /// Shows an earlier entry, with the cursor at its end.
    fn recall_earlier(&mut self, index: usize, dir: SearchDirection) -> Result<(), ReadlineError>
        requires { index < length (setting_of self.old).entries }
        ensures does { Does (recall_earlier_effect index) self.old self.new result }
    {
        let Some(found) = self.ctx.history().get(index, dir) else {
            return Ok(());
        };
        self.backup_on_leaving()?;
        self.show_entry(index, found.entry, found.entry.len())
    }

    fn edit_previous_entry(&mut self) -> Result<(), ReadlineError>
        ensures does { Does (history_step true) self.old self.new result }
    {
        let place = self.ctx.history_index();
        if place == 0 {
            return Ok(());
        }
        self.recall_earlier(place - 1, SearchDirection::Reverse)
    }

    fn edit_next_entry(&mut self) -> Result<(), ReadlineError>
        ensures does { Does (history_step false) self.old self.new result }
    {
        let history = self.ctx.history();
        let place = self.ctx.history_index();
        if place == history.len() {
            return Ok(());
        }
        if place + 1 == history.len() {
            return self.come_back();
        }
        let Some(found) = history.get(place + 1, SearchDirection::Forward) else {
            return Ok(());
        };
        self.show_entry(place + 1, found.entry, found.entry.len())
    }

    /// Goes to the previous entry, or to the next one. Leaving the history's end saves the line;
    /// coming back to it restores it.
    pub fn edit_history_next(&mut self, prev: bool) -> Result<(), ReadlineError>
        ensures does { Does (history_step prev) self.old self.new result }
    {
        if prev {
            self.edit_previous_entry()
        } else {
            self.edit_next_entry()
        }
    }

    fn edit_first_entry(&mut self) -> Result<(), ReadlineError>
        ensures does { Does (history_end true) self.old self.new result }
    {
        let place = self.ctx.history_index();
        if place == 0 {
            return Ok(());
        }
        self.recall_earlier(0, SearchDirection::Forward)
    }

    fn edit_last_line(&mut self) -> Result<(), ReadlineError>
        ensures does { Does (history_end false) self.old self.new result }
    {
        if self.ctx.history_index() == self.ctx.history().len() {
            return Ok(());
        }
        self.come_back()
    }

    /// Goes to the first entry, or to the saved line.
    pub fn edit_history(&mut self, first: bool) -> Result<(), ReadlineError>
        ensures does { Does (history_end first) self.old self.new result }
    {
        if first {
            self.edit_first_entry()
        } else {
            self.edit_last_line()
        }
    }

    /// Shows the nearest entry from a place on that begins with the text before the cursor.
    fn search_from(&mut self, dir: SearchDirection, place: usize) -> Result<(), ReadlineError>
        requires { place ≤ length (setting_of self.old).entries }
        ensures does { Does (search_from dir place) self.old self.new result }
    {
        let history = self.ctx.history();
        self.ctx.set_history_index(place);
        let pos = self.recorded.line.pos();
        let Some(found) = history.starts_with(&self.recorded.line.as_str()[..pos], place, dir)
        else {
            return self.beep();
        };
        self.show_entry(found.idx, found.entry, found.pos)
    }

    /// Shows the nearest entry before or after the current one that begins with the text before the
    /// cursor. The place in the history moves by one even if there is none.
    pub fn edit_history_search(&mut self, dir: SearchDirection) -> Result<(), ReadlineError>
        ensures does { Does (history_search dir) self.old self.new result }
    {
        let place = self.ctx.history_index();
        let end = self.ctx.history().len();
        match dir {
            SearchDirection::Reverse => {
                if place == 0 {
                    return self.beep();
                }
                self.search_from(SearchDirection::Reverse, place - 1)
            }
            SearchDirection::Forward => {
                if place == end {
                    return self.beep();
                }
                self.search_from(SearchDirection::Forward, place + 1)
            }
        }
    }
}
