//! A line with its undo record, and a kill ring that is notified of its kills first.

ghost use Rattle.line_record.specs.Items.{ItemsStand, ItemsStand-prop};
ghost use Rattle.line_record.specs.Together.{SameNames};

use line_buffer::{LineBuffer, Movement, NoListener, OutOfMemory, Word, WordAction};
use line_record::{Changeset, Joined, KillRing};
use stand_ins::rows::done;
use std::alloc::Global;

/// The text of the line when a case begins.
pub const START: &str = "one two three ";

/// The number of the record's items then: the letters of two words, a group, a letter and a kill.
pub const ITEMS: usize = 5;

#[derive(Drop)]
pub struct Desk {
    line: LineBuffer,
    changes: Changeset,
    ring: KillRing,
    alloc: Global,
    ghost stand: { ItemsStand changes line.text } by { ItemsStand-prop changes line.text },
}

impl Desk {
    /// A line on which `START` was typed, and text after it killed.
    pub(crate) fn new(alloc: Global) -> Result<Self, OutOfMemory> {
        let mut desk = Desk::empty(alloc)?;
        desk.type_start()?;
        Ok(desk)
    }

    fn type_start(&mut self) -> Result<(), OutOfMemory> {
        self.type_group()?;
        self.kill_last()
    }

    fn empty(alloc: Global) -> Result<Self, OutOfMemory> {
        let line = LineBuffer::with_capacity(alloc, 0)?.can_growth(true);
        let changes = Changeset::new(alloc)?;
        Ok(Desk {
            line,
            changes,
            ring: KillRing::new(alloc, 2)?,
            alloc,
        })
    }

    /// Types two words, and more in a group.
    fn type_group(&mut self) -> Result<(), OutOfMemory> {
        self.type_text("one two")?;
        self.begin()?;
        self.paste(" three")?;
        self.type_text(" fou")
    }

    /// Ends the group, and kills a word with the letter after it.
    fn kill_last(&mut self) -> Result<(), OutOfMemory> {
        self.end()?;
        self.type_text("r")?;
        self.kill_word_back()
    }

    /// Removes the spare capacity of the line.
    pub(crate) fn tighten(&mut self) -> Result<(), OutOfMemory> {
        self.line = self.line.try_clone(self.alloc)?;
        Ok(())
    }

    pub(crate) fn copy_of_line(&self) -> Result<LineBuffer, OutOfMemory> {
        self.line.try_clone(self.alloc)
    }

    pub(crate) fn text(&self) -> &str {
        self.line.as_str()
    }

    pub(crate) fn pos(&self) -> usize {
        self.line.pos()
    }

    pub(crate) fn move_to_start(&mut self) {
        self.line.move_buffer_start();
    }

    pub(crate) fn type_text(&mut self, text: &str) -> Result<(), OutOfMemory> {
        for c in text.chars() {
            self.type_char(c)?;
        }
        Ok(())
    }

    fn type_char(&mut self, c: char) -> Result<(), OutOfMemory> {
        let _text = self.line.as_str();
        done(self.line.insert(self.alloc, c, 1, &mut self.changes))
    }

    pub(crate) fn paste(&mut self, text: &str) -> Result<(), OutOfMemory> {
        let _text = self.line.as_str();
        done(self.line.yank(self.alloc, text, 1, &mut self.changes))
    }

    pub(crate) fn backspace(&mut self) -> Result<(), OutOfMemory> {
        let _text = self.line.as_str();
        done(self.line.backspace(self.alloc, 1, &mut self.changes))
    }

    pub(crate) fn update(&mut self, text: &str) -> Result<(), OutOfMemory> {
        let _text = self.line.as_str();
        let place = text.len();
        done(self.line.update(self.alloc, text, place, &mut self.changes))
    }

    /// Replaces the text between two places by another.
    pub(crate) fn replace(
        &mut self,
        from: usize,
        upto: usize,
        text: &str,
    ) -> Result<(), OutOfMemory> {
        let here = self.line.as_str();
        if from > upto || !here.is_char_boundary(from) || !here.is_char_boundary(upto) {
            return Ok(());
        }
        done(
            self.line
                .replace(self.alloc, from..upto, text, &mut self.changes),
        )
    }

    pub(crate) fn raise_word(&mut self) -> Result<(), OutOfMemory> {
        let _text = self.line.as_str();
        done(
            self.line
                .edit_word(self.alloc, WordAction::Uppercase, &mut self.changes),
        )
    }

    pub(crate) fn transpose_words(&mut self) -> Result<(), OutOfMemory> {
        let _text = self.line.as_str();
        done(self.line.transpose_words(self.alloc, 1, &mut self.changes))
    }

    pub(crate) fn indent_all(&mut self) -> Result<(), OutOfMemory> {
        let _text = self.line.as_str();
        let all = &Movement::WholeBuffer;
        done(
            self.line
                .indent(self.alloc, all, 2, false, &mut self.changes),
        )
    }

    pub(crate) fn kill_word_back(&mut self) -> Result<(), OutOfMemory> {
        let mut both = Joined {
            first: &mut self.ring,
            second: &mut self.changes,
        };
        kill_both(self.alloc, &mut self.line, &mut both)
    }

    pub(crate) fn end_run(&mut self) {
        self.ring.reset();
    }

    pub(crate) fn begin(&mut self) -> Result<usize, OutOfMemory> {
        self.changes.begin(self.alloc)
    }

    pub(crate) fn end(&mut self) -> Result<bool, OutOfMemory> {
        let _text = self.line.as_str();
        self.changes.end(self.alloc)
    }

    pub(crate) fn undo(&mut self, n: u16) -> Result<bool, OutOfMemory> {
        self.changes.undo(self.alloc, &mut self.line, n)
    }

    pub(crate) fn redo(&mut self) -> Result<bool, OutOfMemory> {
        self.changes.redo(self.alloc, &mut self.line)
    }

    /// Whether the text inserted last, copied, is this one.
    pub(crate) fn last_insert_is(&self, text: &str) -> Result<bool, OutOfMemory> {
        match self.changes.last_insert(self.alloc)? {
            Some(inserted) => Ok(inserted.as_str() == text),
            None => Ok(false),
        }
    }

    /// Whether a copy of the record has the same text inserted last.
    pub(crate) fn copies_record(&self) -> Result<bool, OutOfMemory> {
        let copy = self.changes.try_clone(self.alloc)?;
        Ok(copy.last_insert_text() == self.changes.last_insert_text())
    }

    /// Whether the ring's current slot has this text.
    pub(crate) fn yanks(&mut self, text: &str) -> bool {
        self.ring.yank() == Some(text)
    }

    /// Whether the cursor is at a character boundary.
    pub(crate) fn has_cursor(&self) -> bool {
        self.line.as_str().is_char_boundary(self.line.pos())
    }

    /// Whether nothing is recorded, so that nothing can be undone or redone.
    pub(crate) fn has_no_record(&mut self) -> Result<bool, OutOfMemory> {
        let inserted = self.changes.last_insert_text().is_some();
        let undone = self.undo(1)?;
        let made = self.redo()?;
        Ok(!inserted && !undone && !made)
    }
}

fn kill_both(
    alloc: Global,
    line: &mut LineBuffer,
    both: &mut Joined<'_, KillRing, Changeset>,
) -> Result<(), OutOfMemory>
    requires { ItemsStand both.old.second.now line.old.text }
    ensures stand { ItemsStand both.new.second.now line.new.text }
    ensures names { SameNames both.old.first both.old.second both.new.first both.new.second }
{
    let _text = line.as_str();
    line.kill(alloc, &Movement::BackwardWord(1, Word::Emacs), both)?;
    Ok(())
}
