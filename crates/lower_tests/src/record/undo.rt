//! A line with its undo record. A row is a call; after `=` come its answer and the line then, with
//! `|` at the cursor. `line` begins with another line and an empty record.

ghost use Rattle.line_record.specs.Items.{ItemsStand, ItemsStand-prop};

use line_buffer::{LineBuffer, OutOfMemory};
use line_record::Changeset;
use stand_ins::lines::{line_of, shown_of};
use stand_ins::rows::{Player, done, raised, rows_hold};
use stand_ins::tables::word_and_rest;
use std::alloc::Global;
use std::test::Fail;

/// A line with its record.
#[derive(Drop)]
struct Desk {
    line: LineBuffer,
    changes: Changeset,
    alloc: Global,
    ghost stand: { ItemsStand changes line.text } by { ItemsStand-prop changes line.text },
}

impl Desk {
    /// A line in a table's notation, with an empty record.
    fn new(alloc: Global, shown: &str) -> Result<Self, OutOfMemory> {
        let line = line_of(alloc, shown)?;
        let changes = Changeset::new(alloc)?;
        Ok(Desk {
            line,
            changes,
            alloc,
        })
    }

    /// Types the characters one by one.
    fn put(&mut self, text: &str) -> Result<bool, OutOfMemory> {
        for c in text.chars() {
            self.type_char(c)?;
        }
        Ok(true)
    }

    fn type_char(&mut self, c: char) -> Result<(), OutOfMemory> {
        let _text = self.line.as_str();
        done(self.line.insert(self.alloc, c, 1, &mut self.changes))
    }

    fn begin(&mut self) -> Result<usize, OutOfMemory> {
        self.changes.begin(self.alloc)
    }

    fn end(&mut self) -> Result<bool, OutOfMemory> {
        let _text = self.line.as_str();
        self.changes.end(self.alloc)
    }

    fn undo(&mut self, n: u16) -> Result<bool, OutOfMemory> {
        self.changes.undo(self.alloc, &mut self.line, n)
    }

    fn redo(&mut self) -> Result<bool, OutOfMemory> {
        self.changes.redo(self.alloc, &mut self.line)
    }

    /// Makes a call, and returns its answer: of `begin` whether something is before the mark, of
    /// `put` and `line` always the same.
    fn ask(&mut self, call: &str, text: &str) -> Result<bool, OutOfMemory> {
        match call {
            "put" => self.put(text),
            "begin" => Ok(self.begin()? > 0),
            "end" => self.end(),
            "undo" => self.undo(text.parse().unwrap_or(1)),
            "redo" => self.redo(),
            _ => Ok(true),
        }
    }

    /// Makes a call, and returns its answer and the line then.
    fn step(&mut self, call: &str, text: &str) -> Result<String, OutOfMemory> {
        let answer = self.ask(call, text)?;
        let shown = shown_of(self.alloc, &self.line)?;
        raised(format!(in self.alloc; "{answer} {shown}"))
    }
}

impl Player for Desk {
    fn play(&mut self, alloc: Global, call: &str) -> Result<String, Fail> {
        let (call, text) = word_and_rest(call);
        if call == "line" {
            *self = Desk::new(alloc, text)?;
        }
        raised(self.step(call, text))
    }
}

const ROWS: &str = "
    put ab c = true ab c|
    undo 1 = true ab|
    undo 1 = true |
    undo 1 = false |
    redo = true ab|
    redo = true ab c|
    redo = false ab c|
    undo 0 = true ab|
    put x = true abx|
    redo = false abx|

    line | = true |
    begin = false |
    end = false |
    undo 1 = false |
    put a = true a|
    begin = true a|
    put b = true ab|
    begin = true ab|
    put c = true abc|
    end = true abc|
    end = false abc|
    begin = true abc|
    end = false abc|
    put d = true abcd|
    undo 1 = true abc|
    undo 1 = true a|
    redo = true abc|
    undo 2 = true |

    line |漢 = true |漢
    begin = false |漢
    put é b é d é f é h é j = true é b é d é f é h é j|漢
    end = true é b é d é f é h é j|漢
    undo 1 = true |漢
    redo = true é b é d é f é h é j|漢
    put x = true é b é d é f é h é jx|漢
    undo 2 = true |漢

    line | = true |
    put a = true a|
    begin = true a|
    put b = true ab|
    undo 1 = true a|
    undo 1 = false a|
    redo = false a|
    redo = true ab|
    ";

/// The long group has more changes than are made in the line one by one.
#[test]
fn changes_undone_and_made_anew(rt: HostRuntime) -> Result<(), Fail> {
    let mut desk = Desk::new(rt.alloc(), "")?;
    rows_hold(rt.alloc(), &mut desk, ROWS)
}
