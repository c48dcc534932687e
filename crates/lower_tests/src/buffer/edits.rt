//! Insertions into lines of four bytes that can't grow, and into one of them when it can. A row is
//! a call, a number and a text; after `=` come the call's answer, if it has one, and the line then.

use line_buffer::{LineBuffer, NoListener, OutOfMemory, RepeatCount};
use stand_ins::lines::shown_of;
use stand_ins::rows::{Player, misread, raised, rows_hold};
use stand_ins::tables::word_and_rest;
use std::alloc::Global;
use std::test::Fail;

/// A line on which each row's call is made.
#[derive(Drop)]
struct Tight {
    line: LineBuffer,
}

/// Inserts text at the cursor; `None` also if the call has no answer.
fn put(
    alloc: Global,
    line: &mut LineBuffer,
    call: &str,
    n: RepeatCount,
    text: &str,
) -> Result<Option<bool>, OutOfMemory> {
    let place = usize::from(n);
    match call {
        "insert" => line.insert(
            alloc,
            text.chars().next().unwrap_or(' '),
            n,
            &mut NoListener,
        ),
        "yank" => line.yank(alloc, text, n, &mut NoListener),
        "yank_pop" if line.can_take_before(place) => {
            line.yank_pop(alloc, place, text, &mut NoListener)
        }
        "update" if text.is_char_boundary(place) => {
            line.update(alloc, text, place, &mut NoListener)?;
            Ok(None)
        }
        _ => Ok(None),
    }
}

impl Player for Tight {
    fn play(&mut self, alloc: Global, call: &str) -> Result<String, Fail> {
        let (call, words) = word_and_rest(call);
        let (count, text) = word_and_rest(words);
        let Ok(n) = count.parse() else {
            return Err(misread("no number", words));
        };
        let answer = put(alloc, &mut self.line, call, n, text)?;
        let shown = shown_of(alloc, &self.line)?;
        raised(format!(in alloc; "{answer:?} {shown}"))
    }
}

const WITHOUT_LEAVE_TO_GROW: &str = "
    update 0           = None |
    insert 2 é         = Some(true) éé|
    insert 1 x         = None éé|
    yank 1 ab          = None éé|
    insert 65535 x     = None éé|
    yank 65535 ab      = None éé|
    insert 0 x         = Some(true) éé|
    update 7 ééefg     = None éé|
    insert 0 x         = Some(true) éé|

    update 0           = None |
    insert 2 é         = Some(true) éé|
    yank_pop 2 abc     = None é|
    yank_pop 2 abcd    = Some(true) abcd|

    update 0           = None |
    update 6 abéé      = None abé|
    update 1 abcéé     = None a|bc
    ";

const WITH_LEAVE: &str = "
    update 4 abéé      = None abé|é
    insert 1 x         = Some(false) abéx|é
    ";

#[test]
fn lines_without_leave_to_grow(rt: HostRuntime) -> Result<(), Fail> {
    let line = LineBuffer::with_capacity(rt.alloc(), 4)?;
    rows_hold(rt.alloc(), &mut Tight { line }, WITHOUT_LEAVE_TO_GROW)?;
    let line = LineBuffer::with_capacity(rt.alloc(), 4)?.can_growth(true);
    rows_hold(rt.alloc(), &mut Tight { line }, WITH_LEAVE)
}
