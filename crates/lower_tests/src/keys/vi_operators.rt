//! Vi: operators and their ranges. In the tables `@` stands for the operator's key, `{` and `}` for
//! what its command has around the range, `∘` for the place in a word to which `w` leads, and `§`
//! for the command of the key `q` after it.

use crate::keys::tables::each_count;
use line_config::EditMode;
use std::alloc::{AllocError, Global};
use std::test::Fail;

// An operator without a count, or with one before it.
const COUNTS_BEFORE: &str = "
    Esc @                     | <done> Move(BackwardChar(1));            | 1
    Esc 3 @                   | <done> Move(BackwardChar(1)); <3> <line> | 3
";

// With a count after it, and the product of both.
const COUNTS_AFTER: &str = "
    Esc @ 2                   | <done> Move(BackwardChar(1)); <2> <line>                                  | 2
    Esc 3 @ 2                 | <done> Move(BackwardChar(1)); <3> <line> <2> <line>                       | 6
    Esc 1 2 @ 3 0             | <done> Move(BackwardChar(1)); <1> <12> <line> <3> <30> <line>             | 360
    Esc 6 5 5 @ 1 0 0         | <done> Move(BackwardChar(1)); <6> <65> <655> <line> <1> <10> <100> <line> | 65500
    Esc 6 5 6 @ 1 0 0         | <done> Move(BackwardChar(1)); <6> <65> <656> <line> <1> <10> <100> <line> | 65535
    Esc 9 9 9 9 9 @ 9 9 9 9 9 | <done> Move(BackwardChar(1)); <9> <99> <999> <9999> <9999> <line> <9> <99> <999> <9999> <9999> <line> | 65535
";

// What the keys after an operator name, and those that cancel it.
const MOTIONS: &str = "
    then: §
    $             | {EndOfLine}
    ^             | {ViFirstPrint}
    b             | {BackwardWord(n, Vi)}
    B             | {BackwardWord(n, Big)}
    e             | {ForwardWord(n, AfterEnd, Vi)}
    E             | {ForwardWord(n, AfterEnd, Big)}
    f x           | {ViCharSearch(n, Forward('x'))}
    t x           | {ViCharSearch(n, ForwardBefore('x'))}
    F x           | {ViCharSearch(n, Backward('x'))}
    T x           | {ViCharSearch(n, BackwardAfter('x'))}
    f 5           | {ViCharSearch(n, Forward('5'))}
    h             | {BackwardChar(n)}
    C-H           | {BackwardChar(n)}
    Backspace     | {BackwardChar(n)}
    l             | {ForwardChar(n)}
    Space         | {ForwardChar(n)}
    j             | {LineDown(n)}
    +             | {LineDown(n)}
    k             | {LineUp(n)}
    -             | {LineUp(n)}
    w             | {ForwardWord(n, ∘, Vi)}
    W             | {ForwardWord(n, ∘, Big)}
    ;             | Unknown
    ,             | Unknown
    q             | Unknown
    x             | Unknown
    i             | Unknown
    a             | Unknown
    p             | Unknown
    u             | Unknown
    .             | Unknown
    r             | Unknown
    G             | Unknown
    D             | Unknown
    s             | Unknown
    é             | Unknown
    f Esc         | Unknown
    T C-G         | Unknown
    t A-x         | Unknown
    F Enter       | Unknown
    Esc           | Unknown
    Enter         | Unknown
    C-C           | Unknown
    C-D           | Unknown
    C-W           | Unknown
    C-G           | Unknown
    C-U           | Unknown
    A-w           | Unknown
    A-5           | Unknown
    S-w           | Unknown
    Left          | Unknown
    Right         | Unknown
    Home          | Unknown
    End           | Unknown
    Tab           | Unknown
    F1            | Unknown
    UnknownEscSeq | Unknown
";

// The operator's own key names the whole line, and `0` the line's beginning. After a second count
// the key cancels.
const WHOLE: &str = "
    then: §
    @             | {WholeLine}
    0             | {BeginningOfLine}
";

const NOT_WHOLE: &str = "
    then: §
    @             | Unknown
";

// One operator after another cancels it.
const OTHER_OPERATORS: &str = "
    Esc d y q           | <done> Move(BackwardChar(1)); Unknown; Unknown
    Esc d < q           | <done> Move(BackwardChar(1)); Unknown; Unknown
    Esc d > q           | <done> Move(BackwardChar(1)); Unknown; Unknown
    Esc d c q           | <done> Move(BackwardChar(1)); Unknown; Unknown
    Esc d 2 y q         | <done> Move(BackwardChar(1)); <2> <line> Unknown; Unknown
    Esc y d q           | <done> Move(BackwardChar(1)); Unknown; Unknown
    Esc y < q           | <done> Move(BackwardChar(1)); Unknown; Unknown
    Esc y > q           | <done> Move(BackwardChar(1)); Unknown; Unknown
    Esc y c q           | <done> Move(BackwardChar(1)); Unknown; Unknown
    Esc y 2 d q         | <done> Move(BackwardChar(1)); <2> <line> Unknown; Unknown
    Esc < d q           | <done> Move(BackwardChar(1)); Unknown; Unknown
    Esc < y q           | <done> Move(BackwardChar(1)); Unknown; Unknown
    Esc < > q           | <done> Move(BackwardChar(1)); Unknown; Unknown
    Esc < c q           | <done> Move(BackwardChar(1)); Unknown; Unknown
    Esc < 2 y q         | <done> Move(BackwardChar(1)); <2> <line> Unknown; Unknown
    Esc > d q           | <done> Move(BackwardChar(1)); Unknown; Unknown
    Esc > y q           | <done> Move(BackwardChar(1)); Unknown; Unknown
    Esc > < q           | <done> Move(BackwardChar(1)); Unknown; Unknown
    Esc > c q           | <done> Move(BackwardChar(1)); Unknown; Unknown
    Esc > 2 y q         | <done> Move(BackwardChar(1)); <2> <line> Unknown; Unknown
    Esc c d q           | <done> Move(BackwardChar(1)); Unknown; SelfInsert(1, 'q')
    Esc c y q           | <done> Move(BackwardChar(1)); Unknown; SelfInsert(1, 'q')
    Esc c < q           | <done> Move(BackwardChar(1)); Unknown; SelfInsert(1, 'q')
    Esc c > q           | <done> Move(BackwardChar(1)); Unknown; SelfInsert(1, 'q')
    Esc c 2 y q         | <done> Move(BackwardChar(1)); <2> <line> Unknown; SelfInsert(1, 'q')
";

pub(crate) const TABLES: [&str; 1] = [OTHER_OPERATORS];

/// An operator, by what the signs in the tables stand for.
#[derive(Clone, Copy, Drop)]
struct Operator {
    key: &'static str,
    before: &'static str,
    behind: &'static str,
    place: &'static str,
    then: &'static str,
}

const OPERATORS: [Operator; 5] = [
    Operator {
        key: "d",
        before: "Kill(",
        behind: ")",
        place: "Start",
        then: "Unknown",
    },
    Operator {
        key: "y",
        before: "ViYankTo(",
        behind: ")",
        place: "Start",
        then: "Unknown",
    },
    Operator {
        key: "<",
        before: "Dedent(",
        behind: ")",
        place: "Start",
        then: "Unknown",
    },
    Operator {
        key: ">",
        before: "Indent(",
        behind: ")",
        place: "Start",
        then: "Unknown",
    },
    Operator {
        key: "c",
        before: "Replace(",
        behind: ", None)",
        place: "AfterEnd",
        then: "SelfInsert(1, 'q')",
    },
];

// Writes a character, or what it stands for.
fn put(text: &mut String, c: char, operator: &Operator) -> Result<(), AllocError> {
    let meant = match c {
        '@' => operator.key,
        '{' => operator.before,
        '}' => operator.behind,
        '∘' => operator.place,
        '§' => operator.then,
        _ => return text.push(c),
    };
    text.push_str(meant)
}

// A table with what its signs stand for.
fn written(alloc: Global, table: &str, operator: &Operator) -> Result<String, AllocError> {
    let mut text = String::new(alloc);
    for c in table.chars() {
        put(&mut text, c, operator)?;
    }
    Ok(text)
}

// Types the keys of a table after an operator with each count.
fn operates(alloc: Global, operator: &Operator, counts: &str, table: &str) -> Result<(), Fail> {
    let counts = written(alloc, counts, operator)?;
    let table = written(alloc, table, operator)?;
    each_count(alloc, EditMode::Vi, counts.as_str(), table.as_str())
}

// The same with all keys and counts.
fn operates_on_all(alloc: Global, operator: &Operator) -> Result<(), Fail> {
    operates(alloc, operator, COUNTS_BEFORE, MOTIONS)?;
    operates(alloc, operator, COUNTS_BEFORE, WHOLE)?;
    operates(alloc, operator, COUNTS_AFTER, MOTIONS)?;
    operates(alloc, operator, COUNTS_AFTER, NOT_WHOLE)
}

#[test]
fn each_operator_with_each_motion(rt: HostRuntime) -> Result<(), Fail> {
    for operator in &OPERATORS {
        operates_on_all(rt.alloc(), operator)?;
    }
    Ok(())
}
