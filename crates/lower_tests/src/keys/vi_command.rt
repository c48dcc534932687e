//! Vi: command mode.

use crate::keys::tables::Desk;
use crate::keys::telling::{long_text, told};
use line_config::{EditMode, ReadlineError};
use stand_ins::rows::{raised, same};
use std::alloc::Global;
use std::test::Fail;

// Keys of a count, the requests to the display for them, and the count. Esc leaves insert mode, in
// which a line begins.
pub(crate) const COUNTS: &str = "
    Esc           | <done> Move(BackwardChar(1));                                     | 1
    Esc 1         | <done> Move(BackwardChar(1)); <1> <line>                          | 1
    Esc 5         | <done> Move(BackwardChar(1)); <5> <line>                          | 5
    Esc 1 2       | <done> Move(BackwardChar(1)); <1> <12> <line>                     | 12
    Esc 1 0 0 0 0 | <done> Move(BackwardChar(1)); <1> <10> <100> <1000> <1000> <line> | 1000
    Esc 9 9 9 9 9 | <done> Move(BackwardChar(1)); <9> <99> <999> <9999> <9999> <line> | 9999
";

// What stays in command mode, what enters insert mode, and what enters replace mode.
pub(crate) const COMMANDS: &str = "
    then: Unknown
    $             | Move(EndOfLine)
    End           | Move(EndOfLine)
    ^             | Move(ViFirstPrint)
    b             | Move(BackwardWord(n, Vi))
    B             | Move(BackwardWord(n, Big))
    D             | Kill(EndOfLine)
    C-K           | Kill(EndOfLine)
    e             | Move(ForwardWord(n, BeforeEnd, Vi))
    E             | Move(ForwardWord(n, BeforeEnd, Big))
    f x           | Move(ViCharSearch(n, Forward('x')))
    t x           | Move(ViCharSearch(n, ForwardBefore('x')))
    F x           | Move(ViCharSearch(n, Backward('x')))
    T x           | Move(ViCharSearch(n, BackwardAfter('x')))
    f 5           | Move(ViCharSearch(n, Forward('5')))
    f Esc         | Unknown
    t C-G         | Unknown
    F A-x         | Unknown
    T Enter       | Unknown
    f S-x         | Unknown
    ;             | Noop
    ,             | Noop
    .             | Noop
    p             | Yank(n, After)
    P             | Yank(n, Before)
    r x           | ReplaceChar(n, 'x')
    r 5           | ReplaceChar(n, '5')
    r Esc         | Noop
    r Enter       | Unknown
    r C-G         | Unknown
    r A-x         | Unknown
    u             | Undo(n)
    w             | Move(ForwardWord(n, Start, Vi))
    W             | Move(ForwardWord(n, Start, Big))
    x             | Kill(ForwardChar(n))
    X             | Kill(BackwardChar(n))
    h             | Move(BackwardChar(n))
    C-H           | Move(BackwardChar(n))
    Backspace     | Move(BackwardChar(n))
    l             | Move(ForwardChar(n))
    Space         | Move(ForwardChar(n))
    C-G           | Abort
    C-L           | ClearScreen
    Esc           | Noop
    +             | LineDownOrNextHistory(n)
    j             | LineDownOrNextHistory(n)
    -             | LineUpOrPreviousHistory(n)
    k             | LineUpOrPreviousHistory(n)
    C-N           | NextHistory
    C-P           | PreviousHistory
    Home          | Move(BeginningOfLine)
    Left          | Move(BackwardChar(n))
    Right         | Move(ForwardChar(n))
    C-D           | EndOfFile
    Delete        | Kill(ForwardChar(n))
    C-J           | AcceptOrInsertLine { accept_in_the_middle: true }
    C-M           | AcceptOrInsertLine { accept_in_the_middle: true }
    Enter         | AcceptOrInsertLine { accept_in_the_middle: true }
    Down          | LineDownOrNextHistory(1)
    Up            | LineUpOrPreviousHistory(1)
    C-Q           | QuotedInsert
    C-V           | QuotedInsert
    C-T           | TransposeChars
    C-_           | Undo(n)
    C-U           | Kill(BeginningOfLine)
    C-W           | Kill(BackwardWord(n, Big))
    C-Y           | Yank(n, Before)
    UnknownEscSeq | Noop
    PasteStart text:ab | Insert(1, \"ab\")
    Tab           | Unknown
    BackTab       | Unknown
    C-I           | Unknown
    C-A           | Unknown
    C-X           | Unknown
    F1            | Unknown
    A-x           | Unknown
    A-5           | Unknown
    S-x           | Unknown
    G             | Unknown
    U             | Unknown
    Y             | Unknown
    %             | Unknown
    ~             | Unknown
    /             | Unknown
    n             | Unknown
    N             | Unknown
    é             | Unknown
    C-C           | Interrupt
    C-\\          | Interrupt
    C-Z           | Suspend

    then: SelfInsert(1, 'q')
    a             | <insert> Move(ForwardChar(n))
    A             | <insert> Move(EndOfLine)
    i             | <insert> Noop
    I             | <insert> Move(BeginningOfLine)
    C             | Replace(EndOfLine, None)
    s             | Replace(ForwardChar(n), None)
    S             | Replace(WholeLine, None)
    C-R           | ReverseSearchHistory
    C-S           | ForwardSearchHistory

    then: Overwrite('q')
    R             | Replace(ForwardChar(0), None)
";

// The command of `0` if no count is typed, and what ends a count.
const NO_COUNT: &str = "
    Esc 0 q              | <done> Move(BackwardChar(1)); Move(BeginningOfLine); Unknown
    Esc 0 5 x            | <done> Move(BackwardChar(1)); Move(BeginningOfLine); <5> <line> Kill(ForwardChar(5))
    Esc 5 0 x            | <done> Move(BackwardChar(1)); <5> <50> <line> Kill(ForwardChar(50))
    Esc 5 A-1 x          | <done> Move(BackwardChar(1)); <5> <line> Unknown; Kill(ForwardChar(1))
    Esc 5 - x            | <done> Move(BackwardChar(1)); <5> <line> LineUpOrPreviousHistory(5); Kill(ForwardChar(1))
    Esc 5 C-C x          | <done> Move(BackwardChar(1)); <5> <line> Interrupt; Kill(ForwardChar(1))
    Esc d C-C x          | <done> Move(BackwardChar(1)); Unknown; Kill(ForwardChar(1))
    Esc f C-C x          | <done> Move(BackwardChar(1)); Unknown; Kill(ForwardChar(1))
";

// The input ends, or has no key, in the middle of a phrase of command mode.
const CUT: &str = "
    Esc 5                | <done> Move(BackwardChar(1)); <5> Eof left 0
    Esc 5 0 !bad         | <done> Move(BackwardChar(1)); <5> <50> NotUtf8 left 0
    Esc 5 text:ab x      | <done> Move(BackwardChar(1)); <5> PasteOutOfPlace left 2
    Esc d                | <done> Move(BackwardChar(1)); Eof left 0
    Esc c !failed        | <done> Move(BackwardChar(1)); Reader left 0
    Esc 3 y 2            | <done> Move(BackwardChar(1)); <3> <line> <2> Eof left 0
    Esc 3 > 2 !bad       | <done> Move(BackwardChar(1)); <3> <line> <2> NotUtf8 left 0
    Esc < f              | <done> Move(BackwardChar(1)); Eof left 0
    Esc < f text:ab x    | <done> Move(BackwardChar(1)); PasteOutOfPlace left 2
    Esc f !failed        | <done> Move(BackwardChar(1)); Reader left 0
    Esc r                | <done> Move(BackwardChar(1)); Eof left 0
    Esc r PasteStart text:ab x | <done> Move(BackwardChar(1)); Unknown; PasteOutOfPlace left 2
    Esc d PasteStart text:ab x | <done> Move(BackwardChar(1)); Unknown; PasteOutOfPlace left 2
    Esc PasteStart !cut  | <done> Move(BackwardChar(1)); Eof left 0
";

// Searches for a character, as they are remembered.
const SEARCHES: &str = "
    A-f x ; , 3 ; , ,    | <done> Move(ViCharSearch(1, Forward('x'))); Move(ViCharSearch(1, Forward('x'))); Move(ViCharSearch(1, Backward('x'))); <3> <line> Move(ViCharSearch(3, Forward('x'))); Move(ViCharSearch(1, Backward('x'))); Move(ViCharSearch(1, Backward('x')))
    A-t x ; ,            | <done> Move(ViCharSearch(1, ForwardBefore('x'))); Move(ViCharSearch(1, ForwardBefore('x'))); Move(ViCharSearch(1, BackwardAfter('x')))
    A-F x ; ,            | <done> Move(ViCharSearch(1, Backward('x'))); Move(ViCharSearch(1, Backward('x'))); Move(ViCharSearch(1, Forward('x')))
    A-T x ; ,            | <done> Move(ViCharSearch(1, BackwardAfter('x'))); Move(ViCharSearch(1, BackwardAfter('x'))); Move(ViCharSearch(1, ForwardBefore('x')))
    A-f x f Esc ;        | <done> Move(ViCharSearch(1, Forward('x'))); Unknown; Move(ViCharSearch(1, Forward('x')))
    A-f x d t y ; d ,    | <done> Move(ViCharSearch(1, Forward('x'))); Kill(ViCharSearch(1, ForwardBefore('y'))); Move(ViCharSearch(1, ForwardBefore('y'))); Kill(ViCharSearch(1, BackwardAfter('y')))
    A-f x 2 y 3 ; c ,    | <done> Move(ViCharSearch(1, Forward('x'))); <2> <line> <3> <line> ViYankTo(ViCharSearch(6, Forward('x'))); Replace(ViCharSearch(1, Backward('x')), None)
    A-f x i f y Esc ;    | <done> Move(ViCharSearch(1, Forward('x'))); <insert> Noop; SelfInsert(1, 'f'); SelfInsert(1, 'y'); <done> Move(BackwardChar(1)); Move(ViCharSearch(1, Forward('x')))
    A-f x Enter ;        | <done> Move(ViCharSearch(1, Forward('x'))); AcceptOrInsertLine { accept_in_the_middle: true }; Move(ViCharSearch(1, Forward('x')))
    A-; d ; d ,          | <done> Noop; Unknown; Unknown
";

// Changes repeated by `.`, without a text inserted before, and with the text `kl`.
const DOTS: &str = "
    k l A-. 2 .          | SelfInsert(1, 'k'); SelfInsert(1, 'l'); <done> SelfInsert(1, 'k'); <2> <line> SelfInsert(2, 'k')
    A-R Esc .            | <done> Replace(ForwardChar(0), None); <done> Move(BackwardChar(1)); Replace(ForwardChar(0), None)
    A-c w Esc 2 .        | <done> Replace(ForwardWord(1, AfterEnd, Vi), None); <done> Move(BackwardChar(1)); <2> <line> Replace(ForwardWord(2, AfterEnd, Vi), None)

    inserted: kl
    A-x . 3 . .          | <done> Kill(ForwardChar(1)); Kill(ForwardChar(1)); <3> <line> Kill(ForwardChar(3)); Kill(ForwardChar(3))
    A-3 x .              | <done> <3> <line> Kill(ForwardChar(3)); Kill(ForwardChar(3))
    A-X .                | <done> Kill(BackwardChar(1)); Kill(BackwardChar(1))
    A-D 5 .              | <done> Kill(EndOfLine); <5> <line> Kill(EndOfLine)
    A-d w 4 .            | <done> Kill(ForwardWord(1, Start, Vi)); <4> <line> Kill(ForwardWord(4, Start, Vi))
    A-d d .              | <done> Kill(WholeLine); Kill(WholeLine)
    A-d f x 2 .          | <done> Kill(ViCharSearch(1, Forward('x'))); <2> <line> Kill(ViCharSearch(2, Forward('x')))
    A-> j 2 .            | <done> Indent(LineDown(1)); <2> <line> Indent(LineDown(2))
    A-< k .              | <done> Dedent(LineUp(1)); Dedent(LineUp(1))
    A-y b 2 .            | <done> ViYankTo(BackwardWord(1, Vi)); <2> <line> ViYankTo(BackwardWord(2, Vi))
    A-p 2 .              | <done> Yank(1, After); <2> <line> Yank(2, After)
    A-P .                | <done> Yank(1, Before); Yank(1, Before)
    A-r x 2 .            | <done> ReplaceChar(1, 'x'); <2> <line> ReplaceChar(2, 'x')
    A-PasteStart u       | Unknown; SelfInsert(1, 'u')
    Esc PasteStart text:ab 2 . | <done> Move(BackwardChar(1)); Insert(1, \"ab\"); <2> <line> Insert(2, \"ab\")
    A-C x Esc .          | <done> Replace(EndOfLine, None); SelfInsert(1, 'x'); <done> Move(BackwardChar(1)); Replace(EndOfLine, Some(\"kl\"))
    A-c w x y Esc 3 . .  | <done> Replace(ForwardWord(1, AfterEnd, Vi), None); SelfInsert(1, 'x'); SelfInsert(1, 'y'); <done> Move(BackwardChar(1)); <3> <line> Replace(ForwardWord(3, AfterEnd, Vi), Some(\"kl\")); Replace(ForwardWord(3, AfterEnd, Vi), Some(\"kl\"))
    A-2 s x Esc .        | <done> <2> <line> Replace(ForwardChar(2), None); SelfInsert(1, 'x'); <done> Move(BackwardChar(1)); Replace(ForwardChar(2), Some(\"kl\"))
    A-R x y Esc . 7 .    | <done> Replace(ForwardChar(0), None); Overwrite('x'); Overwrite('y'); <done> Move(BackwardChar(1)); Replace(ForwardChar(2), Some(\"kl\")); <7> <line> Replace(ForwardChar(7), Some(\"kl\"))
    k l A-. 2 .          | SelfInsert(1, 'k'); SelfInsert(1, 'l'); <done> Insert(1, \"kl\"); <2> <line> Insert(2, \"kl\")
    A-i k l Esc 3 .      | <done> <insert> Noop; SelfInsert(1, 'k'); SelfInsert(1, 'l'); <done> Move(BackwardChar(1)); <3> <line> Insert(3, \"kl\")
    k Backspace A-.      | SelfInsert(1, 'k'); Kill(BackwardChar(1)); <done> Kill(BackwardChar(1))
    A-x w . f x .        | <done> Kill(ForwardChar(1)); Move(ForwardWord(1, Start, Vi)); Kill(ForwardChar(1)); Move(ViCharSearch(1, Forward('x'))); Kill(ForwardChar(1))
    A-x u . d Esc . r Esc . | <done> Kill(ForwardChar(1)); Undo(1); Kill(ForwardChar(1)); Unknown; Kill(ForwardChar(1)); Noop; Kill(ForwardChar(1))
    A-x Enter .          | <done> Kill(ForwardChar(1)); AcceptOrInsertLine { accept_in_the_middle: true }; Kill(ForwardChar(1))
    A-w .                | <done> Move(ForwardWord(1, Start, Vi)); Noop
    PasteStart text:ab A-. | Insert(1, \"ab\"); <done> Insert(1, \"ab\")
    C-Y A-2 .            | Yank(1, Before); <done> <2> <line> Yank(2, Before)
    C-W x A-.            | Kill(BackwardWord(1, Big)); SelfInsert(1, 'x'); <done> Insert(1, \"kl\")
";

// The commands of keys if this text was inserted before.
fn told_behind(alloc: Global, inserted: &str) -> Result<String, ReadlineError> {
    let mut desk = Desk::new(alloc, EditMode::Vi)?;
    desk.inserted = Some(inserted);
    told(&desk, true, "Esc R Esc .")
}

// The same, with a word for the text.
fn replacement_told(alloc: Global, inserted: &str) -> Result<String, ReadlineError> {
    let said = told_behind(alloc, inserted)?;
    raised(said.replace(alloc, inserted, "LONG"))
}

#[test]
fn a_long_text_typed_over(rt: HostRuntime) -> Result<(), Fail> {
    let long = long_text(rt.alloc())?;
    let said = replacement_told(rt.alloc(), long.as_str())?;
    same(
        said.as_str(),
        "<done> Move(BackwardChar(1)); Replace(ForwardChar(0), None); <done> Move(BackwardChar(1)); Replace(ForwardChar(65535), Some(\"LONG\"))",
    )
}

pub(crate) const TABLES: [&str; 4] = [NO_COUNT, CUT, SEARCHES, DOTS];
