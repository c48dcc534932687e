//! Vi: insert and replace mode.

pub(crate) const NO_COUNT: &str = "| | 1";

// Insert mode.
pub(crate) const INSERT: &str = "
    then: SelfInsert(1, 'q')
    x             | SelfInsert(1, 'x')
    é             | SelfInsert(1, 'é')
    5             | SelfInsert(1, '5')
    0             | SelfInsert(1, '0')
    -             | SelfInsert(1, '-')
    .             | SelfInsert(1, '.')
    Space         | SelfInsert(1, ' ')
    C-H           | Kill(BackwardChar(1))
    Backspace     | Kill(BackwardChar(1))
    BackTab       | CompleteBackward
    C-I           | Complete
    Tab           | Complete
    Home          | Move(BeginningOfLine)
    End           | Move(EndOfLine)
    Left          | Move(BackwardChar(1))
    Right         | Move(ForwardChar(1))
    C-D           | EndOfFile
    Delete        | Kill(ForwardChar(1))
    C-J           | AcceptOrInsertLine { accept_in_the_middle: true }
    C-M           | AcceptOrInsertLine { accept_in_the_middle: true }
    Enter         | AcceptOrInsertLine { accept_in_the_middle: true }
    Down          | LineDownOrNextHistory(1)
    Up            | LineUpOrPreviousHistory(1)
    C-R           | ReverseSearchHistory
    C-S           | ForwardSearchHistory
    C-Q           | QuotedInsert
    C-V           | QuotedInsert
    C-T           | TransposeChars
    C-_           | Undo(1)
    C-U           | Kill(BeginningOfLine)
    C-W           | Kill(BackwardWord(1, Big))
    C-Y           | Yank(1, Before)
    UnknownEscSeq | Noop
    PasteStart text:ab | Insert(1, \"ab\")
    C-A           | Unknown
    C-E           | Unknown
    C-G           | Unknown
    C-K           | Unknown
    C-L           | Unknown
    C-N           | Unknown
    C-P           | Unknown
    C-X           | Unknown
    C-]           | Unknown
    C-A-x         | Unknown
    C-A-]         | Unknown
    A-Left        | Unknown
    A-Backspace   | Unknown
    C-Left        | Unknown
    F1            | Unknown
    PageUp        | Unknown
    S-x           | Unknown
    C-C           | Interrupt
    C-\\          | Interrupt
    C-Z           | Suspend
";

// How insert and replace mode are left and entered.
const MODES: &str = "
    Esc u                | <done> Move(BackwardChar(1)); Undo(1)
    Esc Esc u            | <done> Move(BackwardChar(1)); Noop; Undo(1)
    Esc i Esc u          | <done> Move(BackwardChar(1)); <insert> Noop; <done> Move(BackwardChar(1)); Undo(1)
    Esc R x 5 Esc u      | <done> Move(BackwardChar(1)); Replace(ForwardChar(0), None); Overwrite('x'); Overwrite('5'); <done> Move(BackwardChar(1)); Undo(1)
    Esc R Backspace Tab Left C-T x | <done> Move(BackwardChar(1)); Replace(ForwardChar(0), None); Kill(BackwardChar(1)); Complete; Move(BackwardChar(1)); TransposeChars; Overwrite('x')
    Esc R A-x x          | <done> Move(BackwardChar(1)); Replace(ForwardChar(0), None); <done> Kill(ForwardChar(1)); Kill(ForwardChar(1))
    A-d d u              | <done> Kill(WholeLine); Undo(1)
    A-x u                | <done> Kill(ForwardChar(1)); Undo(1)
    A-i u                | <done> <insert> Noop; SelfInsert(1, 'u')
    A-R u                | <done> Replace(ForwardChar(0), None); Overwrite('u')
    A-c w u              | <done> Replace(ForwardWord(1, AfterEnd, Vi), None); SelfInsert(1, 'u')
    A-3 x                | <done> <3> <line> Kill(ForwardChar(3))
    A-3 0 d 2 w          | <done> <3> <30> <line> <2> <line> Kill(ForwardWord(60, Start, Vi))
    A-0 u                | <done> Move(BeginningOfLine); Undo(1)
    A-- u                | <done> LineUpOrPreviousHistory(1); Undo(1)
    A-f x ;              | <done> Move(ViCharSearch(1, Forward('x'))); Move(ViCharSearch(1, Forward('x')))
    A-é u                | <done> Unknown; Undo(1)

    modes:
    x Esc R Esc          | SelfInsert(1, 'x') in insert mode; <done> Move(BackwardChar(1)) in command mode; Replace(ForwardChar(0), None) in insert mode; <done> Move(BackwardChar(1)) in command mode
";

// The input ends, or has no key, in the middle of a phrase of insert mode.
const CUT: &str = "
                         | Eof left 0
    !bad                 | NotUtf8 left 0
    text:ab x            | PasteOutOfPlace left 2
    PasteStart           | PasteOutOfPlace left 0
    PasteStart !cut      | Eof left 0
    PasteStart !cut !failed | Reader left 0
    A-d                  | <done> Eof left 0
    A-d !bad             | <done> NotUtf8 left 0
    A-3                  | <done> <3> Eof left 0
    A-3 d !failed        | <done> <3> <line> Reader left 0
    A-r text:ab x        | <done> PasteOutOfPlace left 2
";

const CONDITIONS: &str = "
    line: |
    C-D                  | EndOfFile
    Esc C-D              | <done> Move(BackwardChar(1)); EndOfFile
    Esc 5 C-D            | <done> Move(BackwardChar(1)); <5> <line> EndOfFile
    Esc d C-D            | <done> Move(BackwardChar(1)); Unknown

    line: ab|
    hint: c
    Right                | CompleteHint
    A-x                  | <done> Kill(ForwardChar(1))
    Esc Right            | <done> Move(BackwardChar(1)); Move(ForwardChar(1))
    Esc R Right          | <done> Move(BackwardChar(1)); Replace(ForwardChar(0), None); CompleteHint

    line: a|b
    Right                | Move(ForwardChar(1))
";

// Bindings, first in insert mode and then, after Alt with `u`, in command mode.
const BOUND: &str = "
    bind: C-O          = SelfInsert 2 y
    bind: C-T          = Kill BackwardChar 2
    bind: C-N          = Undo 3
    bind: z            = Kill ForwardChar 4
    bind: Esc          = AcceptLine
    bind: 3            = Abort
    bind: C-X C-E      = Repaint
    bind: C-X C-K      = Kill EndOfLine
    ask: C-L           = Count
    ask: C-P           = Nothing
    ask: C-X C-B       = Count
    ask: C-X C-F       = Fails
    ask: C-V           = WantsMemory
    ask: A-w           = Nothing
    ask: w             = Count

    C-O                  | SelfInsert(2, 'y')
    C-T                  | Kill(BackwardChar(2))
    C-N                  | Undo(3)
    C-L                  | Undo(0)
    C-P z                | Unknown
    Esc x                | AcceptLine; SelfInsert(1, 'x')
    z                    | Kill(ForwardChar(4))
    3                    | Abort
    C-X C-E x            | Repaint; SelfInsert(1, 'x')
    C-X C-B              | Undo(1)
    C-X C-F x            | Handler left 1
    C-V x                | Memory left 1
    C-X z x              | Unknown; SelfInsert(1, 'x')
    C-X                  | Eof left 0
    A-z                  | <done> Kill(ForwardChar(4))
    A-w                  | <done> Undo(1)
    A-3 z                | <done> <3> <line> Kill(ForwardChar(3))
    A-3 w                | <done> <3> <line> Undo(3)
    A-u C-O              | <done> Undo(1); SelfInsert(2, 'y')
    A-u 7 C-O            | <done> Undo(1); <7> <line> SelfInsert(7, 'y')
    A-u 7 C-T            | <done> Undo(1); <7> <line> Kill(BackwardChar(7))
    A-u C-T              | <done> Undo(1); Kill(BackwardChar(2))
    A-u 7 C-N            | <done> Undo(1); <7> <line> Undo(3)
    A-u C-L              | <done> Undo(1); Undo(1)
    A-u 7 C-L            | <done> Undo(1); <7> <line> Undo(7)
    A-u 7 C-X C-B        | <done> Undo(1); <7> <line> Undo(7)
    A-u 7 C-X C-K        | <done> Undo(1); <7> <line> Kill(EndOfLine)
    A-u 3 x              | <done> Undo(1); <3> <line> Kill(ForwardChar(3))
    A-u d w              | <done> Undo(1); Kill(ForwardWord(1, Start, Vi))
    A-u Esc x            | <done> Undo(1); AcceptLine; Kill(ForwardChar(1))
    A-u C-P              | <done> Undo(1); PreviousHistory
    C-T A-.              | Kill(BackwardChar(2)); <done> Noop
    A-x C-T .            | <done> Kill(ForwardChar(1)); Kill(BackwardChar(2)); Kill(ForwardChar(1))
    A-z .                | <done> Kill(ForwardChar(4)); Kill(ForwardChar(4))
    A-u z .              | <done> Undo(1); Kill(ForwardChar(4)); Noop
    C-X C-K A-.          | Kill(EndOfLine); <done> Kill(EndOfLine)

    inserted: kl
    C-O                  | Insert(2, \"kl\")
";

const FAILING_DISPLAYS: &str = "
    answered: 0
    A-3 0 d 2 w | Display left 4
    answered: 1
    A-3 0 d 2 w | <done> Display left 4
    answered: 2
    A-3 0 d 2 w | <done> <3> Display left 3
    answered: 3
    A-3 0 d 2 w | <done> <3> <30> Display left 2
    answered: 4
    A-3 0 d 2 w | <done> <3> <30> <line> Display left 1
    answered: 5
    A-3 0 d 2 w | <done> <3> <30> <line> <2> Display left 0
    answered: 6
    A-3 0 d 2 w | <done> <3> <30> <line> <2> <line> Kill(ForwardWord(60, Start, Vi))

    answered: 1
    Esc a x | <done> Move(BackwardChar(1)); Display left 1
";

pub(crate) const TABLES: [&str; 5] = [MODES, CUT, CONDITIONS, BOUND, FAILING_DISPLAYS];
