//! Emacs mode: bindings, handlers and key sequences.

const COMMANDS: &str = "
    bind: C-O          = SelfInsert 1 x
    bind: C-T          = Yank 2 Before
    bind: C-K          = Undo 3
    bind: C-R          = Replace ForwardChar 0
    bind: C-B          = Move EndOfLine
    bind: C-C          = Repaint
    bind: C-D          = Noop
    bind: x            = Newline
    bind: Esc          = AcceptLine
    bind: A-7          = Abort
    bind: 5            = Abort
    bind: C-w          = Abort

    C-O            | SelfInsert(1, 'x')
    A-3 C-O        | <3> <line> SelfInsert(3, 'x')
    A-- 3 C-O      | <-1> <-3> <line> SelfInsert(3, 'x')
    C-T            | Yank(1, Before)
    A-7 C-T        | <7> <line> Yank(7, Before)
    C-K            | Undo(3)
    A-7 C-K        | <7> <line> Undo(3)
    C-R            | Replace(ForwardChar(0), None)
    A-7 C-R        | <7> <line> Replace(ForwardChar(0), None)
    C-B            | Move(EndOfLine)
    A-- C-B        | <-1> <line> Move(EndOfLine)
    C-C            | Repaint
    C-Z            | Suspend
    C-D            | Noop
    x              | Newline
    A-- x          | <-1> <line> Newline
    Esc            | AcceptLine
    A-7 y          | <7> <line> SelfInsert(7, 'y')
    A-4 5 y        | <4> <45> <line> SelfInsert(45, 'y')
    5              | Abort
    C-W            | Abort
    C-w            | Unknown
    C-X Esc        | Abort
    C-] x          | Move(ViCharSearch(1, ForwardBefore('x')))

    line: |
    C-D            | Noop

    line: a|b
    inserted: yz
    C-O            | Insert(1, \"yz\")
    A-3 C-O        | <3> <line> Insert(3, \"yz\")
    C-R            | Replace(ForwardChar(2), Some(\"yz\"))
    A-7 C-R        | <7> <line> Replace(ForwardChar(2), Some(\"yz\"))
    y              | SelfInsert(1, 'y')
";

const SEQUENCES: &str = "
    bind: C-x C-e      = Repaint
    bind: C-X C-Y      = SelfInsert 1 x
    bind: C-X C-U C-F  = Newline
    bind: F1 F2        = ClearScreen
    bind: F1 F2 F5     = Complete
    bind: F2 F2 F2     = Complete
    bind: C-A C-B      = Complete
    bind: x y          = Complete
    bind: F3 F2 F1     = Complete
    ask: C-X C-A       = Count
    ask: C-X C-B       = Fails
    ask: C-X C-W       = WantsMemory
    ask: C-X C-G       = Nothing
    ask: F3 F2         = Nothing
    ask: F4            = Nothing

    C-X C-E q          | Repaint; SelfInsert(1, 'q')
    A-3 C-X C-E q      | <3> <line> Repaint; SelfInsert(1, 'q')
    C-X z q            | Unknown; SelfInsert(1, 'q')
    C-X C-C q          | Unknown; SelfInsert(1, 'q')
    C-X Esc q          | Abort; SelfInsert(1, 'q')
    A-3 C-X Backspace  | <3> <line> Kill(BeginningOfLine)
    A-- C-X Backspace  | <-1> <line> Kill(EndOfLine)
    C-X C-Y            | SelfInsert(1, 'x')
    A-7 C-X C-Y        | <7> <line> SelfInsert(1, 'x')
    C-X C-A            | Undo(1)
    A-- 4 C-X C-A      | <-1> <-4> <line> TransposeWords(4)
    C-X C-B q          | Handler left 1
    C-X C-W q          | Memory left 1
    C-X C-G z q        | Abort; SelfInsert(1, 'q')
    C-X C-U C-F q      | Newline; SelfInsert(1, 'q')
    C-X C-U z q        | Undo(1); SelfInsert(1, 'q')
    A-6 C-X C-U z q    | <6> <line> Undo(6); SelfInsert(1, 'q')
    F1 F2 F5 q         | ClearScreen; Unknown; SelfInsert(1, 'q')
    F1 F1 q            | Unknown; SelfInsert(1, 'q')
    F1 q q             | Unknown; SelfInsert(1, 'q')
    F2 F2 F2 q         | Complete; SelfInsert(1, 'q')
    F2 F2 z q          | Unknown; SelfInsert(1, 'q')
    F3 F2 F1 q         | Complete; SelfInsert(1, 'q')
    F3 F2 z q          | Unknown; SelfInsert(1, 'q')
    F4 z q             | Unknown; SelfInsert(1, 'q')
    C-A C-B q          | Move(BeginningOfLine); Move(BackwardChar(1)); SelfInsert(1, 'q')
    x y                | SelfInsert(1, 'x'); SelfInsert(1, 'y')
    C-x C-E            | Unknown; Move(EndOfLine)
    F1 A-5 q           | Unknown; SelfInsert(1, 'q')
    F1 PasteStart text:ab x | Unknown; PasteOutOfPlace left 2
    C-X                | Eof left 0
    A-5 C-X            | <5> <line> Eof left 0
    C-X !failed        | Reader left 0
    C-X C-U            | Eof left 0
    C-X C-U !bad       | NotUtf8 left 0
    C-X C-G            | Eof left 0
    F1                 | Eof left 0
    F1 !bad            | NotUtf8 left 0
    F1 text:ab x       | PasteOutOfPlace left 2
    F2 F2 !failed      | Reader left 0
    F4                 | Eof left 0

    unbind:
    bind: C-X C-E      = Repaint
    C-X C-E q          | Repaint; SelfInsert(1, 'q')
    C-X z q            | Unknown; SelfInsert(1, 'q')
    C-X C-U q          | Undo(1); SelfInsert(1, 'q')
    A-9 C-X C-U q      | <9> <line> Undo(9); SelfInsert(1, 'q')
";

const HANDLERS: &str = "
    ask: C-O           = Count
    ask: A-f           = Nothing
    ask: C-X           = Nothing
    ask: C-C           = Nothing
    ask: F1            = Nothing
    ask: x             = Fails
    ask: C-V           = WantsMemory
    ask: F2            = HintOrKill

    C-O            | Undo(1)
    A-0 C-O        | <0> <line> Undo(1)
    A-5 C-O        | <5> <line> Undo(5)
    A-- 5 C-O      | <-1> <-5> <line> TransposeWords(5)
    A-f q          | Move(ForwardWord(1, AfterEnd, Emacs)); SelfInsert(1, 'q')
    A-- A-f        | <-1> <line> Move(BackwardWord(1, Emacs))
    C-X C-U q      | Undo(1); SelfInsert(1, 'q')
    C-C            | Interrupt
    F1 z q         | Unknown; SelfInsert(1, 'q')
    F1             | Eof left 0
    x q            | Handler left 1
    A-5 x q        | <5> <line> Handler left 1
    C-V q          | Memory left 1
    F2             | Kill(ForwardChar(1))
    A-- 3 F2       | <-1> <-3> <line> Kill(BackwardChar(3))
    A-9 F2         | <9> <line> Kill(ForwardChar(9))
    A-1 0 F2 z q   | <1> <10> <line> Unknown; SelfInsert(1, 'q')

    line: |
    A-5 F2 q       | <5> <line> Handler left 1

    line: ab|
    hint: c
    A-5 F2         | <5> <line> CompleteHint
";

const ANY: &str = "
    bind:              = Noop
    bind: C-O          = Undo 3
    bind: C-X C-E      = Repaint
    ask: C-K           = Nothing

    x                    | Noop
    A-5 x                | <5> <line> Noop
    C-O                  | Undo(3)
    C-K                  | Kill(EndOfLine)
    C-C                  | Noop
    C-D                  | Noop
    C-X C-E              | Noop; Noop
    UnknownEscSeq        | Noop
    PasteStart text:ab x | Noop; PasteOutOfPlace left 2

    bind:              = SelfInsert 9 y
    A-3 x C-K            | <3> <line> SelfInsert(3, 'y'); Kill(EndOfLine)
    C-D                  | SelfInsert(1, 'y')

    ask:               = Nothing
    x                    | SelfInsert(1, 'x')
    C-X C-E              | Repaint
    C-X z q              | Unknown; SelfInsert(1, 'q')
    C-C                  | Interrupt
    PasteStart text:ab x | Insert(1, \"ab\"); SelfInsert(1, 'x')
";

pub(crate) const TABLES: [&str; 4] = [COMMANDS, SEQUENCES, HANDLERS, ANY];
