//! Emacs mode: each key with each count.

// Keys of a count, the requests to the display for them, and the count.
pub(crate) const COUNTS: &str = "
                        |                                                 | 1
    A-0                 | <0> <line>                                      | 1
    A-1                 | <1> <line>                                      | 1
    A-5                 | <5> <line>                                      | 5
    A--                 | <-1> <line>                                     | -1
    A-- 0               | <-1> <0> <line>                                 | 1
    A-- A-2 8           | <-1> <-2> <-12> <line>                          | -12
    A-1 A-0 0 0 0       | <1> <10> <100> <1000> <1000> <line>             | 1000
    A-9 9 9 - A-- 9 A-9 | <9> <99> <999> <999> <999> <9999> <9999> <line> | 9999
    A-- 9 9 9 9 9       | <-1> <-9> <-81> <-801> <-8001> <-8001> <line>   | -8001
";

// Keys, the command, and the command if the count is negative.
pub(crate) const EMACS: &str = "
    then: SelfInsert(1, 'q')
    x             | SelfInsert(n, 'x')                   | Unknown
    Q             | SelfInsert(n, 'Q')                   | Unknown
    é             | SelfInsert(n, 'é')                   | Unknown
    Space         | SelfInsert(n, ' ')                   | Unknown
    ]             | SelfInsert(n, ']')                   | Unknown
    C-A           | Move(BeginningOfLine)
    C-E           | Move(EndOfLine)
    C-B           | Move(BackwardChar(n))                | Move(ForwardChar(n))
    C-F           | Move(ForwardChar(n))                 | Move(BackwardChar(n))
    C-G           | Abort
    C-A-G         | Abort
    Esc           | Abort
    C-H           | Kill(BackwardChar(n))                | Kill(ForwardChar(n))
    Backspace     | Kill(BackwardChar(n))                | Kill(ForwardChar(n))
    BackTab       | CompleteBackward
    C-I           | Complete                             | CompleteBackward
    Tab           | Complete                             | CompleteBackward
    C-K           | Kill(EndOfLine)                      | Kill(BeginningOfLine)
    C-L           | ClearScreen
    C-N           | NextHistory
    C-P           | PreviousHistory
    C-X C-G       | Abort
    C-X Esc       | Abort
    C-X C-U       | Undo(n)
    C-X Backspace | Kill(BeginningOfLine)                | Kill(EndOfLine)
    C-X x         | Unknown
    C-X C-X       | Unknown
    C-X C-C       | Unknown
    C-X C-A-G     | Unknown
    C-X A-5       | Unknown
    C-] x         | Move(ViCharSearch(n, ForwardBefore('x'))) | Move(ViCharSearch(n, Backward('x')))
    C-] 5         | Move(ViCharSearch(n, ForwardBefore('5'))) | Move(ViCharSearch(n, Backward('5')))
    C-A-] x       | Move(ViCharSearch(n, Backward('x'))) | Move(ViCharSearch(n, ForwardBefore('x')))
    C-] C-G       | Unknown
    C-] Esc       | Unknown
    C-] A-x       | Unknown
    C-A-] Enter   | Unknown
    A-Backspace   | Kill(BackwardWord(n, Emacs))         | Kill(ForwardWord(n, AfterEnd, Emacs))
    A-<           | BeginningOfHistory
    A->           | EndOfHistory
    A-B           | Move(BackwardWord(n, Emacs))         | Move(ForwardWord(n, AfterEnd, Emacs))
    A-b           | Move(BackwardWord(n, Emacs))         | Move(ForwardWord(n, AfterEnd, Emacs))
    A-Left        | Move(BackwardWord(n, Emacs))         | Move(ForwardWord(n, AfterEnd, Emacs))
    C-Left        | Move(BackwardWord(n, Emacs))         | Move(ForwardWord(n, AfterEnd, Emacs))
    A-F           | Move(ForwardWord(n, AfterEnd, Emacs)) | Move(BackwardWord(n, Emacs))
    A-f           | Move(ForwardWord(n, AfterEnd, Emacs)) | Move(BackwardWord(n, Emacs))
    A-Right       | Move(ForwardWord(n, AfterEnd, Emacs)) | Move(BackwardWord(n, Emacs))
    C-Right       | Move(ForwardWord(n, AfterEnd, Emacs)) | Move(BackwardWord(n, Emacs))
    A-D           | Kill(ForwardWord(n, AfterEnd, Emacs)) | Kill(BackwardWord(n, Emacs))
    A-d           | Kill(ForwardWord(n, AfterEnd, Emacs)) | Kill(BackwardWord(n, Emacs))
    A-C           | CapitalizeWord
    A-c           | CapitalizeWord
    A-L           | DowncaseWord
    A-l           | DowncaseWord
    A-U           | UpcaseWord
    A-u           | UpcaseWord
    A-T           | TransposeWords(n)
    A-t           | TransposeWords(n)
    A-Y           | YankPop
    A-y           | YankPop
";

// The keys that Emacs and Vi have in common, as Emacs reads them in a line with text.
pub(crate) const COMMON: &str = "
    then: SelfInsert(1, 'q')
    Home          | Move(BeginningOfLine)
    End           | Move(EndOfLine)
    Left          | Move(BackwardChar(n))                | Move(ForwardChar(n))
    Right         | Move(ForwardChar(n))                 | Move(BackwardChar(n))
    C-D           | Kill(ForwardChar(n))                 | Kill(BackwardChar(n))
    Delete        | Kill(ForwardChar(n))                 | Kill(BackwardChar(n))
    C-J           | AcceptOrInsertLine { accept_in_the_middle: true }
    C-M           | AcceptOrInsertLine { accept_in_the_middle: true }
    Enter         | AcceptOrInsertLine { accept_in_the_middle: true }
    Down          | LineDownOrNextHistory(1)
    Up            | LineUpOrPreviousHistory(1)
    C-R           | ReverseSearchHistory
    C-S           | ForwardSearchHistory
    C-Q           | QuotedInsert
    C-V           | QuotedInsert
    C-T           | TransposeChars
    C-_           | Undo(n)
    C-U           | Kill(BeginningOfLine)                | Kill(EndOfLine)
    C-W           | Kill(BackwardWord(n, Big))           | Kill(ForwardWord(n, AfterEnd, Big))
    C-Y           | Yank(n, Before)                      | Unknown
    UnknownEscSeq | Noop
    PasteStart text:ab | Insert(1, \"ab\")
    F1            | Unknown
    Insert        | Unknown
    PageUp        | Unknown
    PageDown      | Unknown
    PasteEnd      | Unknown
    Null          | Unknown
    C-O           | Unknown
    C-a           | Unknown
    A-z           | Unknown
    A-Enter       | Unknown
    S-x           | Unknown
    S-Left        | Unknown
    C-Home        | Unknown
    C-S-Right     | Unknown
    S-Esc         | Unknown
    C-C           | Interrupt
    C-\\          | Interrupt
    C-Z           | Suspend
";

// Counts, and how they end.
const TYPED_COUNTS: &str = "
    A-- 2 C-B            | <-1> <-2> <line> Move(ForwardChar(2))
    A-- 2 3 C-F          | <-1> <-2> <-17> <line> Move(BackwardChar(17))
    A-- 1 5 C-F          | <-1> <-1> <-5> <line> Move(BackwardChar(5))
    A-9 9 9 9 9 x        | <9> <99> <999> <9999> <9999> <line> SelfInsert(9999, 'x')
    A-0 x                | <0> <line> SelfInsert(1, 'x')
    A-0 7 x              | <0> <7> <line> SelfInsert(7, 'x')
    A-0 - x              | <0> <0> <line> SelfInsert(1, 'x')
    A-2 b 3 c            | <2> <line> SelfInsert(2, 'b'); SelfInsert(1, '3'); SelfInsert(1, 'c')
    A-2 A-3 A-x          | <2> <23> <line> Unknown
    A-2 C-5              | <2> <line> Unknown
    A-2 S-5 x            | <2> <line> Unknown; SelfInsert(1, 'x')
    A-2 C-A-5            | <2> <line> Unknown
    C-A-5 x              | Unknown; SelfInsert(1, 'x')
    C-A-- x              | Unknown; SelfInsert(1, 'x')
    - 5                  | SelfInsert(1, '-'); SelfInsert(1, '5')
    A-2 PasteStart text:ab | <2> <line> Insert(1, \"ab\")

    modes:
    A-2 x                | <2> <line> SelfInsert(2, 'x') in Emacs mode
";

// The input ends, or has no key, in the middle of a phrase.
const CUT: &str = "
                         | Eof left 0
    !bad                 | NotUtf8 left 0
    !failed              | Reader left 0
    text:ab x            | PasteOutOfPlace left 2
    A-5                  | <5> Eof left 0
    A-- 5 !bad           | <-1> <-5> NotUtf8 left 0
    A-5 6 !failed        | <5> <56> Reader left 0
    A-5 text:ab x        | <5> PasteOutOfPlace left 2
    A-5 !cut             | <5> PasteOutOfPlace left 0
    A-5 C-X              | <5> <line> Eof left 0
    C-X                  | Eof left 0
    C-X !bad             | NotUtf8 left 0
    C-X !failed          | Reader left 0
    C-X text:ab x        | PasteOutOfPlace left 2
    C-X PasteStart text:ab x | Unknown; PasteOutOfPlace left 2
    C-]                  | Eof left 0
    C-] !bad             | NotUtf8 left 0
    C-A-] !failed        | Reader left 0
    C-] text:ab x        | PasteOutOfPlace left 2
    C-] PasteStart text:ab x | Unknown; PasteOutOfPlace left 2
    PasteStart           | PasteOutOfPlace left 0
    PasteStart x y       | PasteOutOfPlace left 2
    PasteStart !cut      | Eof left 0
    PasteStart !cut !bad | NotUtf8 left 0
    PasteStart !cut !failed | Reader left 0
    PasteStart text:ab PasteStart text:c x | Insert(1, \"ab\"); Insert(1, \"c\"); SelfInsert(1, 'x')
";

const CONDITIONS: &str = "
    line: |
    C-D                  | EndOfFile
    A-5 C-D              | <5> <line> EndOfFile
    A-- C-D              | <-1> <line> EndOfFile
    C-X C-D              | Unknown
    Delete               | Kill(ForwardChar(1))
    Right                | Move(ForwardChar(1))

    line: ab|
    Right                | Move(ForwardChar(1))

    hint: c
    Right                | CompleteHint
    A-5 Right            | <5> <line> CompleteHint
    A-- Right            | <-1> <line> CompleteHint
    A-Right              | Move(ForwardWord(1, AfterEnd, Emacs))
    C-F                  | Move(ForwardChar(1))
    End                  | Move(EndOfLine)
    C-D                  | Kill(ForwardChar(1))

    line: a|b
    Right                | Move(ForwardChar(1))
";

const FAILING_DISPLAYS: &str = "
    answered: 0
    A-- 2 C-B | Display left 2
    answered: 1
    A-- 2 C-B | <-1> Display left 1
    answered: 2
    A-- 2 C-B | <-1> <-2> Display left 0
    answered: 3
    A-- 2 C-B | <-1> <-2> <line> Move(ForwardChar(2))
";

pub(crate) const TABLES: [&str; 4] = [TYPED_COUNTS, CUT, CONDITIONS, FAILING_DISPLAYS];
