//! Commands that go on over several keys, if the setting is on.

// The key after `C-V` or `C-Q` is inserted as it was sent.
const QUOTED: &str = "
    C-V x                | QuotedInsert; SelfInsert(1, 'x')
    C-Q Tab              | QuotedInsert; Complete
    C-V                  | QuotedInsert

    modal:
    C-V x y              | SelfInsert(1, 'x'); SelfInsert(1, 'y')
    C-Q é                | SelfInsert(1, 'é')
    C-V Space            | SelfInsert(1, ' ')
    C-V Tab              | SelfInsert(1, '\\t')
    C-Q Enter x          | SelfInsert(1, '\\r'); SelfInsert(1, 'x')
    C-V Esc              | SelfInsert(1, '\\u{1b}')
    C-V Backspace        | SelfInsert(1, '\\u{7f}')
    C-V C-A              | SelfInsert(1, '\\u{1}')
    C-V C-@              | SelfInsert(1, '\\0')
    C-V C-J              | SelfInsert(1, '\\n')
    C-V C-C              | SelfInsert(1, '\\u{3}')
    C-V C-V              | SelfInsert(1, '\\u{16}')
    C-V C-\\             | SelfInsert(1, '\\u{1c}')
    C-Q C-_ x            | SelfInsert(1, '\\u{1f}'); SelfInsert(1, 'x')
    C-V C-a              | Unknown
    C-V C-5              | Unknown
    C-V A-x x            | Unknown; SelfInsert(1, 'x')
    C-V S-x              | Unknown
    C-V Left x           | Unknown; SelfInsert(1, 'x')
    C-V C-Tab            | Unknown
    C-V S-Esc            | Unknown
    C-V F1               | Unknown
    C-V BackTab          | Unknown
    C-V UnknownEscSeq    | Unknown
    C-V PasteEnd         | Unknown
    C-V Null             | Unknown
    A-3 C-V x            | <3> <line> SelfInsert(1, 'x')
    A-- C-V x            | <-1> <line> SelfInsert(1, 'x')
    C-X C-V x            | Unknown; SelfInsert(1, 'x')
    C-G                  | Abort
    C-R                  | ReverseSearchHistory
    /                    | SelfInsert(1, '/')

    C-V PasteStart text:ab x | Insert(1, \"ab\"); SelfInsert(1, 'x')
    C-V PasteStart x     | PasteOutOfPlace left 1
    C-V PasteStart !cut  | Eof left 0
    C-V                  | Eof left 0
    C-V !bad             | NotUtf8 left 0
    C-V !failed          | Reader left 0
    C-V text:ab x        | PasteOutOfPlace left 2

    bind: x              = Noop
    bind: C-T            = Noop
    bind: C-Q            = Undo 3
    bind: C-V C-P        = Repaint
    C-V x                | SelfInsert(1, 'x')
    C-V C-T x            | SelfInsert(1, '\\u{14}'); Noop
    C-Q x                | Undo(3); Noop
    C-V C-P              | SelfInsert(1, '\\u{10}')
";

// In Vi mode keys are quoted where text is typed.
const VI_QUOTED: &str = "
    C-V x                | QuotedInsert; SelfInsert(1, 'x')

    modal:
    C-V x                | SelfInsert(1, 'x')
    C-Q Esc x            | SelfInsert(1, '\\u{1b}'); SelfInsert(1, 'x')
    C-V C-G              | SelfInsert(1, '\\u{7}')
    C-V Left             | Unknown
    C-V PasteStart text:ab | Insert(1, \"ab\")
    C-V                  | Eof left 0
    Esc C-V x            | <done> Move(BackwardChar(1)); QuotedInsert; Kill(ForwardChar(1))
    Esc 3 C-Q x          | <done> Move(BackwardChar(1)); <3> <line> QuotedInsert; Kill(ForwardChar(1))
    Esc R C-V Tab x      | <done> Move(BackwardChar(1)); Replace(ForwardChar(0), None); SelfInsert(1, '\\t'); Overwrite('x')
    C-V x Esc .          | SelfInsert(1, 'x'); <done> Move(BackwardChar(1)); SelfInsert(1, 'x')
    x C-V y Esc .        | SelfInsert(1, 'x'); SelfInsert(1, 'y'); <done> Move(BackwardChar(1)); SelfInsert(1, 'x')
";

// A search begins in command mode, and is given up in insert mode.
const SEARCHING: &str = "
    bind: / x            = Repaint
    Esc / x              | <done> Move(BackwardChar(1)); Repaint
    Esc ? x              | <done> Move(BackwardChar(1)); Unknown; Kill(ForwardChar(1))
    C-G x                | Unknown; SelfInsert(1, 'x')

    modal:
    Esc / x              | <done> Move(BackwardChar(1)); ReverseSearchHistory; SelfInsert(1, 'x')
    Esc ? x              | <done> Move(BackwardChar(1)); ForwardSearchHistory; SelfInsert(1, 'x')
    Esc 3 / x            | <done> Move(BackwardChar(1)); <3> <line> ReverseSearchHistory; SelfInsert(1, 'x')
    A-/ x                | <done> ReverseSearchHistory; SelfInsert(1, 'x')
    A-? x                | <done> ForwardSearchHistory; SelfInsert(1, 'x')
    / ?                  | SelfInsert(1, '/'); SelfInsert(1, '?')
    Esc d / x            | <done> Move(BackwardChar(1)); Unknown; Kill(ForwardChar(1))
    Esc f / x            | <done> Move(BackwardChar(1)); Move(ViCharSearch(1, Forward('/'))); Kill(ForwardChar(1))
    Esc C-/ A-?          | <done> Move(BackwardChar(1)); Unknown; Unknown
    C-G x                | Abort; SelfInsert(1, 'x')
    Esc C-G              | <done> Move(BackwardChar(1)); Abort
    Esc R C-G x          | <done> Move(BackwardChar(1)); Replace(ForwardChar(0), None); Abort; Overwrite('x')
    Esc / C-G x          | <done> Move(BackwardChar(1)); ReverseSearchHistory; Abort; SelfInsert(1, 'x')

    modes:
    Esc /                | <done> Move(BackwardChar(1)) in command mode; ReverseSearchHistory in insert mode
    C-G                  | Abort in insert mode
";

// In command mode the last search goes on, in its direction or in the other one. A count changes
// nothing, and no change is remembered.
const AGAIN: &str = "
    Esc n x              | <done> Move(BackwardChar(1)); Unknown; Kill(ForwardChar(1))
    Esc N x              | <done> Move(BackwardChar(1)); Unknown; Kill(ForwardChar(1))
    A-n                  | <done> Unknown

    modal:
    Esc n x              | <done> Move(BackwardChar(1)); SearchAgain(Same); Kill(ForwardChar(1))
    Esc N x              | <done> Move(BackwardChar(1)); SearchAgain(Opposite); Kill(ForwardChar(1))
    Esc 3 n              | <done> Move(BackwardChar(1)); <3> <line> SearchAgain(Same)
    Esc 2 N              | <done> Move(BackwardChar(1)); <2> <line> SearchAgain(Opposite)
    A-n x                | <done> SearchAgain(Same); Kill(ForwardChar(1))
    A-N                  | <done> SearchAgain(Opposite)
    n N                  | SelfInsert(1, 'n'); SelfInsert(1, 'N')
    Esc R n N            | <done> Move(BackwardChar(1)); Replace(ForwardChar(0), None); Overwrite('n'); Overwrite('N')
    Esc d n x            | <done> Move(BackwardChar(1)); Unknown; Kill(ForwardChar(1))
    Esc f n              | <done> Move(BackwardChar(1)); Move(ViCharSearch(1, Forward('n')))
    Esc r N              | <done> Move(BackwardChar(1)); ReplaceChar(1, 'N')
    Esc C-N A-n S-n      | <done> Move(BackwardChar(1)); NextHistory; Unknown; Unknown
    Esc X n .            | <done> Move(BackwardChar(1)); Kill(BackwardChar(1)); SearchAgain(Same); Kill(BackwardChar(1))

    bind: n              = Repaint
    bind: C-T            = SearchAgain Opposite
    Esc n                | <done> Move(BackwardChar(1)); Repaint
    C-T                  | SearchAgain(Opposite)
    Esc 3 C-T            | <done> Move(BackwardChar(1)); <3> <line> SearchAgain(Opposite)

    unbind:
    modes:
    Esc n                | <done> Move(BackwardChar(1)) in command mode; SearchAgain(Same) in command mode
    Esc N                | <done> Move(BackwardChar(1)) in command mode; SearchAgain(Opposite) in command mode
";

// In Emacs mode both are characters, and the command comes by a binding alone.
const AGAIN_IN_EMACS: &str = "
    bind: C-T            = SearchAgain Same
    n N                  | SelfInsert(1, 'n'); SelfInsert(1, 'N')
    C-T                  | SearchAgain(Same)
    A-3 C-T              | <3> <line> SearchAgain(Same)

    modal:
    n N                  | SelfInsert(1, 'n'); SelfInsert(1, 'N')
    C-T                  | SearchAgain(Same)
";

pub(crate) const KEYS_QUOTED_IN_EMACS_MODE: [&str; 2] = [QUOTED, AGAIN_IN_EMACS];

pub(crate) const MODAL_KEYS_OF_VI: [&str; 3] = [VI_QUOTED, SEARCHING, AGAIN];
