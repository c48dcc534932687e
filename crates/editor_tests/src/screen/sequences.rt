//! Control sequences and their keys.

use crate::screen::reading::called;
use line_config::EditMode;
use stand_ins::rows::{Player, raised, rows_hold};
use stand_ins::tables::{meant_bytes, word_and_rest};
use std::alloc::Global;
use std::test::Fail;

const PLAIN: &str = "
    ␛[A     = Up
    ␛[B     = Down
    ␛[C     = Right
    ␛[D     = Left
    ␛[H     = Home
    ␛[F     = End
    ␛[Z     = BackTab
    ␛OA     = Up
    ␛OB     = Down
    ␛OC     = Right
    ␛OD     = Left
    ␛OH     = Home
    ␛OF     = End
    ␛OM     = Enter
    ␛OP     = F1
    ␛OQ     = F2
    ␛OR     = F3
    ␛OS     = F4
    ␛[1~    = Home
    ␛[2~    = Insert
    ␛[3~    = Delete
    ␛[4~    = End
    ␛[5~    = PageUp
    ␛[6~    = PageDown
    ␛[7~    = Home
    ␛[8~    = End
    ␛[11~   = F1
    ␛[12~   = F2
    ␛[13~   = F3
    ␛[14~   = F4
    ␛[15~   = F5
    ␛[17~   = F6
    ␛[18~   = F7
    ␛[19~   = F8
    ␛[20~   = F9
    ␛[21~   = F10
    ␛[23~   = F11
    ␛[24~   = F12
    ␛[201~  = PasteEnd
    ␛[[A    = F1
    ␛[[B    = F2
    ␛[[C    = F3
    ␛[[D    = F4
    ␛[[E    = F5
";

// Similar sequences without a key.
const NAMELESS: &str = "
    ␛OX         = UnknownEscSeq
    ␛OE         = UnknownEscSeq
    ␛O[         = UnknownEscSeq
    ␛[[F        = UnknownEscSeq
    ␛[[[        = UnknownEscSeq
    ␛[9~        = UnknownEscSeq
    ␛[0~        = UnknownEscSeq
    ␛[~         = UnknownEscSeq
    ␛[03~       = UnknownEscSeq
    ␛[3;~       = UnknownEscSeq
    ␛[10~       = UnknownEscSeq
    ␛[16~       = UnknownEscSeq
    ␛[22~       = UnknownEscSeq
    ␛[25~       = UnknownEscSeq
    ␛[200;5~    = UnknownEscSeq
    ␛[201;5~    = UnknownEscSeq
    ␛[202~      = UnknownEscSeq
    ␛[2001~     = UnknownEscSeq
    ␛[1;1A      = UnknownEscSeq
    ␛[1;9A      = UnknownEscSeq
    ␛[1;5Z      = UnknownEscSeq
    ␛[1;5E      = UnknownEscSeq
    ␛[1;55A     = UnknownEscSeq
    ␛[1A        = UnknownEscSeq
    ␛[2;5C      = UnknownEscSeq
    ␛[;5C       = UnknownEscSeq
    ␛[1:5C      = UnknownEscSeq
    ␛[1;5;5C    = UnknownEscSeq
    ␛[9;5~      = UnknownEscSeq
    ␛[16;5~     = UnknownEscSeq
    ␛[3;1~      = UnknownEscSeq
    ␛[11;9~     = UnknownEscSeq
    ␛[<0;1;1M   = UnknownEscSeq
    ␛[1 A       = UnknownEscSeq
    ␛[ ~        = UnknownEscSeq
    ␛[!!A       = UnknownEscSeq
";

// `@` stands for the number of the modifiers.
const MODIFIED: &str = "
    ␛[1;@A      = Up
    ␛[1;@B      = Down
    ␛[1;@C      = Right
    ␛[1;@D      = Left
    ␛[1;@F      = End
    ␛[1;@H      = Home
    ␛[1;@P      = F1
    ␛[1;@Q      = F2
    ␛[1;@R      = F3
    ␛[1;@S      = F4
    ␛[1;@~      = Home
    ␛[2;@~      = Insert
    ␛[3;@~      = Delete
    ␛[4;@~      = End
    ␛[5;@~      = PageUp
    ␛[6;@~      = PageDown
    ␛[7;@~      = Home
    ␛[8;@~      = End
    ␛[11;@~     = F1
    ␛[12;@~     = F2
    ␛[13;@~     = F3
    ␛[14;@~     = F4
    ␛[15;@~     = F5
    ␛[17;@~     = F6
    ␛[18;@~     = F7
    ␛[19;@~     = F8
    ␛[20;@~     = F9
    ␛[21;@~     = F10
    ␛[23;@~     = F11
    ␛[24;@~     = F12
";

/// Reads sequences with a number in place of `@`, each a key with a prefix.
#[derive(Drop)]
struct Sequences {
    mode: EditMode,
    number: &'static str,
    prefix: &'static str,
}

impl Player for Sequences {
    fn play(&mut self, alloc: Global, sequence: &str) -> Result<String, Fail> {
        let sequence = sequence.replace(alloc, "@", self.number)?;
        key_told(alloc, self.mode, sequence.as_str(), self.prefix)
    }
}

// The key of a sequence, without the prefix; if it isn't one such key, `another`.
fn key_told(alloc: Global, mode: EditMode, sequence: &str, prefix: &str) -> Result<String, Fail> {
    let bytes = meant_bytes(alloc, sequence)?;
    let said = called(alloc, mode, &bytes, "key key")?;
    let key = said.as_str().strip_suffix(" Eof").unwrap_or("another end");
    raised(String::from_str(alloc, key.strip_prefix(prefix).unwrap_or("another")))
}

// Reads the sequences in both modes.
fn each_key(
    alloc: Global,
    table: &str,
    number: &'static str,
    prefix: &'static str,
) -> Result<(), Fail> {
    let mut in_emacs = Sequences {
        mode: EditMode::Emacs,
        number,
        prefix,
    };
    rows_hold(alloc, &mut in_emacs, table)?;
    let mut in_vi = Sequences {
        mode: EditMode::Vi,
        number,
        prefix,
    };
    rows_hold(alloc, &mut in_vi, table)
}

#[test]
fn sequences_have_their_keys(rt: HostRuntime) -> Result<(), Fail> {
    each_key(rt.alloc(), PLAIN, "", "")?;
    each_key(rt.alloc(), NAMELESS, "", "")?;
    each_key(rt.alloc(), MODIFIED, "2", "S-")?;
    each_key(rt.alloc(), MODIFIED, "3", "A-")?;
    each_key(rt.alloc(), MODIFIED, "4", "A-S-")?;
    each_key(rt.alloc(), MODIFIED, "5", "C-")?;
    each_key(rt.alloc(), MODIFIED, "6", "C-S-")?;
    each_key(rt.alloc(), MODIFIED, "7", "C-A-")?;
    each_key(rt.alloc(), MODIFIED, "8", "C-A-S-")
}

// The result of each byte after ESC [: the first and the last byte of a row.
const FIRST: &str = "
    00 1f = UnknownEscSeq Eof
    20 3f = Eof Eof
    40 40 = UnknownEscSeq Eof
    41 41 = Up Eof
    42 42 = Down Eof
    43 43 = Right Eof
    44 44 = Left Eof
    45 45 = UnknownEscSeq Eof
    46 46 = End Eof
    47 47 = UnknownEscSeq Eof
    48 48 = Home Eof
    49 59 = UnknownEscSeq Eof
    5a 5a = BackTab Eof
    5b 5b = Eof Eof
    5c 7f = UnknownEscSeq Eof
    80 ff = NotUtf8 NotUtf8
";

// After ESC [ 1.
const PARAMETER: &str = "
    00 1f = UnknownEscSeq Eof
    20 3f = Eof Eof
    40 7d = UnknownEscSeq Eof
    7e 7e = Home Eof
    7f 7f = UnknownEscSeq Eof
    80 ff = NotUtf8 NotUtf8
";

// After ESC [ with a blank: a parameter can't follow an intermediate character.
const INTERMEDIATE: &str = "
    00 1f = UnknownEscSeq Eof
    20 2f = Eof Eof
    30 7f = UnknownEscSeq Eof
    80 ff = NotUtf8 NotUtf8
";

/// Reads each byte of a row's range after the same bytes.
#[derive(Drop)]
struct After {
    front: &'static str,
}

impl After {
    // The result of a byte.
    fn read(&self, alloc: Global, byte: u8) -> Result<String, Fail> {
        let mut bytes = meant_bytes(alloc, self.front)?;
        bytes.push(byte)?;
        called(alloc, EditMode::Emacs, &bytes, "key key")
    }

    // The result of the first byte, and whether the bytes after it have the same up to the last
    // one.
    fn read_all(&self, alloc: Global, first: u8, last: u8) -> Result<String, Fail> {
        let said = self.read(alloc, first)?;
        for byte in first..=last {
            if self.read(alloc, byte)? != said {
                return raised(format!(in alloc; "another answer to {byte:02x}"));
            }
        }
        Ok(said)
    }
}

impl Player for After {
    fn play(&mut self, alloc: Global, range: &str) -> Result<String, Fail> {
        let (first, last) = word_and_rest(range);
        let first = u8::from_str_radix(first, 16)?;
        let last = u8::from_str_radix(last, 16)?;
        self.read_all(alloc, first, last)
    }
}

fn each_byte(alloc: Global, front: &'static str, table: &str) -> Result<(), Fail> {
    rows_hold(alloc, &mut After { front }, table)
}

#[test]
fn any_byte_in_a_finals_place(rt: HostRuntime) -> Result<(), Fail> {
    each_byte(rt.alloc(), "␛[", FIRST)?;
    each_byte(rt.alloc(), "␛[1", PARAMETER)?;
    each_byte(rt.alloc(), "␛[1 ", INTERMEDIATE)?;
    each_byte(rt.alloc(), "␛[ ", INTERMEDIATE)
}
