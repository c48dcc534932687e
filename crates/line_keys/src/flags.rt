//! Modifier keys.

ghost use Rattle.std.specs.Prelude.{◌≡◌, ◌==◌, ⊤, [], ◌∷◌, codes};
ghost use Rattle.std.specs.Int.RustNames.{bit_and, bit_or, bit_xor};
ghost use Rattle.bitflags.specs.Sets.{without};

use bitflags::{Flag, Flags, parser};
use std::fmt;
use std::ops::{BitOr, BitXor};

/// A set of modifier keys, with a bit for each.
#[derive(Clone, Copy, PartialEq, Eq, Hash)]
pub struct Modifiers(u8);

impl Modifiers {
    pub const CTRL: Modifiers = Modifiers(8);

    pub const ALT: Modifiers = Modifiers(4);

    pub const SHIFT: Modifiers = Modifiers(2);

    pub const NONE: Modifiers = Modifiers(0);

    pub const CTRL_SHIFT: Modifiers = Modifiers(10);

    pub const ALT_SHIFT: Modifiers = Modifiers(6);

    pub const CTRL_ALT: Modifiers = Modifiers(12);

    pub const CTRL_ALT_SHIFT: Modifiers = Modifiers(14);

    const FLAGS: &'static [Flag<Modifiers>] = &[
        Flag {
            name: "CTRL",
            value: Modifiers::CTRL,
        },
        Flag {
            name: "ALT",
            value: Modifiers::ALT,
        },
        Flag {
            name: "SHIFT",
            value: Modifiers::SHIFT,
        },
        Flag {
            name: "NONE",
            value: Modifiers::NONE,
        },
        Flag {
            name: "CTRL_SHIFT",
            value: Modifiers::CTRL_SHIFT,
        },
        Flag {
            name: "ALT_SHIFT",
            value: Modifiers::ALT_SHIFT,
        },
        Flag {
            name: "CTRL_ALT",
            value: Modifiers::CTRL_ALT,
        },
        Flag {
            name: "CTRL_ALT_SHIFT",
            value: Modifiers::CTRL_ALT_SHIFT,
        },
    ];

    /// The set as a number.
    pub const fn bits(&self) -> u8
        ensures { result ≡ self.now.0 }
    {
        self.0
    }

    /// Whether no modifier is held.
    pub const fn is_empty(&self) -> bool
        ensures { result ≡ (self.now.0 == 0) }
    {
        self.0 == 0
    }

    /// Whether all of `other` are held.
    pub const fn contains(&self, other: Modifiers) -> bool
        ensures { result ≡ (bit_and self.now.0 other.0 == other.0) }
    {
        self.0 & other.0 == other.0
    }

    /// Adds all of `other`.
    pub fn insert(&mut self, other: Modifiers)
        ensures { self.new.0 ≡ bit_or self.old.0 other.0 }
    {
        self.0 |= other.0;
    }

    /// Removes all of `other`.
    pub fn remove(&mut self, other: Modifiers)
        ensures { self.new.0 ≡ without 8 self.old.0 other.0 }
    {
        self.0 &= !other.0;
    }
}

impl Flags for Modifiers {
    type Bits = u8;

    ghost exact = { ⊤ };

    ghost table = { (codes "CTRL", 8) ∷ (codes "ALT", 4) ∷ (codes "SHIFT", 2) ∷ (codes "NONE", 0)
        ∷ (codes "CTRL_SHIFT", 10)
        ∷ (codes "ALT_SHIFT", 6) ∷ (codes "CTRL_ALT", 12) ∷ (codes "CTRL_ALT_SHIFT", 14) ∷ [] };

    ghost set_of = { λ m. m.0 };

    fn flags<'a>() -> &'a [Flag<Modifiers>] {
        Modifiers::FLAGS
    }

    fn bits(&self) -> u8 {
        self.0
    }

    fn from_bits_retain(bits: u8) -> Modifiers {
        Modifiers(bits)
    }
}

impl BitOr for Modifiers {
    type Output = Modifiers;

    ghost bitor_gives = { λ a b r. r.0 ≡ bit_or a.0 b.0 };

    fn bitor(self, other: Modifiers) -> Modifiers {
        Modifiers(self.0 | other.0)
    }
}

impl BitXor for Modifiers {
    type Output = Modifiers;

    ghost bitxor_gives = { λ a b r. r.0 ≡ bit_xor a.0 b.0 };

    fn bitxor(self, other: Modifiers) -> Modifiers {
        Modifiers(self.0 ^ other.0)
    }
}

impl fmt::Debug for Modifiers {
    fn fmt<W: fmt::Write>(&self, f: &mut fmt::Formatter<W>) -> fmt::Result {
        f.write_str("Modifiers(")?;
        if self.is_empty() {
            f.write_str("0x0")?;
        } else {
            parser::to_writer(self, f)?;
        }
        f.write_str(")")
    }
}
