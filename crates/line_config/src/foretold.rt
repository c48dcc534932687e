//! What is assumed of a reader.
ghost use Rattle.std.specs.Prelude.{◌≡◌, ℕ, List, [], Bool, Option, Some, refl};
ghost use Rattle.line_config.specs.declared.device.Last.{Last};
ghost use Rattle.line_config.specs.declared.device.Last.TheVariants.{End};
ghost use Rattle.line_config.specs.Foretold.{EndsAsSaid, Foretells, own_left, own_told, rest_as_said, agrees_as_said};
ghost use Rattle.line_config.specs.Foretold.{any_said, own_ends, own_said, said_ends};

use std::io::Read;
use std::marker::Brand;

/// What is assumed of a reader: which bytes it gives, and what follows them.
///
/// No code can read it: a function over any `K: Foretold<R>` does the same whatever is assumed. So
/// what is proved of it is proved for all that can be assumed.
pub trait Foretold<R: Read> {
    // Whether it still holds of the reader, once its reads gave these bytes and met this.
    ghost told: { R → List ℕ → Option Last → Bool };

    // Which bytes are said to follow then.
    ghost left: { R → List ℕ → List ℕ };

    // And what follows these.
    ghost last: { Last };

    ghost foretells: { Foretells R.remaining told left last };

    ghost ends: { EndsAsSaid told last };
}

/// Of any reader: it gives these bytes. A proof may say others, and another end.
impl<R: Read> Foretold<R> for Brand {
    ghost told = { agrees_as_said [] End };

    ghost left = { rest_as_said [] };

    ghost last = { End };

    ghost foretells = { any_said R.remaining [] End };

    ghost ends = { said_ends [] End };
}

/// A reader that always reports which bytes it has left.
pub trait ReportsBytes: Read {
    ghost bytes: { Self → List ℕ };

    ghost reports: { (r : Self) → Self.remaining r ≡ Some (bytes r) };
}

impl ReportsBytes for &[u8] {
    ghost bytes = { λ r. r.now };

    ghost reports = { λ r. refl };
}

/// Of a reader that reports its bytes: it gives these, and then the end.
pub struct OwnBytes;

impl<R: ReportsBytes> Foretold<R> for OwnBytes {
    ghost told = { own_told };

    ghost left = { own_left R.bytes };

    ghost last = { End };

    ghost foretells = { own_said R.remaining R.bytes R.reports };

    ghost ends = { own_ends };
}
