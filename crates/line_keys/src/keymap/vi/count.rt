//! Counts of Vi's commands and motions.

ghost use Rattle.std.specs.Prelude.{◌≡◌};
ghost use Rattle.line_keys.specs.Counts.{count_times, typed_count};

use crate::keymap::count::times;
use line_buffer::RepeatCount;

/// The count, if one was typed.
pub(crate) fn typed_count(count: Option<i16>) -> Option<RepeatCount>
    ensures { result ≡ typed_count count }
{
    match count {
        Some(count) => Some(count.unsigned_abs()),
        None => None,
    }
}

/// The count of a motion: its operator's times the one before the motion.
pub(crate) fn multiplied(n: RepeatCount, second: Option<i16>) -> RepeatCount
    ensures { result ≡ count_times n second }
{
    times(second).saturating_mul(n)
}
