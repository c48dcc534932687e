//! The caller's buffers.

ghost use Rattle.std.specs.Prelude.{◌≤◌, length};
ghost use Rattle.keyline_call.specs.Buffers.{IsPut};

/// Copies a text to the front of a buffer in which it fits.
pub(crate) fn put<T: Copy>(given: &[T], room: &mut [T])
    requires { length given.now ≤ length room.old }
    ensures { IsPut given.now room.old room.new }
{
    let (front, _) = room.split_at_mut(given.len());
    front.copy_from_slice(given);
}
