//! Runs of bytes of one class, which are tested by blocks.

ghost use Rattle.std.specs.Prelude.{◌≡◌, ◌-◌, ◌<◌, ◌≤◌, length, take, drop, get_or, true, false};
ghost use Rattle.std.specs.List.{list_all};

/// A class of bytes.
pub(crate) trait ByteClass {
    ghost use Rattle.std.specs.Prelude.{◌≡◌, ℕ, Bool};

    ghost class: { ℕ → Bool };

    /// Whether a byte is of the class.
    fn has(byte: u8) -> bool
        ensures { result ≡ class byte };
}

/// Whether each byte is of the class. All of them are tested.
fn test_all<C: ByteClass>(bytes: &[u8]) -> bool
    ensures { result ≡ list_all C.class bytes.now }
{
    let mut all = true;
    for byte in bytes {
        all &= C::has(*byte);
    }
    all
}

/// How many bytes of a long text are tested before an answer.
const PART: usize = 256;

/// Whether each byte is of the class.
pub(crate) fn are_all<C: ByteClass>(bytes: &[u8]) -> bool
    ensures { result ≡ list_all C.class bytes.now }
{
    let mut start = 0;
    while bytes.len() - start > PART {
        if !test_all::<C>(&bytes[start..start + PART]) {
            return false;
        }
        start += PART;
    }
    test_all::<C>(&bytes[start..])
}

/// How many bytes of a run are tested at once.
const BLOCK: usize = 32;

/// After how many bytes of a run whole blocks are tested: a short run is found byte by byte.
const NEAR: usize = 16;

/// Where whole blocks of the class at the end of the bytes begin.
fn blocks_from<C: ByteClass>(bytes: &[u8]) -> usize
    ensures bound { result ≤ length bytes.now }
    ensures run { list_all C.class (drop result bytes.now) ≡ true }
{
    let mut start = bytes.len();
    while start >= BLOCK && test_all::<C>(&bytes[start - BLOCK..start]) {
        start -= BLOCK;
    }
    start
}

/// Where the run of the class at the end of the bytes begins.
pub(crate) fn run_from<C: ByteClass>(bytes: &[u8]) -> usize
    ensures bound { result ≤ length bytes.now }
    ensures run { list_all C.class (drop result bytes.now) ≡ true }
    ensures before { 0 < result → C.class (get_or bytes.now (result - 1) 0) ≡ false }
{
    let mut start = bytes.len();
    while start > 0 && C::has(bytes[start - 1]) {
        start -= 1;
        if bytes.len() - start == NEAR {
            start = blocks_from::<C>(&bytes[..start]);
        }
    }
    start
}

/// How far whole blocks of the class at the front of the bytes reach.
fn blocks_upto<C: ByteClass>(bytes: &[u8]) -> usize
    ensures bound { result ≤ length bytes.now }
    ensures run { list_all C.class (take result bytes.now) ≡ true }
{
    let mut end = 0;
    while bytes.len() - end >= BLOCK && test_all::<C>(&bytes[end..end + BLOCK]) {
        end += BLOCK;
    }
    end
}

/// How far the run of the class at the front of the bytes reaches.
pub(crate) fn run_upto<C: ByteClass>(bytes: &[u8]) -> usize
    ensures bound { result ≤ length bytes.now }
    ensures run { list_all C.class (take result bytes.now) ≡ true }
    ensures behind { result < length bytes.now → C.class (get_or bytes.now result 0) ≡ false }
{
    let mut end = 0;
    while end < bytes.len() && C::has(bytes[end]) {
        end += 1;
        if end == NEAR {
            end += blocks_upto::<C>(&bytes[NEAR..]);
        }
    }
    end
}
