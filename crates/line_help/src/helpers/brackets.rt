//! Brackets: the one at the cursor, and its match.
ghost use Rattle.std.specs.Prelude.{◌≡◌, ◌+◌, ◌-◌, ◌<◌, IfSome, Some, option_map, slice_get, length, take, drop, reverse};
ghost use Rattle.line_help.specs.Brackets.{is_opening, is_closing, is_bracket, partner, bracket_at, bracket_near, bracket_to_match, bytes_between, match_place};

/// Whether a byte opens brackets.
pub(crate) fn is_opening(byte: u8) -> bool
    ensures { result ≡ is_opening byte }
{
    matches!(byte, b'(' | b'[' | b'{')
}

/// Whether a byte closes brackets.
pub(crate) fn is_closing(byte: u8) -> bool
    ensures { result ≡ is_closing byte }
{
    matches!(byte, b')' | b']' | b'}')
}

/// Whether a byte is a bracket.
pub(crate) fn is_bracket(byte: u8) -> bool
    ensures { result ≡ is_bracket byte }
{
    is_opening(byte) || is_closing(byte)
}

/// The other bracket of the same kind.
pub(crate) fn partner(bracket: u8) -> u8
    ensures { result ≡ partner bracket }
{
    match bracket {
        b'(' => b')',
        b')' => b'(',
        b'[' => b']',
        b']' => b'[',
        b'{' => b'}',
        b'}' => b'{',
        other => other,
    }
}

/// The bracket at a place, with the place.
fn bracket_at(bytes: &[u8], place: usize) -> Option<(u8, usize)>
    ensures { result ≡ bracket_at bytes.now place }
{
    match bytes.get(place) {
        Some(byte) if is_opening(*byte) || is_closing(*byte) => Some((*byte, place)),
        _ => None,
    }
}

/// The bracket at the cursor, or the one right before it.
fn bracket_near(bytes: &[u8], pos: usize) -> Option<(u8, usize)>
    ensures { result ≡ bracket_near bytes.now pos }
{
    match bracket_at(bytes, pos) {
        Some(found) => Some(found),
        None if pos == 0 => None,
        None => bracket_at(bytes, pos - 1),
    }
}

/// The bracket whose match is to be shown, and its place: the one at the cursor, or the one right
/// before it. After the line, only a closing bracket is returned. Elsewhere a closing bracket at
/// the line's start or an opening one at its end isn't returned, because it has no match.
pub fn check_bracket(line: &str, pos: usize) -> Option<(u8, usize)>
    ensures { result ≡ bracket_to_match line.now pos }
{
    let bytes = line.as_bytes();
    let last = bytes.len().saturating_sub(1);
    if pos >= bytes.len() {
        return match bracket_at(bytes, last) {
            Some((byte, place)) if is_closing(byte) => Some((byte, place)),
            _ => None,
        };
    }
    let (byte, place) = bracket_near(bytes, pos)?;
    let has_room = if is_closing(byte) {
        place != 0
    } else {
        place != last
    };
    if has_room { Some((byte, place)) } else { None }
}

/// The bracket that matches `bracket` at `pos`, and its place. It is the first one after an opening
/// bracket, or the nearest one before a closing bracket, that leaves none of that kind open.
/// Brackets of other kinds don't count. A byte that is no bracket has no match. The byte at `pos`
/// itself isn't read.
pub fn find_matching_bracket(line: &str, pos: usize, bracket: u8) -> Option<(u8, usize)>
    ensures place { result
        ≡ option_map (λ place. (partner bracket, place)) (match_place line.now pos bracket) }
    ensures stands { IfSome result (λ found. slice_get line.now found.1 ≡ Some found.0) }
    ensures ascii { IfSome result (λ found. found.0 < 128) }
{
    let bytes = line.as_bytes();
    let matching = partner(bracket);
    let place = if is_opening(bracket) {
        match_behind(bytes, pos, bracket, matching)?
    } else if is_closing(bracket) {
        match_before(bytes, pos, bracket, matching)?
    } else {
        return None;
    };
    Some((matching, place))
}

/// The place after `pos` of the `matching` bracket.
#[inline(never)]
#[tactic(auto, using(crate::proofs::MatchLemmas::behind_steps))]
fn match_behind(bytes: &[u8], pos: usize, bracket: u8, matching: u8) -> Option<usize>
    ensures place { result ≡ option_map (λ n. pos + 1 + n)
        (bytes_between bracket matching 0 (drop (pos + 1) bytes.now)) }
    ensures stands { IfSome result (λ place. slice_get bytes.now place ≡ Some matching) }
{
    if pos >= bytes.len() {
        return None;
    }
    let mut unclosed: usize = 0;
    for place in pos + 1..bytes.len() {
        if bytes[place] == matching {
            if unclosed == 0 {
                return Some(place);
            }
            unclosed -= 1;
        } else if bytes[place] == bracket {
            unclosed += 1;
        }
    }
    None
}

/// The place before `pos` of the `matching` bracket.
#[inline(never)]
#[tactic(auto, using(crate::proofs::MatchLemmas::before_steps))]
fn match_before(bytes: &[u8], pos: usize, bracket: u8, matching: u8) -> Option<usize>
    ensures place { result ≡ option_map (λ n. length (take pos bytes.now) - 1 - n)
        (bytes_between bracket matching 0 (reverse (take pos bytes.now))) }
    ensures stands { IfSome result (λ place. slice_get bytes.now place ≡ Some matching) }
{
    let mut unclosed: usize = 0;
    for place in (0..pos.min(bytes.len())).rev() {
        if bytes[place] == matching {
            if unclosed == 0 {
                return Some(place);
            }
            unclosed -= 1;
        } else if bytes[place] == bracket {
            unclosed += 1;
        }
    }
    None
}
