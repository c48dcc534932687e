//! Whitespace at a line's start.
ghost use Rattle.std.specs.Prelude.{◌≡◌};
ghost use Rattle.line_help.specs.History.{begins_with_space};

/// Whether the first character is whitespace (Unicode's property White_Space).
pub(crate) fn begins_with_space(line: &str) -> bool
    ensures { result ≡ begins_with_space line.now }
{
    match line.chars().next() {
        Some(c) => c.is_whitespace(),
        None => false,
    }
}
