//! Styles: how a text is drawn, and the parts of a drawing.
ghost use Rattle.std.specs.Prelude.{◌≡◌, [], ◌∷◌};
ghost use Rattle.line_help.specs.Paints.{plain, first_mark};

/// The eight colours of ECMA-48, in the order of their numbers.
#[derive(Clone, Copy, Debug, PartialEq, Eq)]
pub enum Hue {
    Black,
    Red,
    Green,
    Yellow,
    Blue,
    Magenta,
    Cyan,
    White,
}

/// A colour of a text or of its background.
#[derive(Clone, Copy, Debug, PartialEq, Eq)]
pub enum Colour {
    /// The terminal's own colour.
    Terminal,
    /// One of the eight colours: SGR 30 to 37, for a background 40 to 47.
    Basic(Hue),
    /// Bright, one of the eight: SGR 90 to 97, for a background 100 to 107. ECMA-48 lacks these;
    /// xterm has them.
    Bright(Hue),
    /// A colour of the terminal's palette: SGR 38;5;n, for a background 48;5;n, as xterm has it.
    Palette(u8),
    /// Red, green and blue: SGR 38;2;r;g;b, for a background 48;2;r;g;b, as xterm has it.
    Rgb(u8, u8, u8),
}

/// How a text is drawn: colours and flags of the control sequence SGR (ECMA-48, section 8.3.117).
/// Each value is a style that can be sent.
#[derive(Clone, Copy, Debug, PartialEq, Eq)]
pub struct Style {
    /// The colour of the text.
    pub text: Colour,
    /// The colour of its background.
    pub background: Colour,
    /// SGR 1.
    pub bold: bool,
    /// SGR 2.
    pub faint: bool,
    /// SGR 3.
    pub italic: bool,
    /// SGR 4.
    pub underline: bool,
    /// The two colours are exchanged: SGR 7.
    pub reverse: bool,
}

/// It is copied as a whole, which costs less than making it field by field.
const PLAIN: &Style = &Style {
    text: Colour::Terminal,
    background: Colour::Terminal,
    bold: false,
    faint: false,
    italic: false,
    underline: false,
    reverse: false,
};

impl Style {
    /// The terminal's own colours, and no flag: a text is drawn as if it had no style.
    pub fn plain() -> Self
        ensures { result ≡ plain }
    {
        *PLAIN
    }
}

/// The style of the next bytes of a text, after those of the span before. A cluster is drawn in
/// the style of its first byte.
#[derive(Clone, Copy, Debug)]
pub struct Span {
    /// The number of bytes.
    pub len: usize,
    pub style: Style,
}

/// A part of a drawing.
#[derive(Clone, Copy, Debug)]
pub enum Part {
    /// The prompt: the line's own if true, else another one, as a count's.
    Prompt(bool),
    /// The line, with the cursor at this place.
    Line(usize),
    /// The hint after the line.
    Hint,
    /// The message after the line.
    Message,
}

/// What a highlighter notes for its next span.
///
/// A text's spans are asked for one at a time, so a highlighter needs no memory for them. A call of
/// `next_span` has `Mark::first()` or a mark that came with a span, and may come again: a drawing
/// goes back to an earlier mark, and may end before a call returns `None`. Only the highlighter
/// reads `at` and `state`: mostly the number of bytes before the next span, and what is known of
/// the text there. To implement `next_span`, define which spans follow each mark (`paints` of
/// `Marks`). The call returns the first of them and a mark that the others follow. There are
/// finitely many, so a drawing ends.
///
/// In the line `(a)`, with the cursor at 0, `MatchingBracketHighlighter` returns:
///
/// | Mark | Span | Next mark |
/// |---|---|---|
/// | at 0, state 0 | 2 bytes, plain | at 2, state 1 |
/// | at 2, state 1 | 1 byte, bold and blue | at 3, state 2 |
/// | at 3, state 2 | `None` | |
#[derive(Clone, Copy, Debug)]
pub struct Mark {
    pub at: usize,
    pub state: usize,
}

impl Mark {
    /// The mark before the first span.
    pub fn first() -> Self
        ensures { result ≡ first_mark }
    {
        Mark { at: 0, state: 0 }
    }
}
