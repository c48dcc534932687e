//! Places on the display, counted in cells.

ghost use Rattle.std.specs.Prelude.{◌≡◌, ◌≤◌, min, false, chars, unwrap_or, None};
ghost use Rattle.std.specs.Ordering.{as_partial_cmp};
ghost use Rattle.std.specs.Cmp.{partial_order_from_agreeing_total};
ghost use Rattle.std.proofs.Common.{refl};
ghost use Rattle.line_buffer.specs.Cells.{origin, reading_order, reading_order_total, reading_order_ties};
ghost use Rattle.line_buffer.specs.declared.layout.GraphemeClusterMode.TheVariants.{WcWidth, NoZwj};
ghost use Rattle.line_buffer.specs.Width.{char_columns_of, columns_of, width_of};

use std::cmp::Ordering;
use unicode_width::{UnicodeWidthChar, UnicodeWidthStr};

/// A number of rows or of columns.
pub type Unit = u16;

/// A cell of the display. Rows and columns count from 0.
#[derive(Clone, Copy, Debug, Default, PartialEq, Eq)]
pub struct Position {
    pub col: Unit,
    pub row: Unit,
}

impl Ord for Position {
    ghost cmp = { reading_order };

    ghost total = { reading_order_total };

    ghost matches_partial_cmp = { λ _ _. refl };

    ghost matches_eq = { reading_order_ties };

    /// Compares rows first, then columns.
    fn cmp(&self, other: &Position) -> Ordering {
        self.row.cmp(&other.row).then(self.col.cmp(&other.col))
    }
}

impl PartialOrd for Position {
    ghost partial_cmp = { as_partial_cmp reading_order };

    ghost laws = { partial_order_from_agreeing_total reading_order reading_order_total (λ _ _. refl)
        reading_order_ties };

    fn partial_cmp(&self, other: &Position) -> Option<Ordering> {
        Some(self.cmp(other))
    }
}

/// How a terminal counts the columns of a grapheme cluster.
#[derive(Clone, Copy, Debug, PartialEq, Eq)]
pub enum GraphemeClusterMode {
    /// By clusters: an emoji sequence takes the columns of one emoji.
    Unicode,
    /// By characters, like C's `wcwidth`.
    WcWidth,
    /// By clusters, but without joining at a zero width joiner.
    NoZwj,
}

/// Joins the emoji before it and after it into one.
pub(crate) const ZERO_WIDTH_JOINER: char = '\u{200D}';

/// The columns of a character by itself.
pub(crate) fn char_columns(c: char) -> Unit
    ensures { result ≡ char_columns_of c }
{
    match c.width() {
        Some(columns) => columns as Unit,
        None => 0,
    }
}

/// The sum of the columns of the characters of a text, each by itself.
fn all_chars_columns(text: &str) -> usize
    ensures { result ≡ min (columns_of WcWidth (chars text.now)) usize.MAX }
{
    text.chars().fold(0, |total: usize, c| {
        total.saturating_add(usize::from(char_columns(c)))
    })
}

/// The sum of the columns of the parts of a text between joiners, each by itself.
fn unjoined_columns(text: &str) -> usize
    ensures { result ≡ min (columns_of NoZwj (chars text.now)) usize.MAX }
{
    text.split(ZERO_WIDTH_JOINER).fold(0, |total: usize, part| {
        total.saturating_add(part.width())
    })
}

impl GraphemeClusterMode {
    /// The number of columns that a text takes, without a limit.
    pub(crate) fn columns(&self, text: &str) -> usize
        ensures { result ≡ min (columns_of self.now (chars text.now)) usize.MAX }
    {
        match self {
            GraphemeClusterMode::Unicode => text.width(),
            GraphemeClusterMode::WcWidth => all_chars_columns(text),
            GraphemeClusterMode::NoZwj => unjoined_columns(text),
        }
    }

    /// The number of columns that a text takes, at most 65,535.
    pub fn width(&self, text: &str) -> Unit
        ensures { result ≡ width_of self.now text.now }
    {
        Unit::try_from(self.columns(text)).unwrap_or(Unit::MAX)
    }
}

/// Where the tabs of a row end on a display: at the next stop, or at the row's end. The stops are
/// `apart` columns from one to the next, counted from the first column. 0 counts as 1.
#[derive(Clone, Copy, Debug, PartialEq, Eq)]
pub struct TabStops {
    /// The columns of a row.
    pub columns: Unit,
    pub apart: u8,
}

/// The positions of the parts of a drawn line.
#[derive(Clone, Copy, Debug, PartialEq, Eq)]
pub struct Layout {
    pub grapheme_cluster_mode: GraphemeClusterMode,
    /// Where the prompt ends.
    pub prompt_size: Position,
    /// The prompt is the session's own.
    pub default_prompt: bool,
    pub cursor: Position,
    /// Where the whole drawing ends.
    pub end: Position,
    /// A hint or a message is drawn after the text.
    pub has_info: bool,
    /// Where tabs end, if they are drawn as blanks. If not, each is one cluster like others.
    pub tab_stops: Option<TabStops>,
}

impl Layout {
    /// The layout before anything is drawn.
    pub fn new(grapheme_cluster_mode: GraphemeClusterMode) -> Self
        ensures { result ≡ record {
          grapheme_cluster_mode = grapheme_cluster_mode;
          prompt_size
              = origin;
          default_prompt = false;
          cursor = origin;
          end = origin;
          has_info = false;
          tab_stops = None;
        } }
    {
        let origin = Position { col: 0, row: 0 };
        Layout {
            grapheme_cluster_mode,
            prompt_size: origin,
            default_prompt: false,
            cursor: origin,
            end: origin,
            has_info: false,
            tab_stops: None,
        }
    }

    /// The number of columns that a text takes on this display, at most 65,535.
    pub fn width(&self, text: &str) -> Unit
        ensures { result ≡ width_of self.now.grapheme_cluster_mode text.now }
    {
        self.grapheme_cluster_mode.width(text)
    }
}
