//! A text with styles, in the cells that it has without them.

ghost use Rattle.std.specs.Prelude.{◌∷◌, ◌≡◌, ◌≤◌, ◌<◌, ◌==◌, ◌+◌, ◌++◌, [], true, IsTrue, IsCharBoundary, OnOk, OnErr, IfOk, None, length, drop, map, nat_le, if◌then◌else◌};
ghost use Rattle.std.specs.Option.{option_map_or};
ghost use Rattle.unicode_segmentation.specs.Grapheme.{graphemes};
ghost use Rattle.line_screen.specs.Drawing.{left_col, drawn_item, SendsTo, col_after, break_if, break_unless, fitted_col, col_after_one, no_style, row_break};
ghost use Rattle.line_screen.specs.Drawing.DrawnItem.{NewRow, Cluster, Tab};
ghost use Rattle.line_screen.specs.Measure.{widths_by};
ghost use Rattle.line_screen.specs.Colours.{end_of, bytes_of_all_painted, style_bytes, letters_within, spans_within, letters_in_style, painted_letters, painted_clusters, painted_row, painted_text, painted_item, bytes_of_painted, SendsPainted, spans_in, span_of, brush_paints, brush_spans, first_style, skip};
ghost use Rattle.line_screen.specs.Styles.{numbers};
ghost use Rattle.line_help.specs.Paints.{IsNextSpan, first_mark};
ghost use Rattle.line_screen.specs.Colours.PaintedItem.{Bare, Shaded, Fenced, Padded};
ghost use Rattle.line_config.specs.Sending.{Sends};

use crate::drawing::sequences::send;
use crate::drawing::styles::{is_plain, send_style, send_styled_letter};
use crate::drawing::text::{leave_full, make_room, send_letters, send_rows, send_tab, send_text};
use crate::grid::{Grid, blanks, is_letter, tab_columns};
use line_buffer::{Unit, is_printable_text};
use line_config::{DeviceFailed, Sink};
use line_help::{Highlighter, Mark, Part, Span, Style};
use unicode_segmentation::UnicodeSegmentation;

/// A text, and the highlighter that returns its spans, if there is one.
#[derive(Drop)]
pub(crate) struct Brush<'a, H> {
    pub highlighter: Option<&'a H>,
    pub part: Part,
    pub text: &'a str,
}

impl<H: Highlighter> Brush<'_, H> {
    /// The next span from a mark on.
    fn next(&self, from: Mark) -> Option<(Span, Mark)>
        ensures { IsNextSpan (brush_paints H.marks self.now) from result }
    {
        match self.highlighter {
            Some(highlighter) => highlighter.next_span(self.part, self.text, from),
            None => None,
        }
    }
}

/// The remaining spans: what is left of one that was returned, and those from a mark on. None of
/// these is asked for before it is needed.
#[derive(Clone, Copy)]
pub(crate) struct Spans {
    first: Option<Span>,
    mark: Mark,
}

impl Spans {
    /// All spans of a text.
    fn all() -> Self
        ensures first { result.first ≡ None }
        ensures mark { result.mark ≡ first_mark }
    {
        Spans {
            first: None,
            mark: Mark::first(),
        }
    }

    /// The first of them, and the mark from which the others follow.
    fn next<H: Highlighter>(self, brush: &Brush<'_, H>) -> Option<(Span, Mark)>
        ensures { spans_in (brush_paints H.marks brush.now) self
            ≡ option_map_or (λ n. span_of n.0 ∷ map span_of (brush_paints H.marks brush.now n.1))
            result [] }
    {
        match self.first {
            Some(span) => Some((span, self.mark)),
            None => brush.next(self.mark),
        }
    }

    /// What is left after so many bytes.
    fn skip<H: Highlighter>(self, brush: &Brush<'_, H>, count: usize) -> Self
        ensures { spans_in (brush_paints H.marks brush.now) result
            ≡ skip count (spans_in (brush_paints H.marks brush.now) self) }
    {
        let mut left = self;
        let mut count = count;
        while let Some((span, mark)) = left.next(brush) {
            if count < span.len {
                let rest = Span {
                    len: span.len - count,
                    style: span.style,
                };
                return Spans {
                    first: Some(rest),
                    mark,
                };
            }
            count -= span.len;
            left = Spans { first: None, mark };
        }
        left
    }

    /// The style of the first byte.
    fn style<H: Highlighter>(self, brush: &Brush<'_, H>) -> Style
        ensures { numbers result ≡ first_style (spans_in (brush_paints H.marks brush.now) self) }
    {
        let mut left = self;
        while let Some((span, mark)) = left.next(brush) {
            if span.len > 0 {
                return span.style;
            }
            left = Spans { first: None, mark };
        }
        Style::plain()
    }
}

/// Goes to the next row after a full one. The style ends before the row break, and begins again
/// after it.
fn leave_shaded<D: Sink>(
    sink: &mut D,
    grid: Grid,
    style: Style,
    col: Unit,
) -> Result<Unit, DeviceFailed>
    requires inside { col ≤ grid.columns }
    ensures { SendsTo
        (if col == grid.columns then no_style ++ row_break ++ style_bytes (numbers style) else [])
        (left_col grid.columns col)
        grid.columns D.held D.has_failed sink.old sink.new result }
{
    if col == grid.columns {
        send(sink, b"\x1B[m\r\n")?;
        send_style(sink, style)?;
        return Ok(0);
    }
    Ok(col)
}

/// Letters of a style that stands, that fit in the row.
fn send_shaded_run<D: Sink>(
    sink: &mut D,
    grid: Grid,
    style: Style,
    col: Unit,
    letters: &[u8],
) -> Result<Unit, DeviceFailed>
    requires inside { col < grid.columns }
    requires room { col + length letters.now ≤ grid.columns }
    ensures { SendsPainted (map (Shaded (numbers style)) letters.now) col
        grid.columns D.held D.has_failed sink.old sink.new result }
{
    send(sink, letters)?;
    leave_shaded(sink, grid, style, col + letters.len() as Unit)
}

/// Letters of a style that stands.
fn send_shades<D: Sink>(
    sink: &mut D,
    grid: Grid,
    style: Style,
    start: Unit,
    letters: &[u8],
) -> Result<Unit, DeviceFailed>
    requires inside { start < grid.columns }
    ensures { SendsPainted (map (Shaded (numbers style)) letters.now) start
        grid.columns D.held D.has_failed sink.old sink.new result }
{
    let mut col = start;
    let mut rest = letters;
    while !rest.is_empty() {
        let count = rest.len().min(usize::from(grid.columns - col));
        let (front, back) = rest.split_at(count);
        col = send_shaded_run(sink, grid, style, col, front)?;
        rest = back;
    }
    Ok(col)
}

/// A letter of a style that stands, and its end, inside the row.
fn send_shade_end<D: Sink>(
    sink: &mut D,
    grid: Grid,
    col: Unit,
    letter: u8,
) -> Result<Unit, DeviceFailed>
    requires inside { col + 1 < grid.columns }
    ensures { SendsTo (letter ∷ no_style) (col + 1)
        grid.columns D.held D.has_failed sink.old sink.new result }
{
    send(sink, &[letter, 0x1B, b'[', b'm'])?;
    Ok(col + 1)
}

/// Letters of a style that stands, and its end. A single letter that doesn't fill the row, as a
/// marked bracket mostly is, is one write with the end.
fn send_shades_end<D: Sink>(
    sink: &mut D,
    grid: Grid,
    style: Style,
    col: Unit,
    letters: &[u8],
) -> Result<Unit, DeviceFailed>
    requires inside { col < grid.columns }
    ensures { SendsTo
        (bytes_of_all_painted grid.columns (map (Shaded (numbers style)) letters.now) col
        ++ no_style)
        (end_of grid.columns (map (Shaded (numbers style)) letters.now) col)
        grid.columns D.held D.has_failed sink.old sink.new result }
{
    if letters.len() == 1 && col + 1 < grid.columns {
        return send_shade_end(sink, grid, col, letters[0]);
    }
    let end = send_shades(sink, grid, style, col, letters)?;
    send(sink, b"\x1B[m")?;
    Ok(end)
}

/// Letters of one style, between its beginning and its end.
fn send_shaded<D: Sink>(
    sink: &mut D,
    grid: Grid,
    style: Style,
    col: Unit,
    letters: &[u8],
) -> Result<Unit, DeviceFailed>
    requires inside { col < grid.columns }
    ensures { SendsPainted (letters_in_style (numbers style) letters.now) col
        grid.columns D.held D.has_failed sink.old sink.new result }
{
    if is_plain(style) {
        return send_letters(sink, grid, col, letters);
    }
    if letters.is_empty() {
        return Ok(col);
    }
    send_style(sink, style)?;
    send_shades_end(sink, grid, style, col, letters)
}

/// Printable ASCII, span by span. Spans of what follows it aren't asked for.
fn send_spans<D: Sink, H: Highlighter>(
    sink: &mut D,
    grid: Grid,
    start: Unit,
    brush: &Brush<'_, H>,
    spans: Spans,
    letters: &[u8],
) -> Result<Unit, DeviceFailed>
    requires inside { start < grid.columns }
    ensures { SendsPainted
        (painted_letters (spans_in (brush_paints H.marks brush.now) spans) letters.now) start
        grid.columns D.held D.has_failed sink.old sink.new result }
{
    let mut col = start;
    let mut left = spans;
    let mut rest = letters;
    while !rest.is_empty() {
        match left.next(brush) {
            None => return send_letters(sink, grid, col, rest),
            Some((span, mark)) => {
                let count = span.len.min(rest.len());
                let (front, back) = rest.split_at(count);
                col = send_shaded(sink, grid, span.style, col, front)?;
                rest = back;
                left = Spans { first: None, mark };
            }
        }
    }
    Ok(col)
}

/// The bytes of a cluster, or the blanks of a tab, between their style and its end.
fn send_framed<D: Sink>(sink: &mut D, style: Style, bytes: &[u8]) -> Result<(), DeviceFailed>
    ensures { Sends D.held D.has_failed (style_bytes (numbers style) ++ bytes.now ++ no_style)
        sink.old sink.new result }
{
    send_style(sink, style)?;
    send(sink, bytes)?;
    send(sink, b"\x1B[m")
}

fn send_tinted<D: Sink>(
    sink: &mut D,
    grid: Grid,
    style: Style,
    col: Unit,
    cluster: &str,
    width: Unit,
) -> Result<Unit, DeviceFailed>
    requires inside { col < grid.columns }
    requires narrow { width ≤ grid.columns }
    ensures { SendsTo (bytes_of_painted grid.columns (Fenced (numbers style) cluster.now width) col)
        (col_after_one grid.columns (Cluster cluster.now width) col)
        grid.columns D.held D.has_failed sink.old sink.new result }
{
    let start = make_room(sink, grid, col, width)?;
    send_framed(sink, style, cluster.as_bytes())?;
    leave_full(sink, grid, start + width)
}

/// A tab between its style and its end, which comes before the row is left.
fn send_padded<D: Sink>(
    sink: &mut D,
    grid: Grid,
    style: Style,
    col: Unit,
    apart: u8,
) -> Result<Unit, DeviceFailed>
    requires inside { col < grid.columns }
    ensures { SendsTo (bytes_of_painted grid.columns (Padded (numbers style) apart) col)
        (col_after_one grid.columns (Tab apart) col)
        grid.columns D.held D.has_failed sink.old sink.new result }
{
    let width = tab_columns(grid.columns, apart, col);
    send_framed(sink, style, blanks(width))?;
    leave_full(sink, grid, col + width)
}

/// A tab with its style. One with a plain style is blanks alone.
fn send_painted_tab<D: Sink>(
    sink: &mut D,
    grid: Grid,
    style: Style,
    col: Unit,
    apart: u8,
) -> Result<Unit, DeviceFailed>
    requires inside { col < grid.columns }
    ensures { SendsPainted (painted_item (numbers style) (Tab apart)) col
        grid.columns D.held D.has_failed sink.old sink.new result }
{
    if is_plain(style) {
        send_tab(sink, grid, col, apart)
    } else {
        send_padded(sink, grid, style, col, apart)
    }
}

/// A cluster, or a question mark in the place of one that a display can't hold.
fn send_painted_cluster<D: Sink>(
    sink: &mut D,
    grid: Grid,
    style: Style,
    col: Unit,
    cluster: &str,
) -> Result<Unit, DeviceFailed>
    requires inside { col < grid.columns }
    ensures { SendsPainted (painted_item (numbers style)
        (drawn_item (widths_by grid.mode grid.tab grid.columns) cluster.now)) col
        grid.columns D.held D.has_failed sink.old sink.new result }
{
    if is_letter(cluster) {
        return send_shaded(sink, grid, style, col, cluster.as_bytes());
    }
    if let Some(apart) = grid.tab_of(cluster) {
        return send_painted_tab(sink, grid, style, col, apart);
    }
    match grid.cluster_columns(cluster) {
        Some(width) => send_tinted(sink, grid, style, col, cluster, width),
        None => send_tinted(sink, grid, style, col, "?", 1),
    }
}

/// Letters span by span, and the cluster after them with the style of its first byte.
fn send_painted_after<D: Sink, H: Highlighter>(
    sink: &mut D,
    grid: Grid,
    start: Unit,
    brush: &Brush<'_, H>,
    spans: Spans,
    letters: &[u8],
    cluster: &str,
) -> Result<Unit, DeviceFailed>
    requires inside { start < grid.columns }
    ensures { SendsPainted
        (painted_letters (spans_in (brush_paints H.marks brush.now) spans) letters.now
        ++ painted_item (first_style (skip (length letters.now)
        (spans_in (brush_paints H.marks brush.now) spans)))
        (drawn_item (widths_by grid.mode grid.tab grid.columns) cluster.now)) start
        grid.columns D.held D.has_failed sink.old sink.new result }
{
    let col = send_spans(sink, grid, start, brush, spans, letters)?;
    let style = spans.skip(brush, letters.len()).style(brush);
    send_painted_cluster(sink, grid, style, col, cluster)
}

/// The clusters of a row. `rest` begins with the letters that aren't sent yet, and `tail` is what
/// follows them.
fn send_painted_clusters<D: Sink, H: Highlighter>(
    sink: &mut D,
    grid: Grid,
    start: Unit,
    brush: &Brush<'_, H>,
    spans: Spans,
    row: &str,
) -> Result<Unit, DeviceFailed>
    requires inside { start < grid.columns }
    ensures { SendsPainted (painted_clusters (widths_by grid.mode grid.tab grid.columns)
        (spans_in (brush_paints H.marks brush.now) spans) [] (graphemes true row.now)) start
        grid.columns D.held D.has_failed sink.old sink.new result }
{
    let mut col = start;
    let mut left = spans;
    let mut rest = row.as_bytes();
    let mut tail = row.as_bytes();
    for cluster in row.graphemes(true) {
        let letters = rest.split_at(rest.len() - tail.len()).0;
        tail = tail.split_at(cluster.len()).1;
        if !is_letter(cluster) {
            col = send_painted_after(sink, grid, col, brush, left, letters, cluster)?;
            left = left.skip(brush, letters.len()).skip(brush, cluster.len());
            rest = tail;
        }
    }
    send_spans(sink, grid, col, brush, left, rest)
}

/// A row of the text: by spans if all is printable ASCII, else by clusters.
fn send_painted_row<D: Sink, H: Highlighter>(
    sink: &mut D,
    grid: Grid,
    start: Unit,
    brush: &Brush<'_, H>,
    spans: Spans,
    row: &str,
) -> Result<Unit, DeviceFailed>
    requires inside { start < grid.columns }
    ensures { SendsPainted (painted_row (widths_by grid.mode grid.tab grid.columns)
        (spans_in (brush_paints H.marks brush.now) spans) row.now) start
        grid.columns D.held D.has_failed sink.old sink.new result }
{
    if is_printable_text(row) {
        send_spans(sink, grid, start, brush, spans, row.as_bytes())
    } else {
        send_painted_clusters(sink, grid, start, brush, spans, row)
    }
}

/// The first row of a text, or the next one.
fn send_next_painted<D: Sink, H: Highlighter>(
    sink: &mut D,
    grid: Grid,
    start: Unit,
    is_first: bool,
    brush: &Brush<'_, H>,
    spans: Spans,
    row: &str,
) -> Result<Unit, DeviceFailed>
    requires inside { start < grid.columns }
    ensures { SendsPainted
        (if is_first then painted_row (widths_by grid.mode grid.tab grid.columns)
        (spans_in (brush_paints H.marks brush.now) spans) row.now
        else Bare NewRow ∷ painted_row (widths_by grid.mode grid.tab grid.columns)
        (skip 1 (spans_in (brush_paints H.marks brush.now) spans)) row.now) start
        grid.columns D.held D.has_failed sink.old sink.new result }
{
    if is_first {
        return send_painted_row(sink, grid, start, brush, spans, row);
    }
    send(sink, b"\r\n")?;
    send_painted_row(sink, grid, 0, brush, spans.skip(brush, 1), row)
}

/// What is left of the spans after a row.
fn behind_row<H: Highlighter>(
    is_first: bool,
    brush: &Brush<'_, H>,
    spans: Spans,
    row: &str,
) -> Spans
    ensures { spans_in (brush_paints H.marks brush.now) result
        ≡ skip (length row.now) (if is_first then spans_in (brush_paints H.marks brush.now) spans
        else skip 1 (spans_in (brush_paints H.marks brush.now) spans)) }
{
    let here = if is_first {
        spans
    } else {
        spans.skip(brush, 1)
    };
    here.skip(brush, row.len())
}

/// A text, or its end, with the spans that stand there, row by row.
fn send_painted_rows<D: Sink, H: Highlighter>(
    sink: &mut D,
    grid: Grid,
    start: Unit,
    brush: &Brush<'_, H>,
    spans: Spans,
    text: &str,
) -> Result<Unit, DeviceFailed>
    requires inside { start < grid.columns }
    ensures { SendsPainted (painted_text (widths_by grid.mode grid.tab grid.columns)
        (spans_in (brush_paints H.marks brush.now) spans) text.now) start
        grid.columns D.held D.has_failed sink.old sink.new result }
{
    let mut col = start;
    let mut left = spans;
    let mut is_first = true;
    for row in text.split('\n') {
        col = send_next_painted(sink, grid, col, is_first, brush, left, row)?;
        left = behind_row(is_first, brush, left, row);
        is_first = false;
    }
    Ok(col)
}

/// Letters of one style, between its beginning and its end, that don't fill their row. A single
/// letter, as a marked bracket mostly is, is one write with its style if that is short.
fn send_styled<D: Sink>(sink: &mut D, style: Style, letters: &[u8]) -> Result<(), DeviceFailed>
    ensures { Sends D.held D.has_failed (letters_within (numbers style) letters.now)
        sink.old sink.new result }
{
    if is_plain(style) {
        return send(sink, letters);
    }
    match letters {
        [] => Ok(()),
        [letter] => send_styled_letter(sink, style, *letter),
        _ => send_framed(sink, style, letters),
    }
}

/// Printable ASCII that doesn't fill its row, span by span.
fn send_within<D: Sink, H: Highlighter>(
    sink: &mut D,
    brush: &Brush<'_, H>,
    letters: &[u8],
) -> Result<(), DeviceFailed>
    ensures { Sends D.held D.has_failed
        (spans_within (brush_spans H.marks brush.now) letters.now) sink.old sink.new result }
{
    let mut mark = Mark::first();
    let mut rest = letters;
    while !rest.is_empty() {
        match brush.next(mark) {
            None => return send(sink, rest),
            Some((span, behind)) => {
                let len = span.len.min(rest.len());
                let (front, back) = rest.split_at(len);
                send_styled(sink, span.style, front)?;
                rest = back;
                mark = behind;
            }
        }
    }
    Ok(())
}

/// A text that isn't printable ASCII. One without spans is drawn as one without a highlighter. Not
/// inlined, so that `send_painted` needs no frame for it.
#[inline(never)]
fn send_other<D: Sink, H: Highlighter>(
    sink: &mut D,
    grid: Grid,
    start: Unit,
    brush: &Brush<'_, H>,
) -> Result<Unit, DeviceFailed>
    requires inside { start < grid.columns }
    ensures { SendsPainted (painted_text (widths_by grid.mode grid.tab grid.columns)
        (brush_spans H.marks brush.now) brush.now.text.now) start
        grid.columns D.held D.has_failed sink.old sink.new result }
{
    match brush.next(Mark::first()) {
        None => send_rows(sink, grid, start, brush.text),
        Some(_) => send_painted_rows(sink, grid, start, brush, Spans::all(), brush.text),
    }
}

/// A text with its styles, from a column on. A text of printable ASCII is one row, and isn't
/// examined further.
pub(crate) fn send_painted<D: Sink, H: Highlighter>(
    sink: &mut D,
    grid: &Grid,
    start: Unit,
    brush: &Brush<'_, H>,
) -> Result<Unit, DeviceFailed>
    requires inside { start < grid.now.columns }
    ensures { SendsPainted (painted_text (widths_by grid.now.mode grid.now.tab grid.now.columns)
        (brush_spans H.marks brush.now) brush.now.text.now) start
        grid.now.columns D.held D.has_failed sink.old sink.new result }
{
    if !is_printable_text(brush.text) {
        return send_other(sink, *grid, start, brush);
    }
    let letters = brush.text.as_bytes();
    if letters.len() < usize::from(grid.columns - start) {
        send_within(sink, brush, letters)?;
        return Ok(start + letters.len() as Unit);
    }
    send_spans(sink, *grid, start, brush, Spans::all(), letters)
}

/// A text from a place on, with what is left of its spans there. One without a highlighter has no
/// styles, and is drawn as such.
pub(crate) fn send_painted_from<D: Sink, H: Highlighter>(
    sink: &mut D,
    grid: &Grid,
    start: Unit,
    brush: &Brush<'_, H>,
    from: usize,
) -> Result<Unit, DeviceFailed>
    requires inside { start < grid.now.columns }
    requires boundary { IsCharBoundary brush.now.text.now from }
    ensures { SendsPainted (painted_text (widths_by grid.now.mode grid.now.tab grid.now.columns)
        (skip from (brush_spans H.marks brush.now)) (drop from brush.now.text.now)) start
        grid.now.columns D.held D.has_failed sink.old sink.new result }
{
    let rest = &brush.text[from..];
    match brush.highlighter {
        None => send_text(sink, *grid, start, rest),
        Some(_) => {
            let spans = Spans::all().skip(brush, from);
            send_painted_rows(sink, *grid, start, brush, spans, rest)
        }
    }
}
