//! The renderer's calls as they are written to a sink, byte by byte. Drawings in all their forms are
//! in the rows of `sessions_program`.

use line_buffer::{GraphemeClusterMode, Layout, LineBuffer, Position};
use line_config::{BellStyle, ReadlineError, Sink, VecSink};
use line_editor::Renderer;
use line_screen::{ScreenRenderer, laws};
use stand_ins::lines::line_of;
use stand_ins::rows::{Player, raised, rows_hold, stands};
use stand_ins::sinks::FailingSink;
use stand_ins::tables::{pictured_bytes, word_and_rest};
use std::alloc::Global;
use std::test::Fail;

const ORIGIN: Position = Position { col: 0, row: 0 };

// The bell, and a call: the bytes, with a bar for each flush. So what a call writes is passed on
// together, at its end. `refresh_line` and `clear_rows` are over a drawing with its cursor in its
// first cell; `_inside` is for one in another row, and a drawing over it is the first one.
const CALLS: &str = "
    audible up          = ␛[2A␛[10D|
    audible stay        = nothing
    audible down        = ␛[2B␛[10C|
    audible write c     = c|
    audible clear_to_eol = ␛[K|
    audible move_and_clear_to_eol = ␛[2A␛[10D␛[K|
    audible insert_char = ␛[@c|
    audible insert_char a = ␛[@c␍␊␛[1A␛[79C|
    audible insert_char ab = ␛[@c␍␊␛[@b␛[1A␛[78C|
    audible delete_char = ␛[2A␛[66C␛[P|
    audible delete_char abc = ␛[2A␛[66C␛[P␛[1Cb␍␊␛[P␛[1A␛[78C|
    audible delete_chars = ␛[2A␛[66C␛[2P|
    audible delete_chars abc = ␛[2A␛[66C␛[2Pab␍␊␛[2P␛[1A␛[78C|
    audible append_text c = c|
    audible append_text éc漢 = ␛[mé␛[mc␛[m漢␛[m|
    audible write_over  = ␈␈␛[2C|
    audible write_over a = ␈␈a␛[1C|
    audible write_over ab = ␈␈ab|
    audible write_far ab = ␛[2A␛[10Dab␈|
    audible refresh_line ab = ␍␛[J␛[m> ␛[mab␛[m␛[m|
    audible refresh_inside ab = ␛[m> ␛[mab␛[m␛[m␛[2A␛[10D|
    audible refresh_rest ab = ␛[Jab|
    audible clear_screen = ␛[H␛[J|
    audible clear_rows  = ␍␛[J|
    audible clear_rows_inside = ␛[1A␍␛[J|
    audible leftmost    = nothing
    audible begin       = nothing
    audible end         = nothing
    audible beep        = ␇|
    none beep           = nothing
    visible beep        = nothing
";

fn screen<D: Sink>(sink: D, bell: BellStyle) -> ScreenRenderer<D> {
    ScreenRenderer::new(sink, 80, GraphemeClusterMode::Unicode, bell)
}

const HERE: Position = Position { col: 12, row: 3 };

const THERE: Position = Position { col: 2, row: 1 };

// Two columns before `HERE`.
const NEAR: Position = Position { col: 10, row: 3 };

// The cell after `THERE`.
const NEXT: Position = Position { col: 3, row: 1 };

// The last cell but one of a row.
const EDGE: Position = Position { col: 78, row: 1 };

// Puts a character at the edge, before letters.
fn put_at_edge<Out: Renderer>(screen: &mut Out, rest: &str) -> Result<(), ReadlineError> {
    let new = Position { col: 79, row: 1 };
    let end = screen.calculate_position(rest, new);
    if screen.get_columns() == 80 {
        return screen.insert_char('c', rest, EDGE, new, end);
    }
    Ok(())
}

// Takes so many characters out at the edge, before letters.
fn taken_at_edge<Out: Renderer>(
    screen: &mut Out,
    count: u16,
    rest: &str,
) -> Result<(), ReadlineError> {
    let end = screen.calculate_position(rest, EDGE);
    if screen.get_columns() == 80 && 0 < count && count <= 2 {
        return screen.move_and_delete_chars(HERE, EDGE, count, rest, end);
    }
    Ok(())
}

// Writes up to three letters from a place on, and moves the cursor to another.
fn written_over<Out: Renderer>(
    screen: &mut Out,
    letters: &str,
    at: Position,
    new: Position,
) -> Result<(), ReadlineError> {
    if screen.get_columns() == 80 && letters.len() <= 3 && at.col <= 12 {
        return screen.write_over(letters, HERE, at, new);
    }
    Ok(())
}

// A layout with the cursor and the end at the origin, or inside the text.
fn layout_for(call: &str) -> Layout {
    let mut layout = Layout::new(GraphemeClusterMode::Unicode);
    if call.ends_with("_inside") {
        (layout.cursor, layout.end) = (THERE, HERE);
    }
    layout
}

// Draws a line behind a prompt, over an older drawing or as the first one.
fn draw<Out: Renderer>(
    screen: &mut Out,
    line: &LineBuffer,
    old: Option<Layout>,
    new: &Layout,
) -> Result<(), ReadlineError> {
    screen.refresh_line("> ", line, None, old, new, None::<&()>, false, false)
}

// Draws a line from a place on.
fn draw_rest<Out: Renderer>(
    screen: &mut Out,
    line: &LineBuffer,
    from: usize,
) -> Result<(), ReadlineError> {
    let text = line.as_str();
    if !text.is_char_boundary(from) {
        return Ok(());
    }
    let at = screen.calculate_position(&text[..from], ORIGIN);
    let new = screen.compute_layout(ORIGIN, true, line, None);
    screen.refresh_rest(
        line,
        from,
        None,
        ORIGIN,
        at,
        &new,
        None::<&()>,
        false,
        false,
    )
}

// Makes a call that sends bytes.
fn call_made<Out: Renderer>(
    screen: &mut Out,
    call: &str,
    text: &LineBuffer,
) -> Result<(), ReadlineError> {
    let layout = layout_for(call);
    match call {
        "up" => screen.move_cursor(HERE, THERE),
        "stay" => screen.move_cursor(HERE, HERE),
        "down" => screen.move_cursor(THERE, HERE),
        "write" => screen.write_and_flush(text.as_str()),
        "beep" => screen.beep(),
        "clear_to_eol" => screen.clear_to_eol(),
        "move_and_clear_to_eol" => screen.move_and_clear_to_eol(HERE, THERE),
        "insert_char" => put_at_edge(screen, text.as_str()),
        "delete_char" => taken_at_edge(screen, 1, text.as_str()),
        "delete_chars" => taken_at_edge(screen, 2, text.as_str()),
        "write_over" => written_over(screen, text.as_str(), NEAR, HERE),
        "write_far" => written_over(screen, text.as_str(), THERE, NEXT),
        "append_text" => screen.append_text(text.as_str(), HERE).map(|_| ()),
        "refresh_line" => draw(screen, text, Some(layout), &layout),
        "refresh_inside" => draw(screen, text, None, &layout),
        "refresh_rest" => draw_rest(screen, text, 0),
        "clear_screen" => screen.clear_screen(),
        "clear_rows" | "clear_rows_inside" => screen.clear_rows(&layout),
        "leftmost" => screen.move_cursor_at_leftmost(),
        "begin" => screen.begin_synchronized_update(),
        _ => screen.end_synchronized_update(),
    }
}

fn bell_of(word: &str) -> BellStyle {
    match word {
        "audible" => BellStyle::Audible,
        "visible" => BellStyle::Visible,
        _ => BellStyle::None,
    }
}

// A sink that marks each flush.
fn marking() -> FailingSink {
    let mut sink = FailingSink::with_room(usize::MAX);
    sink.mark_flushes();
    sink
}

// The bytes of a call over a line.
fn sent(
    alloc: Global,
    bell: BellStyle,
    call: &str,
    text: &LineBuffer,
) -> Result<String, ReadlineError> {
    let mut screen = screen(marking(), bell);
    call_made(&mut screen, call, text)?;
    raised(pictured_bytes(alloc, screen.into_sink().bytes()))
}

/// The bytes of the renderer's calls.
#[derive(Drop)]
struct Calls;

impl Player for Calls {
    fn play(&mut self, alloc: Global, call: &str) -> Result<String, Fail> {
        let (bell, call) = word_and_rest(call);
        let (call, text) = word_and_rest(call);
        let line = line_of(alloc, text)?;
        raised(sent(alloc, bell_of(bell), call, &line))
    }
}

#[test]
fn makes_each_call_and_passes_it_on_together(rt: HostRuntime) -> Result<(), Fail> {
    rows_hold(rt.alloc(), &mut Calls, CALLS)?;
    stands(a_size_is_kept(rt.alloc()), "a renderer of another size")
}

fn a_size_is_kept(alloc: Global) -> bool {
    keeps_its_size(&mut screen(VecSink::new(alloc), BellStyle::Audible))
}

fn keeps_its_size(screen: &mut ScreenRenderer<VecSink>) -> bool {
    screen.update_size();
    screen.get_columns() == 80
        && screen.get_rows() == 65535
        && !screen.colors_enabled()
        && !screen.failed()
}

#[test]
fn has_laws(_: HostRuntime) {
    laws::full_drawing();
    laws::start();
    laws::calls();
    laws::short_insertions();
    laws::short_kills();
    laws::chains();
    laws::meaning();
    laws::cells();
}
