//! Lines drawn on standard output, each a named case. A test shows them on a terminal.

use anyhow::{Result, bail};
use line_buffer::{GraphemeClusterMode, Layout, LineBuffer, NoListener, Position};
use line_config::{BellStyle, WriteSink};
use line_editor::Renderer;
use line_screen::ScreenRenderer;
use std::alloc::Global;

/// A line on rows of so many columns, with the line's text before the cursor, and what follows the
/// line; and how many columns apart the stops are, if tabs are drawn as blanks.
#[derive(Clone, Copy)]
struct Case<'a> {
    columns: u16,
    stop: Option<u8>,
    line: &'a str,
    before: &'a str,
    info: &'a str,
}

fn at_end<'a>(columns: u16, line: &'a str) -> Case<'a> {
    Case {
        columns,
        stop: None,
        line,
        before: line,
        info: "",
    }
}

fn with_stops<'a>(columns: u16, line: &'a str) -> Case<'a> {
    Case {
        stop: Some(8),
        ..at_end(columns, line)
    }
}

fn case_of<'a>(name: &str) -> Option<Case<'a>> {
    Some(match name {
        "wrapped" | "shorter" => at_end(10, "abcdefghij"),
        "full" => at_end(10, "abcdefgh"),
        "wide" => at_end(9, "\u{6F22}\u{5B57}\u{6F22}\u{5B57}"),
        "control" => at_end(20, "a\tb"),
        "tabs" => with_stops(20, "a\tb\n\t\tc"),
        "tab-at-the-margin" => with_stops(10, "abcdef\tx"),
        "accent" => Case {
            columns: 20,
            stop: None,
            line: "e\u{301}x",
            before: "e\u{301}",
            info: "",
        },
        "message" => Case {
            columns: 20,
            stop: None,
            line: "]",
            before: "]",
            info: "unpaired",
        },
        "rows" => Case {
            columns: 20,
            stop: None,
            line: "one\ntwo\nthree",
            before: "one",
            info: "",
        },
        _ => return None,
    })
}

fn line_of(alloc: Global, case: Case) -> Result<LineBuffer> {
    let mut line = LineBuffer::with_capacity(alloc, 64)?;
    line.replace(alloc, 0..0, case.line, &mut NoListener)?;
    if case.line.is_char_boundary(case.before.len()) {
        line.set_pos(case.before.len());
    }
    Ok(line)
}

fn draw<Out: Renderer>(alloc: Global, screen: &mut Out, case: Case, old: Layout) -> Result<Layout> {
    let line = line_of(alloc, case)?;
    let prompt_size = screen.calculate_position("> ", Position { col: 0, row: 0 });
    let info = if case.info.is_empty() {
        None
    } else {
        Some(case.info)
    };
    let new = screen.compute_layout(prompt_size, true, &line, info);
    screen.refresh_line(
        "> ",
        &line,
        info,
        Some(old),
        &new,
        None::<&()>,
        false,
        false,
    )?;
    Ok(new)
}

/// Draws the case with that name.
pub fn draw_named(rt: &HostRuntime, name: &str) -> Result<()> {
    let Some(case) = case_of(name) else {
        bail!("no such case");
    };
    let mode = GraphemeClusterMode::Unicode;
    let sink = WriteSink::new(rt.stdout());
    let mut screen = ScreenRenderer::new(
        sink,
        case.columns.max(2).min(1000),
        mode,
        BellStyle::None,
    );
    screen.set_tab_stop(case.stop);
    let layout = draw(rt.alloc(), &mut screen, case, Layout::new(mode))?;
    if name == "shorter" {
        draw(rt.alloc(), &mut screen, at_end(case.columns, "ab"), layout)?;
    }
    Ok(())
}
