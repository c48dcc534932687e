//! The control sequence that begins a style.

ghost use Rattle.std.specs.Prelude.{IfSome, ◌≡◌, ◌&&◌, not, ◌≤◌, ◌<◌, ◌+◌, ◌%◌, ◌++◌, ◌∷◌, [], IsTrue, OnOk, OnErr, decimal};
ghost use Rattle.line_config.specs.Sending.{Sends};
ghost use Rattle.line_screen.specs.Colours.{style_bytes};
ghost use Rattle.line_screen.specs.Drawing.{no_style};
ghost use Rattle.line_screen.specs.Styles.{hue_number, number, colour_numbers, flag, flags, numbers, is_terminal, flag_number};

use crate::drawing::sequences::send;
use line_config::{DeviceFailed, Sink};
use line_help::{Colour, Hue, Style};

fn is_terminal(colour: Colour) -> bool
    ensures { result ≡ is_terminal colour }
{
    match colour {
        Colour::Terminal => true,
        Colour::Basic(_) | Colour::Bright(_) | Colour::Palette(_) | Colour::Rgb(..) => false,
    }
}

/// Whether a style is plain.
pub(crate) fn is_plain(style: Style) -> bool
    ensures { result ≡ ((not style.bold && (not style.faint && (not style.italic
        && (not style.underline && not style.reverse))))
        && (is_terminal style.text && is_terminal style.background)) }
{
    let flags = style.bold || style.faint || style.italic || style.underline || style.reverse;
    !flags && is_terminal(style.text) && is_terminal(style.background)
}

fn number_of(hue: Hue) -> u8
    ensures value { result ≡ hue_number hue }
    ensures low { result < 8 }
{
    match hue {
        Hue::Black => 0,
        Hue::Red => 1,
        Hue::Green => 2,
        Hue::Yellow => 3,
        Hue::Blue => 4,
        Hue::Magenta => 5,
        Hue::Cyan => 6,
        Hue::White => 7,
    }
}

/// A number after its semicolon.
#[tactic(auto, using(crate::proofs::StyleLemmas::one_digit, crate::proofs::StyleLemmas::two_digits, crate::proofs::StyleLemmas::three_digits))]
fn send_number<D: Sink>(sink: &mut D, n: u8) -> Result<(), DeviceFailed>
    ensures { Sends D.held D.has_failed (number n) sink.old sink.new result }
{
    if n < 10 {
        return send(sink, &[b';', b'0' + n]);
    }
    if n < 100 {
        return send(sink, &[b';', b'0' + n / 10, b'0' + n % 10]);
    }
    send(
        sink,
        &[b';', b'0' + n / 10 / 10, b'0' + n / 10 % 10, b'0' + n % 10],
    )
}

fn send_flag<D: Sink>(sink: &mut D, on: bool, n: u8) -> Result<(), DeviceFailed>
    ensures { Sends D.held D.has_failed (flag on n) sink.old sink.new result }
{
    if on { send_number(sink, n) } else { Ok(()) }
}

fn send_flags<D: Sink>(sink: &mut D, style: Style) -> Result<(), DeviceFailed>
    ensures { Sends D.held D.has_failed (flags style) sink.old sink.new result }
{
    send_flag(sink, style.bold, 1)?;
    send_flag(sink, style.faint, 2)?;
    send_flag(sink, style.italic, 3)?;
    send_flag(sink, style.underline, 4)?;
    send_flag(sink, style.reverse, 7)
}

fn send_palette<D: Sink>(sink: &mut D, front: u8, n: u8) -> Result<(), DeviceFailed>
    ensures { Sends D.held D.has_failed (number front ++ (number 5 ++ number n))
        sink.old sink.new result }
{
    send_number(sink, front)?;
    send_number(sink, 5)?;
    send_number(sink, n)
}

fn send_rgb<D: Sink>(
    sink: &mut D,
    front: u8,
    red: u8,
    green: u8,
    blue: u8,
) -> Result<(), DeviceFailed>
    ensures { Sends D.held D.has_failed
        (number front ++ (number 2 ++ (number red ++ (number green ++ number blue))))
        sink.old sink.new result }
{
    send_number(sink, front)?;
    send_number(sink, 2)?;
    send_number(sink, red)?;
    send_number(sink, green)?;
    send_number(sink, blue)
}

/// The colour of a text, by numbers from 30 on, or of its background, from 40 on.
fn send_colour<D: Sink>(sink: &mut D, front: u8, colour: Colour) -> Result<(), DeviceFailed>
    requires { front ≤ 40 }
    ensures { Sends D.held D.has_failed (colour_numbers front colour) sink.old sink.new result }
{
    match colour {
        Colour::Terminal => Ok(()),
        Colour::Basic(hue) => send_number(sink, front + number_of(hue)),
        Colour::Bright(hue) => send_number(sink, front + 60 + number_of(hue)),
        Colour::Palette(n) => send_palette(sink, front + 8, n),
        Colour::Rgb(red, green, blue) => send_rgb(sink, front + 8, red, green, blue),
    }
}

fn send_numbers<D: Sink>(sink: &mut D, style: Style) -> Result<(), DeviceFailed>
    ensures { Sends D.held D.has_failed (numbers style) sink.old sink.new result }
{
    send_flags(sink, style)?;
    send_colour(sink, 30, style.text)?;
    send_colour(sink, 40, style.background)
}

/// The number of the only flag of a style, or 0 if it has no flag.
fn single_flag(style: Style) -> Option<u8>
    ensures flag { IfSome result (λ n. flags style ≡ flag_number n) }
    ensures digit { IfSome result (λ n. n < 10) }
{
    match (
        style.bold,
        style.faint,
        style.italic,
        style.underline,
        style.reverse,
    ) {
        (false, false, false, false, false) => Some(0),
        (true, false, false, false, false) => Some(1),
        (false, true, false, false, false) => Some(2),
        (false, false, true, false, false) => Some(3),
        (false, false, false, true, false) => Some(4),
        (false, false, false, false, true) => Some(7),
        _ => None,
    }
}

/// A style piece by piece.
fn send_sequence<D: Sink>(sink: &mut D, style: Style) -> Result<(), DeviceFailed>
    ensures { Sends D.held D.has_failed (style_bytes (numbers style)) sink.old sink.new result }
{
    if is_plain(style) {
        return send(sink, b"\x1B[m");
    }
    send(sink, b"\x1B[0")?;
    send_numbers(sink, style)?;
    send(sink, b"m")
}

/// A flag, or none if it is 0, and one of the eight colours.
#[tactic(auto, using(crate::proofs::StyleLemmas::no_flag, crate::proofs::StyleLemmas::flag_digit, crate::proofs::StyleLemmas::hue_digits))]
fn send_hue<D: Sink>(sink: &mut D, flag: u8, hue: Hue) -> Result<(), DeviceFailed>
    requires digit { flag < 10 }
    ensures { Sends D.held D.has_failed
        (style_bytes (flag_number flag ++ number (30 + hue_number hue)))
        sink.old sink.new result }
{
    let digit = b'0' + number_of(hue);
    if flag == 0 {
        return send(sink, &[0x1B, b'[', b'0', b';', b'3', digit, b'm']);
    }
    send(
        sink,
        &[0x1B, b'[', b'0', b';', b'0' + flag, b';', b'3', digit, b'm'],
    )
}

/// A flag, or none if it is 0.
#[tactic(auto, using(crate::proofs::StyleLemmas::no_flag, crate::proofs::StyleLemmas::flag_digit))]
fn send_single<D: Sink>(sink: &mut D, flag: u8) -> Result<(), DeviceFailed>
    requires digit { flag < 10 }
    ensures { Sends D.held D.has_failed (style_bytes (flag_number flag))
        sink.old sink.new result }
{
    if flag == 0 {
        return send(sink, b"\x1B[m");
    }
    send(sink, &[0x1B, b'[', b'0', b';', b'0' + flag, b'm'])
}

/// A style with this flag alone, or without flags if it is 0.
fn send_short<D: Sink>(sink: &mut D, flag: u8, style: Style) -> Result<(), DeviceFailed>
    requires flag { flags style ≡ flag_number flag }
    requires digit { flag < 10 }
    ensures { Sends D.held D.has_failed (style_bytes (numbers style)) sink.old sink.new result }
{
    if !is_terminal(style.background) {
        return send_sequence(sink, style);
    }
    match style.text {
        Colour::Basic(hue) => send_hue(sink, flag, hue),
        Colour::Terminal => send_single(sink, flag),
        Colour::Bright(_) | Colour::Palette(_) | Colour::Rgb(..) => send_sequence(sink, style),
    }
}

/// From now on the terminal draws in this style. A style of one flag, of one of the eight colours,
/// or of both, as most are, is one write.
pub(crate) fn send_style<D: Sink>(sink: &mut D, style: Style) -> Result<(), DeviceFailed>
    ensures { Sends D.held D.has_failed (style_bytes (numbers style)) sink.old sink.new result }
{
    if let Some(flag) = single_flag(style) {
        return send_short(sink, flag, style);
    }
    send_sequence(sink, style)
}

/// A flag, or none if it is 0, one of the eight colours, a letter of this style, and its end.
#[tactic(auto, using(crate::proofs::StyleLemmas::no_flag, crate::proofs::StyleLemmas::flag_digit, crate::proofs::StyleLemmas::hue_digits))]
fn send_hue_letter<D: Sink>(
    sink: &mut D,
    flag: u8,
    hue: Hue,
    letter: u8,
) -> Result<(), DeviceFailed>
    requires digit { flag < 10 }
    ensures { Sends D.held D.has_failed
        (style_bytes (flag_number flag ++ number (30 + hue_number hue)) ++ letter ∷ no_style)
        sink.old sink.new result }
{
    let digit = b'0' + number_of(hue);
    if flag == 0 {
        return send(
            sink,
            &[
                0x1B, b'[', b'0', b';', b'3', digit, b'm', letter, 0x1B, b'[', b'm',
            ],
        );
    }
    send(
        sink,
        &[
            0x1B,
            b'[',
            b'0',
            b';',
            b'0' + flag,
            b';',
            b'3',
            digit,
            b'm',
            letter,
            0x1B,
            b'[',
            b'm',
        ],
    )
}

/// A letter between a style and its end, in two writes or more.
fn send_framed_letter<D: Sink>(sink: &mut D, style: Style, letter: u8) -> Result<(), DeviceFailed>
    ensures { Sends D.held D.has_failed (style_bytes (numbers style) ++ letter ∷ no_style)
        sink.old sink.new result }
{
    send_style(sink, style)?;
    send(sink, &[letter, 0x1B, b'[', b'm'])
}

/// A letter between a style and its end: one write if the style is a flag, or none, and one of the
/// eight colours.
pub(crate) fn send_styled_letter<D: Sink>(
    sink: &mut D,
    style: Style,
    letter: u8,
) -> Result<(), DeviceFailed>
    ensures { Sends D.held D.has_failed (style_bytes (numbers style) ++ letter ∷ no_style)
        sink.old sink.new result }
{
    if !is_terminal(style.background) {
        return send_framed_letter(sink, style, letter);
    }
    match (single_flag(style), style.text) {
        (Some(flag), Colour::Basic(hue)) => send_hue_letter(sink, flag, hue, letter),
        _ => send_framed_letter(sink, style, letter),
    }
}
