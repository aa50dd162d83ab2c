// Bytes written as printed characters, many at once: a writer takes one call for each piece, and not for each byte.
ghost use Rattle.std.specs.Prelude.{◌≡◌, ◌<◌, ◌≤◌, map, length};
ghost use Rattle.std.specs.Fmt.{WritesOnOk};
ghost use Rattle.listing.specs.Lines.{printed_byte};

use std::{fmt, str};

// How many bytes are written at once.
const PIECE: usize = 64;

// A byte as one printed character: itself, or a space where it cannot be printed; `line_end` where a line ends.
fn printed(b: u8, line_end: u8) -> u8
    ensures { result ≡ printed_byte line_end b }
{
    if b == b'\n' {
        line_end
    } else if b >= b' ' && b <= b'~' {
        b
    } else {
        b' '
    }
}

// Puts its printed character in the place of each byte.
fn print(bytes: &mut [u8], line_end: u8)
    ensures { bytes.new ≡ map (printed_byte line_end) bytes.old }
{
    for b in bytes.iter_mut() {
        *b = printed(*b, line_end);
    }
}

// Writes bytes that one piece has room for.
fn write_piece<W: fmt::Write>(f: &mut fmt::Formatter<W>, bytes: &[u8], line_end: u8) -> fmt::Result
    requires ascii { line_end < 128 }
    requires few { length bytes.now ≤ PIECE }
    ensures { WritesOnOk W.write_str_gives f.old result (map (printed_byte line_end) bytes.now) f.new }
{
    let mut room = [0; PIECE];
    let piece = &mut room[..bytes.len()];
    piece.copy_from_slice(bytes);
    print(piece, line_end);
    match str::from_utf8(piece) {
        Ok(text) => f.write_str(text),
        Err(_) => unreachable!(),
    }
}

// Writes bytes, each as its printed character.
pub(crate) fn write_printed<W: fmt::Write>(
    f: &mut fmt::Formatter<W>,
    bytes: &[u8],
    line_end: u8,
) -> fmt::Result
    requires { line_end < 128 }
    ensures { WritesOnOk W.write_str_gives f.old result (map (printed_byte line_end) bytes.now) f.new }
{
    let mut rest = bytes;
    while !rest.is_empty() {
        let (piece, more) = rest.split_at(rest.len().min(PIECE));
        write_piece(f, piece, line_end)?;
        rest = more;
    }
    Ok(())
}
