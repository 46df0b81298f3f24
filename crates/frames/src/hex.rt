// Lines to bytes and bytes to lines.
ghost use Rattle.std.specs.Prelude.{◌≡◌, ◌<◌, ◌≤◌, [], ◌∷◌, ◌++◌, length};
ghost use Rattle.std.specs.Option.{option_map};
ghost use Rattle.frames.specs.Hexadecimal.{bytes_of_line, byte_of, capital_of, written, line_bytes, text_digits, text_line, Decodes};

use crate::line::{LineBytes, LineText};
use crate::refusal::LineFault;
use rooms::Room;

const MOST_DIGITS: usize = 128;

// The byte of a pair of digits of either case.
fn byte(high: u8, low: u8) -> Option<u8>
    ensures { result ≡ byte_of high low }
{
    let high = char::from(high).to_digit(16)?;
    let low = char::from(low).to_digit(16)?;
    Some((high * 16 + low) as u8)
}

// The bytes of pairs of digits, unless they are too many for a line.
fn bytes_of_line(line: &[u8]) -> Option<LineBytes>
    ensures { option_map line_bytes result ≡ bytes_of_line line.now }
{
    // Told first, so that a line that is too long costs no more than a look at its length.
    if line.len() > MOST_DIGITS {
        return None;
    }
    let (pairs, []) = line.as_chunks::<2>() else {
        return None;
    };
    // Written by index, here and below, and not pushed: a push looks for a place each time, which takes up to five times as long.
    let mut items = [0; 64];
    let mut len = 0;
    for &[high, low] in pairs {
        items[len] = byte(high, low)?;
        len += 1;
    }
    let items = Room::first_of(items, len);
    Some(LineBytes { items })
}

// The bytes of a line, which may be any bytes of any number.
pub fn decode(line: &[u8]) -> Result<LineBytes, LineFault>
    ensures { Decodes line.now result }
{
    bytes_of_line(line).ok_or(LineFault::Digits)
}

// The capital digit of a value below 16.
fn capital(value: u8) -> u8
    requires { value < 16 }
    ensures { result ≡ capital_of value }
{
    if value < 10 {
        b'0' + value
    } else {
        b'A' + (value - 10)
    }
}

// Bytes as they are written: two capital digits each, then a newline.
pub fn encode(bytes: &LineBytes) -> LineText
    ensures digits { text_digits result ≡ written (line_bytes bytes.now) }
    ensures line { text_line result ≡ written (line_bytes bytes.now) ++ 10 ∷ [] }
    ensures short { length (text_line result) ≤ 129 }
{
    // Kept digits by hand: `write!` takes 0.9 seconds in place of 0.03 for a million long lines and may fail; `char::from_digit` gives an option of a small letter.
    let mut signs = [0; 129];
    let mut len = 0;
    for &byte in bytes.as_slice() {
        signs[len] = capital(byte / 16);
        signs[len + 1] = capital(byte % 16);
        len += 2;
    }
    signs[len] = b'\n';
    let signs = Room::first_of(signs, len + 1);
    LineText { signs }
}
