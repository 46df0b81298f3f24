// Room for one line: up to 64 bytes, and up to 128 digits with a newline. No memory is asked for.
ghost use Rattle.std.specs.Prelude.{◌≡◌, ◌≤◌, ◌++◌, length};
ghost use Rattle.rooms.specs.Held.{held};

use rooms::Room;

// The bytes of a line.
#[derive(Clone, Copy, PartialEq, Eq, Debug)]
pub struct LineBytes {
    pub(crate) items: Room<u8, 64>,
}

impl LineBytes {
    ghost use Rattle.frames.specs.Hexadecimal.{line_bytes, FitsLine};

    // Two stretches of bytes, one after the other, if they fit a line.
    pub fn joined(head: &[u8], tail: &[u8]) -> Option<LineBytes>
        ensures { FitsLine (head.now ++ tail.now) result }
    {
        let mut items = Room::new();
        items.extend_from_slice(head).ok()?;
        items.extend_from_slice(tail).ok()?;
        Some(LineBytes { items })
    }

    pub fn as_slice(&self) -> &[u8]
        ensures value { result.now ≡ line_bytes self.now }
        ensures short { length result.now ≤ 64 }
    {
        self.items.as_slice()
    }
}

// A line as it is written: its digits, and then a newline.
#[derive(Clone, Copy, PartialEq, Eq, Debug)]
pub struct LineText {
    pub(crate) signs: Room<u8, 129>,
    // the newline at least
    ghost ended: { 1 ≤ length (held signs) },
}

impl LineText {
    ghost use Rattle.frames.specs.Hexadecimal.{text_digits, text_line};

    // The digits alone.
    pub fn digits(&self) -> &[u8]
        ensures value { result.now ≡ text_digits self.now }
        ensures short { length result.now ≤ 128 }
    {
        let line = self.line();
        &line[..line.len() - 1]
    }

    // The digits and the newline, ready to be printed.
    pub fn line(&self) -> &[u8]
        ensures value { result.now ≡ text_line self.now }
        ensures short { length result.now ≤ 129 }
    {
        self.signs.as_slice()
    }
}
