// The bytes of one card, kept in a place of fixed size.
ghost use Rattle.std.specs.Prelude.{◌≡◌, ◌≤◌, length, take};
ghost use Rattle.cards.specs.CardBytes.{held};

use rooms::Room;

// No kind has more bytes than this: a line has at most 64, and three stand before its card.
pub const MOST_BYTES: usize = 61;

#[derive(Clone, Copy, PartialEq, Eq, Debug)]
pub struct CardBytes {
    bytes: Room<u8, MOST_BYTES>,
}

impl CardBytes {
    // The first 61 of the bytes; no card has more. It may cut, so it is no `From`.
    pub fn of(bytes: &[u8]) -> CardBytes
        ensures value { held result ≡ take 61 bytes.now }
    {
        let kept = &bytes[..MOST_BYTES.min(bytes.len())];
        let mut bytes = Room::new();
        bytes.extend_from_slice(kept).unwrap();
        CardBytes { bytes }
    }

    pub fn as_slice(&self) -> &[u8]
        ensures value { result.now ≡ held self.now }
        ensures inside { length result.now ≤ 61 }
    {
        self.bytes.as_slice()
    }
}
