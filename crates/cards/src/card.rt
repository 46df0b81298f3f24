// A kind of card: a length, a blank card, a reading of bytes and a writing.
ghost use Rattle.std.specs.Prelude.{◌≡◌, ℕ, List, Result};
ghost use Rattle.cards.specs.declared.fault.CardFault.{CardFault};
ghost use Rattle.cards.specs.CardBytes.{held};
ghost use Rattle.cards.specs.Kinds.{Lawful};

use crate::{CardBytes, CardFault};

pub trait Card: Sized + Copy {
    // how many bytes a card has
    ghost size: { ℕ };

    // the card of a record that was never filled
    ghost blank: { Self };

    // the card in some bytes, or what is wrong with them
    ghost reading: { List ℕ → Result Self CardFault };

    // the bytes of a card
    ghost writing: { Self → List ℕ };

    fn size() -> usize
        ensures value { result ≡ size };

    fn blank() -> Self
        ensures value { result ≡ blank };

    // any bytes of any length
    fn read(bytes: &[u8]) -> Result<Self, CardFault>
        ensures value { result ≡ reading bytes.now };

    fn write(&self) -> CardBytes
        ensures value { held result ≡ writing self.now };

    ghost lawful: { Lawful size reading writing };
}
