// What is wrong with bytes that should be a card.
ghost use Rattle.std.specs.Prelude.{◌≡◌};
ghost use Rattle.cards.specs.Faults.{place_in_line};

// They are too few or too many, or the field that begins at this byte of the card, from 0, holds a number
// above its limit.
#[derive(Clone, Copy, PartialEq, Eq, Debug)]
pub enum CardFault {
    Length,
    Field(u8),
}

// A line that fills a card has its card from this byte on.
const CARD_START: u8 = 3;

impl CardFault {
    // The place in the line, from 0, at which the fault is told: where the card starts if its length is
    // wrong, else the bad field's first byte, or 255 if that is past it, which no kind's fault is.
    pub fn place_in_line(&self) -> u8
        ensures value { result ≡ place_in_line self.now }
    {
        match self {
            CardFault::Length => CARD_START,
            CardFault::Field(offset) => CARD_START.saturating_add(*offset),
        }
    }
}
