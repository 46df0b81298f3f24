// The shelf: a lent slice with one card for each record, worked for every kind alike.
ghost use Rattle.std.specs.Prelude.{◌≡◌, replicate};
ghost use Rattle.cards.specs.declared.shelf.ShelfFault.TheVariants.{Card as CardCase};
ghost use Rattle.cards.specs.Shelves.{Fills, ReadAt};

use crate::{Card, CardBytes, CardFault};

// There is no card at the index, or the bytes are not a card.
#[derive(Clone, Copy, PartialEq, Eq, Debug)]
pub enum ShelfFault {
    NoCard,
    Card(CardFault),
}

impl From<CardFault> for ShelfFault {
    ghost from_gives = { λ e r. r ≡ CardCase e };

    fn from(fault: CardFault) -> ShelfFault {
        ShelfFault::Card(fault)
    }
}

// As many blank cards as a shelf has places.
pub fn blank_cards<C: Card, const N: usize>() -> [C; N]
    ensures value { result ≡ replicate N C.Card.blank }
{
    [C::blank(); N]
}

// The card in the bytes becomes the card at the index. An index past the end is told before bad bytes, and a
// fault leaves every card as it was.
pub fn fill<C: Card>(cards: &mut [C], index: usize, bytes: &[u8]) -> Result<(), ShelfFault>
    ensures fills { Fills C.Card.reading C.Card.writing cards.old index bytes.now result cards.new }
{
    // By index, since `get_mut` of a slice tells nothing of the cards that are left.
    if index >= cards.len() {
        return Err(ShelfFault::NoCard);
    }
    cards[index] = C::read(bytes)?;
    Ok(())
}

// The bytes of the card at the index, if there is one.
pub fn read<C: Card>(cards: &[C], index: usize) -> Option<CardBytes>
    ensures reads { ReadAt C.Card.writing C.Card.blank cards.now index result }
{
    cards.get(index).map(|card| card.write())
}
