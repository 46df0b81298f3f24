// A kind of card that can be told in words.
ghost use Rattle.std.specs.Prelude.{◌≡◌, ℕ, List};
ghost use Rattle.std.specs.Fmt.{WritesOnOk};

use cards::Card;
use std::fmt;

pub trait Told: Card {
    // what a card of this kind is called: a slip
    ghost name: { List ℕ };

    // the words of a card
    ghost words: { Self → List ℕ };

    // what is wrong where the field at a byte of the card is above its limit
    ghost bad_field: { ℕ → List ℕ };

    fn name() -> &'static str
        ensures { result.now ≡ name };

    fn write_words<W: fmt::Write>(&self, f: &mut fmt::Formatter<W>) -> fmt::Result
        ensures { WritesOnOk W.write_str_gives f.old result (words self.now) f.new };

    fn write_bad_field<W: fmt::Write>(byte: u8, f: &mut fmt::Formatter<W>) -> fmt::Result
        ensures { WritesOnOk W.write_str_gives f.old result (bad_field byte) f.new };
}

// A card in words.
#[derive(Clone, Copy)]
pub struct CardInWords<C>(pub C);

impl<C: Told> fmt::Display for CardInWords<C> {
    ghost use Rattle.std.specs.Prelude.{Some};

    ghost output = { λ w. Some (C.words w.0) };

    fn fmt<W: fmt::Write>(&self, f: &mut fmt::Formatter<W>) -> fmt::Result {
        self.0.write_words(f)
    }
}
