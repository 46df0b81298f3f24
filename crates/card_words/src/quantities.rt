// Quantities in words.
ghost use Rattle.std.specs.Prelude.{Some};
ghost use Rattle.card_words.specs.Words.{tenths};

use std::fmt;

// Tenths of a unit, with one digit after the point: 25 is shown as 2.5.
#[derive(Clone, Copy, PartialEq, Eq, Debug)]
pub struct Tenths(pub u16);

impl fmt::Display for Tenths {
    ghost output = { λ t. Some (tenths t.0) };

    fn fmt<W: fmt::Write>(&self, f: &mut fmt::Formatter<W>) -> fmt::Result {
        let whole = self.0 / 10;
        let digit = self.0 % 10;
        write!(f, "{whole}.{digit}")
    }
}
