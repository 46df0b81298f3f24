// A recipe in words.
ghost use Rattle.card_words.specs.Words.{recipe_name, recipe_words};
ghost use Rattle.card_words.specs.FaultWords.{recipe_bad_field};

use crate::{Tenths, Told};
use cards::{MOST_AMOUNT, Recipe};
use std::fmt;

impl Told for Recipe {
    ghost name = { recipe_name };

    ghost words = { recipe_words };

    ghost bad_field = { recipe_bad_field };

    fn name() -> &'static str {
        "a recipe"
    }

    // Shown as: colorant 1: 12.3 g, colorant 4: 0.5 g
    fn write_words<W: fmt::Write>(&self, f: &mut fmt::Formatter<W>) -> fmt::Result {
        let mut separator = "";
        for (i, amount) in self.amounts().iter().enumerate() {
            if *amount == 0 {
                continue;
            }
            let colorant = i + 1;
            let grams = Tenths(*amount);
            write!(f, "{separator}colorant {colorant}: {grams} g")?;
            separator = ", ";
        }
        if separator.is_empty() {
            return write!(f, "nothing to pour");
        }
        Ok(())
    }

    // Each amount has two bytes, and the amounts are counted from 1.
    fn write_bad_field<W: fmt::Write>(byte: u8, f: &mut fmt::Formatter<W>) -> fmt::Result {
        let amount = byte / 2 + 1;
        let most = Tenths(MOST_AMOUNT);
        write!(
            f,
            "amount {amount} is above {most} g (byte {byte} of the card)"
        )
    }
}
