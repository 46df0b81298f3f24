// The recipe: what to pour into a can.
ghost use Rattle.std.specs.Prelude.{◌≡◌, ◌≤◌, T, MatchOption, position, nat_lt};
ghost use Rattle.cards.specs.Fields.{within, bytes_of};
ghost use Rattle.cards.specs.Layouts.{most_amount, recipe_fields};

use crate::{Card, CardBytes, CardFault};

// how many colorants a machine has
pub const COLORANTS: usize = 12;

// two for each amount
pub const RECIPE_BYTES: usize = 24;

// 999.9 grams
pub const MOST_AMOUNT: u16 = 9999;

// An amount of each colorant in tenths of a gram, which keep their limit.
#[derive(Clone, Copy, PartialEq, Eq, Debug)]
pub struct Recipe {
    amounts: [u16; COLORANTS],
    ghost fits: { T (within recipe_fields amounts) },
}

// The place of the first amount above the limit.
fn first_too_large(amounts: &[u16]) -> Option<usize>
    ensures { result ≡ position (λ amount. nat_lt most_amount amount) amounts.now }
{
    amounts.iter().position(|amount| *amount > MOST_AMOUNT)
}

// The two bytes of an amount, the more significant one first.
fn amount_bytes(amount: u16) -> [u8; 2]
    ensures { result ≡ bytes_of 2 amount }
{
    amount.to_be_bytes()
}

impl Recipe {
    ghost use Rattle.cards.specs.Recipes.{recipe_of, amount_at};

    // The recipe of these amounts, or the first of them that is too large.
    pub fn new(amounts: [u16; COLORANTS]) -> Result<Recipe, CardFault>
        ensures value { result ≡ recipe_of amounts }
    {
        match first_too_large(&amounts) {
            Some(i) => Err(CardFault::Field(2 * i as u8)),
            None => Ok(Recipe { amounts }),
        }
    }

    // The amounts of all colorants, in their order.
    pub fn amounts(&self) -> [u16; COLORANTS]
        ensures value { result ≡ self.now.amounts }
    {
        let Recipe { amounts } = *self;
        amounts
    }

    // The amount of one colorant, counted from 0.
    pub fn amount(&self, colorant: usize) -> Option<u16>
        ensures value { result ≡ amount_at self.now colorant }
        ensures bound { MatchOption result (12 ≤ colorant) (λ amount. amount ≤ 9999) }
    {
        self.amounts.get(colorant).copied()
    }
}

impl Card for Recipe {
    ghost use Rattle.cards.specs.Recipes.{recipe_size, recipe_blank, recipe_reading, recipe_writing};
    ghost use Rattle.cards.specs.RecipeLaws.{recipe_lawful};

    ghost size = { recipe_size };

    ghost blank = { recipe_blank };

    ghost reading = { recipe_reading };

    ghost writing = { recipe_writing };

    ghost lawful = { recipe_lawful };

    fn size() -> usize {
        RECIPE_BYTES
    }

    fn blank() -> Recipe {
        Recipe {
            amounts: [0; COLORANTS],
        }
    }

    fn read(bytes: &[u8]) -> Result<Recipe, CardFault> {
        let (pairs, []) = bytes.as_chunks() else {
            return Err(CardFault::Length);
        };
        let Ok(pairs) = <[[u8; 2]; COLORANTS]>::try_from(pairs) else {
            return Err(CardFault::Length);
        };
        Recipe::new(pairs.map(u16::from_be_bytes))
    }

    fn write(&self) -> CardBytes {
        CardBytes::of(self.amounts.map(amount_bytes).as_flattened())
    }
}
