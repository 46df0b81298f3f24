// Cards: what a record carries. A slip is an order, a recipe is what to pour.
#![tactic(auto)]

mod card;
mod card_bytes;
mod fault;
mod recipe;
mod shelf;
mod slip;
mod theorems;

pub use card::Card;
pub use card_bytes::{CardBytes, MOST_BYTES};
pub use fault::CardFault;
pub use recipe::{COLORANTS, MOST_AMOUNT, RECIPE_BYTES, Recipe};
pub use shelf::{ShelfFault, blank_cards, fill, read};
pub use slip::{MOST_CAN_TENTHS, SLIP_BYTES, Slip};
pub use theorems::{
    blank_cards_are_zero, faults_lie_in_line, fill_reads_back, refused_fill_keeps_cards,
};
