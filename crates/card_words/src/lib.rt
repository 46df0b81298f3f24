// Cards in words, and what is wrong with bytes that should be a card.
#![tactic(auto)]

mod explain;
mod faults;
mod quantities;
mod recipe;
mod slip;
mod told;

pub use explain::card_in_words;
pub use faults::BadCard;
pub use quantities::Tenths;
pub use told::{CardInWords, Told};
pub use words::ByteCount;
