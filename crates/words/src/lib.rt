// Frames, refusals and whole lines in plain words.
#![tactic(auto)]

pub mod frame_words;
pub mod quantities;
pub mod refusal_words;
pub mod totals;

pub use frame_words::FrameInWords;
pub use quantities::ByteCount;
pub use refusal_words::{RefusedInWords, reason};
pub use totals::Totals;
