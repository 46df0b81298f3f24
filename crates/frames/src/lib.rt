// Lines of hexadecimal digits, the frames that they ask, the answers that are given, and the refusals with their numbers.
#![tactic(auto)]

pub mod answer;
pub mod answer_bytes;
pub mod frame;
pub mod frame_bytes;
pub mod hex;
pub mod laws;
pub mod line;
pub mod refusal;
pub mod refusal_numbers;

pub use answer::{Answer, NoAnswer};
pub use frame::{Frame, SetupBytes, SpotBytes};
pub use hex::{decode, encode};
pub use line::{LineBytes, LineText};
pub use refusal::{Layer, LineFault, Refusal, Refused, UnknownRefusal};
