// A vector of a fixed capacity that can be copied.
#![tactic(auto)]

pub mod room;

pub use room::Room;
