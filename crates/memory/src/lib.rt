// The shared words of the table, the one access to them that a turn makes, and the standings that go with them.
#![tactic(auto)]

pub mod access;
pub mod found;
pub mod memory;
pub mod perform;
pub mod standings;
mod words;
