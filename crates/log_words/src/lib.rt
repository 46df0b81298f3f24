// Whole lines of a log in plain words.
#![tactic(auto)]

pub mod log;
mod remarks;

pub use log::Log;
