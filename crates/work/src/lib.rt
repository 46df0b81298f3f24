// What a station is in the middle of: the one access that it makes next, and the private work after it.
#![tactic(auto)]

pub mod access;
pub mod advance;
pub mod begin;
mod clean;
mod known;
pub mod note;
pub mod notes;
mod owed;
mod parts;
mod scan;
pub mod sight;
pub mod turn;
pub mod work;
