// Pools of record numbers: what one is, a stack and a ring, and what holds of any.
#![tactic(auto)]

pub mod issued;
pub mod laws;
mod line;
pub mod line_pool;
mod members;
pub mod orders;
pub mod pool;
pub mod ring;
pub mod stack;

pub use issued::Issued;
pub use laws::{drain, give_and_drain, take_member};
pub use orders::{give_first, give_last};
pub use pool::{OutOfPool, Pool};
pub use ring::Ring;
pub use stack::Stack;
