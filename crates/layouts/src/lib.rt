// Layouts of links: how many positions a record has, and which position follows each.
#![tactic(auto)]

pub mod book;
pub mod chain;
pub mod follow;
pub mod layout;

pub use book::{Book, BookLink, UnknownLink};
pub use chain::Chain;
pub use follow::{Follow, follows};
pub use layout::Layout;
