// The settings of a table, made from the bytes of a SETUP line.
#![tactic(auto)]

pub mod bytes;
pub mod choices;
pub mod limits;
pub mod setup;

pub use bytes::SetupByte;
pub use choices::{KindChoice, PoolChoice, UnknownChoice};
pub use limits::Settings;
pub use setup::Setup;
