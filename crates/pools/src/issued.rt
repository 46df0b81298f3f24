// The records that a pool issued, in the order of the takes.
use rooms::Room;

#[derive(Clone, Copy, Debug)]
pub struct Issued {
    pub nodes: Room<u8, 128>,
}
