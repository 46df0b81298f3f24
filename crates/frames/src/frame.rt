// The frames of the console: what a line asks, byte by byte and unchecked.

// The eight bytes of a SETUP frame, by name, unchecked.
#[derive(Clone, Copy, PartialEq, Eq, Debug)]
pub struct SetupBytes {
    pub stations: u8,
    pub slots: u8,
    pub records: u8,
    pub roots: u8,
    pub t1: u8,
    pub t2: u8,
    pub kind: u8,
    pub pool: u8,
}

// Bytes A B: link B of record A, or root B if A is FF.
#[derive(Clone, Copy, PartialEq, Eq, Debug)]
pub struct SpotBytes {
    pub container: u8,
    pub index: u8,
}

// One frame. `node` is a record's number. FILL borrows its card from the decoded line.
// Each variant has its own `station`: a struct round a second enum would need two patterns in each arm that has one now.
#[derive(Clone, Copy, PartialEq, Eq, Debug)]
pub enum Frame<'a> {
    Setup(SetupBytes),
    Deref {
        station: u8,
        spot: SpotBytes,
    },
    Release {
        station: u8,
        node: u8,
    },
    Cas {
        station: u8,
        spot: SpotBytes,
        old: u8,
        new: u8,
    },
    Store {
        station: u8,
        spot: SpotBytes,
        new: u8,
    },
    New {
        station: u8,
    },
    Delete {
        station: u8,
        node: u8,
    },
    Step {
        station: u8,
    },
    Fill {
        station: u8,
        node: u8,
        card: &'a [u8],
    },
    Read {
        station: u8,
        node: u8,
    },
}
