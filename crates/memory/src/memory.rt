// The shared words at the largest numbers that a table may have: those of a record together, and those of a place.
use terms::Name;

pub const STATIONS: usize = 8;

pub const SLOTS: usize = 8;

pub const PLACES: usize = 64;

pub const RECORDS: usize = 128;

pub const POSITIONS: usize = 4;

pub const ROOTS: usize = 16;

// The words of a record.
#[derive(Clone, Copy)]
pub(crate) struct RecordWords {
    pub(crate) count: i16,
    pub(crate) trace: bool,
    pub(crate) deleted: bool,
    pub(crate) links: [Name; POSITIONS],
}

// `BLANK` stays a constant here and below: with a derived `Default` the proof of `Memory::new` was not found.
impl RecordWords {
    pub(crate) const BLANK: RecordWords = RecordWords {
        count: 0,
        trace: false,
        deleted: false,
        links: [None; POSITIONS],
    };
}

// The words of a place, where a station lists a record, but for what it names.
#[derive(Clone, Copy)]
pub(crate) struct PlaceWords {
    pub(crate) done: bool,
    pub(crate) claims: u8,
}

impl PlaceWords {
    pub(crate) const BLANK: PlaceWords = PlaceWords {
        done: false,
        claims: 0,
    };
}

// Clauses speak of `view` of it: an `impl Model` was tried, and a model's value cannot be functions from numbers.
#[derive(Drop)]
pub struct Memory {
    pub(crate) roots: [Name; ROOTS],
    pub(crate) records: [RecordWords; RECORDS],
    // Slots and what places name stay two tables: a row of either is read by one call, and a struct of both would be taken apart at each.
    pub(crate) slots: [[Name; SLOTS]; STATIONS],
    // What the places name stays a table beside their other words: a station reads its row whole when it begins an operation,
    // and gathered out of the other words that took eight times as long.
    pub(crate) nodes: [[Name; PLACES]; STATIONS],
    pub(crate) places: [[PlaceWords; PLACES]; STATIONS],
}
