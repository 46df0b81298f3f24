// What a station keeps for itself: its list, and what a SCAN collects.
use crate::work::Entry;
use rooms::Room;
use terms::Name;

pub const ENTRIES: usize = 64;

pub const SEEN: usize = 128;

// Entries in the order in which they came; the last is the head of the list.
#[derive(Clone, Copy)]
pub struct Entries {
    pub(crate) entries: Room<Entry, ENTRIES>,
}

// The records that a SCAN saw in slots.
#[derive(Clone, Copy)]
pub struct Seen {
    pub(crate) marks: [bool; SEEN],
}

#[derive(Clone, Copy)]
pub struct Notes {
    // The records withdrawn and not given back yet.
    pub(crate) list: Entries,
    // Those that a SCAN has kept so far.
    pub(crate) kept: Entries,
    pub(crate) seen: Seen,
}

// A change of a station's notes.
#[derive(Clone, Copy)]
pub enum Note {
    // A withdrawn record becomes the head of the list.
    Push(Entry),
    // SC11 found this in a slot.
    See(Name),
    // SCAN keeps the entry.
    Keep(Entry),
    // SCAN ends, perhaps with one more entry to keep: what was kept is the list now.
    Close(Option<Entry>),
}
