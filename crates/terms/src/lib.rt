// The words of the subject as types. Each number is a type of its own, so that a slot
// cannot stand where a place is meant.
// Kept six structs of one number: one generic number would tell its kind by a marker or a code.
#![tactic(auto)]

pub mod tables;

// A record of the table.
#[derive(Clone, Copy, Default, PartialEq, Eq)]
pub struct Record {
    pub number: u8,
}

// A station: the panel, a pump, the scale, the shop link.
#[derive(Clone, Copy, PartialEq, Eq)]
pub struct Station {
    pub number: u8,
}

// One of a station's slots. What a slot names, its station holds.
#[derive(Clone, Copy, PartialEq, Eq)]
pub struct Slot {
    pub index: u8,
}

// One of the places in which a station lists the records that it withdrew.
#[derive(Clone, Copy, Default, PartialEq, Eq)]
pub struct Place {
    pub index: u8,
}

// One of a record's links.
#[derive(Clone, Copy, PartialEq, Eq)]
pub struct Position {
    pub index: u8,
}

// One of the table's roots.
#[derive(Clone, Copy, PartialEq, Eq)]
pub struct Root {
    pub index: u8,
}

// What a link, a root, a slot or a place names: a record or none.
pub type Name = Option<Record>;

// Where a name stands for everybody: a root, or a link of a record.
#[derive(Clone, Copy, PartialEq, Eq)]
pub enum Spot {
    Root(Root),
    Link(Record, Position),
}

// Where a record is in its life.
#[derive(Clone, Copy, PartialEq, Eq)]
pub enum Standing {
    // It lies in the pool.
    Pooled,
    // NEW took it, and no link or root has named it yet.
    Fresh,
    // A link or a root has named it.
    Linked,
    // Its DELETE has begun, and it is not given back yet.
    Retired,
}

// What a station can be asked to do.
#[derive(Clone, Copy, PartialEq, Eq)]
pub enum Operation {
    // Take a record from the pool.
    New,
    // Follow a spot to the record that it names, and hold that.
    Deref(Spot),
    // Let one hold of a record go.
    Release(Record),
    // Write a name into a spot if the spot names the old one.
    Cas(Spot, Name, Name),
    // Write a name into a link of a record.
    Store(Record, Position, Name),
    // Let one hold of a record go and withdraw it.
    Delete(Record),
}

// What an operation answers when it ends.
#[derive(Clone, Copy, PartialEq, Eq)]
pub enum Outcome {
    // NEW and DEREF: the record, or none.
    Found(Name),
    // CAS: whether it wrote.
    Swapped(bool),
    // RELEASE, STORE and DELETE.
    Done,
}
