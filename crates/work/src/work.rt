// What a busy station is in the middle of: writes that it still owes, in order, and then a decision.
use memory::access::Write;
use terms::{Name, Outcome, Place, Position, Record, Slot, Spot, Station};

// The first link of a record.
pub(crate) const FIRST: Position = Position { index: 0 };

// A record that a station withdrew, and the place that names it.
#[derive(Clone, Copy, Default)]
pub struct Entry {
    pub place: Place,
    pub node: Record,
}

// An entry that a walk down the list has come to, and how many entries come after it.
#[derive(Clone, Copy)]
pub struct Reached {
    pub entry: Entry,
    pub left: u8,
}

// Whose record a CLEAN is about, so where it goes on afterwards.
#[derive(Clone, Copy)]
pub enum Round {
    // One of the own list, with so many entries after it.
    Own(u8),
    // CLEAN ALL: the one in this place of this station.
    All(Station, Place),
}

// A CLEAN of a record, at one of its links.
#[derive(Clone, Copy)]
pub struct Clean {
    pub node: Record,
    pub position: Position,
    pub round: Round,
}

// Where a dereference goes on.
#[derive(Clone, Copy)]
pub enum AfterLook {
    // DEREF: it ends.
    Answer,
    // CN2: the link that is cleaned names this.
    CleanLink(Clean),
    // CN4: the following link of this record, which is withdrawn and named by the link that is cleaned.
    CleanNext(Clean, Record),
}

// Where a swap goes on.
#[derive(Clone, Copy)]
pub enum AfterSwap {
    // CAS: it ends.
    Answer,
    // CN5: the link was to lead past this record to the name.
    CleanSwap(Clean, Record, Name),
    // TN7: the link was to be cleared under a claim.
    ClearLink(Reached, Position),
}

// Where a store goes on. Kept an enum beside its two siblings: an `Option` would not say where.
#[derive(Clone, Copy)]
pub enum AfterStore {
    // STORE: it ends.
    Answer,
    // TN3: the link of a record that is given back was emptied.
    GiveBack(Reached, Position),
}

// An access whose outcome decides what follows, or the end.
#[derive(Clone, Copy)]
pub enum Point {
    End(Outcome),
    // NN1
    Take,
    // D3, into the lowest empty slot; once more, into the same slot; D5
    Look(Spot, AfterLook),
    LookAgain(Spot, Slot, AfterLook),
    Verify(Spot, Slot, Name, AfterLook),
    // C1: from the first name to the second
    Swap(Spot, Name, Name, AfterSwap),
    // S1; S2, with the name that S1 found and the new one
    Save(Spot, Name, AfterStore),
    Overwrite(Spot, Name, Name, AfterStore),
    // CN3
    AskDeleted(Clean, Record),
    // CA3, CA4, CA6
    AskPlace(Station, Place),
    AskDone(Station, Place, Record),
    AskPlaceAgain(Station, Place, Record),
    // SC4, SC6
    CountFirst(Reached),
    CountAgain(Reached),
    // SC11
    AskSlot(Station, Slot),
    // SC19, its two questions
    CountSecond(Reached),
    AskTrace(Reached),
    // SC21
    AskClaims(Reached),
    // TN6
    AskLink(Reached, Position),
    // SC23
    Give(Reached),
}

// The writes that are owed, in their order.
// Kept an enum of so many: an array of options has many forms of the same writes, and each turn looks for the first of them.
#[derive(Clone, Copy)]
pub enum Owed {
    Nothing,
    One(Write),
    Two(Write, Write),
    Three(Write, Write, Write),
    Four(Write, Write, Write, Write),
    Five(Write, Write, Write, Write, Write),
}

#[derive(Clone, Copy)]
pub struct Work {
    pub owed: Owed,
    pub point: Point,
}
