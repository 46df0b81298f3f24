// What one turn can do to the shared words, and what it finds there.
// A station and its place stay two fields: every definition over them takes them apart, as it would have to take a pair apart.
use terms::{Name, Place, Record, Slot, Spot, Station};

// A write whose outcome decides nothing. Slots and places without a station are the acting station's own.
// The two that clear a trace do the same and are allowed to different stations, so they stay two.
#[derive(Clone, Copy)]
pub enum Write {
    // NN2
    ZeroCount(Record),
    // NN3
    ClearDeleted(Record),
    // D4, NN5
    FillSlot(Slot, Name),
    // R2, DN1: empties the lowest own slot that names the record.
    Release(Record),
    // C3, S4
    RaiseCount(Record),
    // C4, S5: by a station that holds the record and has just named it.
    ClearTraceOfHeld(Record),
    // C5, S6
    LowerCount(Record),
    // DN2, its first step
    SetDeleted(Record),
    // DN2, its second step, and the step after an SC6 that found no 0: by the station that lists the record.
    ClearTraceOfListed(Record),
    // DN4
    ClearDone(Place),
    // DN5, SC27
    FillPlace(Place, Record),
    // SC5
    SetTrace(Record),
    // SC20
    EmptyPlace(Place),
    // SC26
    SetDone(Place),
    // CA5
    AddClaim(Station, Place),
    // CA8
    DropClaim(Station, Place),
}

// One access to a shared word.
#[derive(Clone, Copy)]
pub enum WordAccess {
    // D3, D5, S1, TN6
    Look(Spot),
    // C1: writes the second name if the spot names the first.
    Swap(Spot, Name, Name),
    // S2
    Overwrite(Spot, Name),
    // CN3
    AskDeleted(Record),
    // CA3, CA6
    AskPlace(Station, Place),
    // CA4
    AskDone(Station, Place),
    // SC4, SC6, SC19
    AskCount(Record),
    // SC11
    AskSlot(Station, Slot),
    // SC19
    AskTrace(Record),
    // SC21: of an own place.
    AskClaims(Place),
    Change(Write),
}

// One access to a shared word or to the pool.
#[derive(Clone, Copy)]
pub enum Access {
    // NN1
    Take,
    // SC23
    Give(Record),
    Word(WordAccess),
}

// What an access finds.
// `Nothing` stays a case, so that reading a name, a mark or a number are methods of what was found: an `Option` has none of ours.
#[derive(Clone, Copy)]
pub enum Found {
    Nothing,
    Name(Name),
    Flag(bool),
    Number(i16),
}
