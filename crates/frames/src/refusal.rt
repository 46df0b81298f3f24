// Why a call is refused. `refusal_numbers` takes the numbers out and back, and has each refusal's layer.

// A refusal, with the number that is printed.
#[derive(Clone, Copy, PartialEq, Eq, Debug)]
pub enum Refusal {
    Digits = 1,
    Shape = 2,
    Setup = 3,
    Station = 4,
    Range = 5,
    Card = 6,
    Table = 7,
    Busy = 8,
    Idle = 9,
    NotHeld = 10,
    Slots = 11,
    NotFresh = 12,
    Fresh = 13,
    Retired = 14,
    List = 15,
}

// A number that no refusal has.
#[derive(Clone, Copy, PartialEq, Eq, Debug)]
pub struct UnknownRefusal(pub u8);

// Which part tells the refusal, with its number.
#[derive(Clone, Copy, PartialEq, Eq, Debug)]
pub enum Layer {
    Line = 1,
    Table = 2,
    Card = 3,
}

// A refusal, and the place of the faulty byte in the frame, from 0.
#[derive(Clone, Copy, PartialEq, Eq, Debug)]
pub struct Refused {
    pub why: Refusal,
    pub place: u8,
}

// What a line itself can be refused for.
#[derive(Clone, Copy, PartialEq, Eq, Debug)]
pub enum LineFault {
    Digits,
    Shape,
}
