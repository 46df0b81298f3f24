// Why a call is refused, in words.
ghost use Rattle.std.specs.Prelude.{◌≡◌, Some};
ghost use Rattle.words.specs.RefusalWords.{reason_words, refused_words};

use frames::{Refusal, Refused};
use std::fmt;

// What the refusal says of the call. `Refusal` is of another crate, so a `Display` here would only wrap this.
pub fn reason(why: Refusal) -> &'static str
    ensures { result.now ≡ reason_words why }
{
    match why {
        Refusal::Digits => "not pairs of hexadecimal digits, or more than 64 bytes",
        Refusal::Shape => "no known frame, or a wrong number of bytes",
        Refusal::Setup => "a setting is outside its limits",
        Refusal::Station => "there is no such station",
        Refusal::Range => "a record, root or position is out of range, or a store on a root",
        Refusal::Card => "the card has a wrong length or a bad field",
        Refusal::Table => "there is no table yet, or there is one already",
        Refusal::Busy => "the station is busy",
        Refusal::Idle => "the station is idle",
        Refusal::NotHeld => "the station does not hold the record",
        Refusal::Slots => "the station has no slot to spare",
        Refusal::NotFresh => "the record is not fresh",
        Refusal::Fresh => "the record is fresh",
        Refusal::Retired => "the record is withdrawn already",
        Refusal::List => "the list of the station has no empty place",
    }
}

// A refusal with its number and place.
#[derive(Clone, Copy)]
pub struct RefusedInWords(pub Refused);

impl fmt::Display for RefusedInWords {
    ghost output = { λ w. Some (refused_words w.0) };

    fn fmt<W: fmt::Write>(&self, f: &mut fmt::Formatter<W>) -> fmt::Result {
        let Refused { why, place } = self.0;
        let number = u8::from(why);
        let reason = reason(why);
        write!(f, "refused {number} at byte {place}: {reason}")
    }
}
