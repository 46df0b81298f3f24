// The number and the layer of each refusal.
ghost use Rattle.std.specs.Prelude.{◌≡◌};
ghost use Rattle.frames.specs.Refusals.{number_of, layer_of, layer_number, HasNumber, line_refused};

use crate::refusal::{Layer, LineFault, Refusal, Refused, UnknownRefusal};

// 1 to 15.
impl From<Refusal> for u8 {
    ghost from_gives = { λ why number. number ≡ number_of why };

    fn from(why: Refusal) -> u8 {
        why as u8
    }
}

// The refusal that has the number, or the number where none has it.
impl TryFrom<u8> for Refusal {
    type Error = UnknownRefusal;

    ghost try_from_gives = { HasNumber };

    fn try_from(number: u8) -> Result<Refusal, UnknownRefusal> {
        match number {
            1 => Ok(Refusal::Digits),
            2 => Ok(Refusal::Shape),
            3 => Ok(Refusal::Setup),
            4 => Ok(Refusal::Station),
            5 => Ok(Refusal::Range),
            6 => Ok(Refusal::Card),
            7 => Ok(Refusal::Table),
            8 => Ok(Refusal::Busy),
            9 => Ok(Refusal::Idle),
            10 => Ok(Refusal::NotHeld),
            11 => Ok(Refusal::Slots),
            12 => Ok(Refusal::NotFresh),
            13 => Ok(Refusal::Fresh),
            14 => Ok(Refusal::Retired),
            15 => Ok(Refusal::List),
            _ => Err(UnknownRefusal(number)),
        }
    }
}

impl Refusal {
    pub fn layer(self) -> Layer
        ensures { result ≡ layer_of self }
    {
        match self {
            Refusal::Digits | Refusal::Shape => Layer::Line,
            Refusal::Card => Layer::Card,
            _ => Layer::Table,
        }
    }
}

// 1 to 3.
impl From<Layer> for u8 {
    ghost from_gives = { λ layer number. number ≡ layer_number layer };

    fn from(layer: Layer) -> u8 {
        layer as u8
    }
}

// A fault of the line is told at its first byte.
impl From<LineFault> for Refused {
    ghost from_gives = { λ e r. r ≡ line_refused e };

    fn from(fault: LineFault) -> Refused {
        let why = match fault {
            LineFault::Digits => Refusal::Digits,
            LineFault::Shape => Refusal::Shape,
        };
        Refused { why, place: 0 }
    }
}
