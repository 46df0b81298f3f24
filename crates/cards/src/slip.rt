// The slip: what a customer ordered.
ghost use Rattle.std.specs.Prelude.{◌≡◌, ◌≤◌, T, [], ◌∷◌};
ghost use Rattle.cards.specs.Fields.{within};
ghost use Rattle.cards.specs.Layouts.{slip_fields};

use crate::{Card, CardBytes, CardFault};

// the bytes of a slip
pub const SLIP_BYTES: usize = 6;

// a can of 25 litres
pub const MOST_CAN_TENTHS: u16 = 250;

// the can size comes after the order number
const CAN_OFFSET: u8 = 4;

// An order number and a can size in tenths of a litre, which keeps its limit.
#[derive(Clone, Copy, PartialEq, Eq, Debug)]
pub struct Slip {
    order: u32,
    can: u16,
    ghost fits: { T (within slip_fields (order ∷ can ∷ [])) },
}

impl Slip {
    ghost use Rattle.cards.specs.Slips.{slip_of};

    // The slip of this order and can size, unless the can is too large.
    pub fn new(order: u32, can: u16) -> Result<Slip, CardFault>
        ensures value { result ≡ slip_of (order ∷ can ∷ []) }
    {
        if can > MOST_CAN_TENTHS {
            return Err(CardFault::Field(CAN_OFFSET));
        }
        Ok(Slip { order, can })
    }

    pub fn order(&self) -> u32
        ensures value { result ≡ self.now.order }
    {
        self.order
    }

    pub fn can_tenths(&self) -> u16
        ensures value { result ≡ self.now.can }
        ensures bound { result ≤ 250 }
    {
        self.can
    }
}

impl Card for Slip {
    ghost use Rattle.cards.specs.Slips.{slip_size, slip_blank, slip_reading, slip_writing};
    ghost use Rattle.cards.specs.SlipLaws.{slip_lawful};

    ghost size = { slip_size };

    ghost blank = { slip_blank };

    ghost reading = { slip_reading };

    ghost writing = { slip_writing };

    ghost lawful = { slip_lawful };

    fn size() -> usize {
        SLIP_BYTES
    }

    fn blank() -> Slip {
        Slip { order: 0, can: 0 }
    }

    fn read(bytes: &[u8]) -> Result<Slip, CardFault> {
        let [a, b, c, d, e, f] = *bytes else {
            return Err(CardFault::Length);
        };
        Slip::new(u32::from_be_bytes([a, b, c, d]), u16::from_be_bytes([e, f]))
    }

    fn write(&self) -> CardBytes {
        let Slip { order, can } = *self;
        let [a, b, c, d] = order.to_be_bytes();
        let [e, f] = can.to_be_bytes();
        CardBytes::of(&[a, b, c, d, e, f])
    }
}
