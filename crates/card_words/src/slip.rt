// A slip in words.
ghost use Rattle.card_words.specs.Words.{slip_name, slip_words};
ghost use Rattle.card_words.specs.FaultWords.{slip_bad_field};

use crate::{Tenths, Told};
use cards::{MOST_CAN_TENTHS, Slip};
use std::fmt;

impl Told for Slip {
    ghost name = { slip_name };

    ghost words = { slip_words };

    ghost bad_field = { slip_bad_field };

    fn name() -> &'static str {
        "a slip"
    }

    // Shown as: order 12, can 2.5 l
    fn write_words<W: fmt::Write>(&self, f: &mut fmt::Formatter<W>) -> fmt::Result {
        let order = self.order();
        let can = Tenths(self.can_tenths());
        write!(f, "order {order}, can {can} l")
    }

    // Four bytes hold any order number, so this is the can size.
    fn write_bad_field<W: fmt::Write>(byte: u8, f: &mut fmt::Formatter<W>) -> fmt::Result {
        let most = Tenths(MOST_CAN_TENTHS);
        write!(
            f,
            "the can size is above {most} l (byte {byte} of the card)"
        )
    }
}
