// What is wrong with bytes that should be a card, in words.
ghost use Rattle.std.specs.Prelude.{◌≡◌, Some};
ghost use Rattle.card_words.specs.FaultWords.{fault_words};

use crate::{ByteCount, Told};
use cards::CardFault;
use std::fmt;
use std::marker::PhantomData;

// Bytes that are no card of the kind `C`: what is wrong with them, and how many they are.
#[derive(Clone, Copy, Debug)]
pub struct BadCard<C> {
    pub fault: CardFault,
    pub given: usize,
    kind: PhantomData<C>,
}

impl<C> BadCard<C> {
    pub fn new(fault: CardFault, given: usize) -> BadCard<C>
        ensures fault { result.fault ≡ fault }
        ensures given { result.given ≡ given }
    {
        BadCard {
            fault,
            given,
            kind: PhantomData,
        }
    }
}

impl<C: Told> fmt::Display for BadCard<C> {
    ghost output = { λ b. Some (fault_words C.name C.size C.bad_field b.fault b.given) };

    fn fmt<W: fmt::Write>(&self, f: &mut fmt::Formatter<W>) -> fmt::Result {
        match self.fault {
            CardFault::Length => {
                let given = ByteCount(self.given);
                let name = C::name();
                let size = C::size();
                write!(f, "the card has {given}, {name} has {size}")
            }
            CardFault::Field(byte) => C::write_bad_field(byte, f),
        }
    }
}
