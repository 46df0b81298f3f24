// A chain: each record has one link, to the next.
ghost use Rattle.std.proofs.Common.{rules};

use crate::layout::Layout;

const POSITIONS: u8 = 1;

const NEXT: u8 = 0;

#[derive(Clone, Copy, PartialEq, Eq, Debug)]
pub struct Chain;

impl Layout for Chain {
    ghost positions = { 1 };

    ghost follow = { λ _. 0 };

    ghost some = { Prim.search rules };

    ghost few = { Prim.search rules };

    ghost inside = { Prim.search rules };

    fn positions() -> u8 {
        POSITIONS
    }

    fn follow(x: u8) -> Option<u8> {
        (x == NEXT).then_some(NEXT)
    }
}
