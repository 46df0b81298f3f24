// Theorems on cards, most of them for every kind. The functions do nothing: their contracts are the theorems.
ghost use Rattle.cards.specs.Theorems.{FillReadsBack, RefusedKeeps, FaultsInLine, BlanksAreZero};

use crate::Card;

// What is read after a fill is the bytes filled.
pub fn fill_reads_back<C: Card>()
    ensures stands { FillReadsBack C.Card.reading C.Card.writing C.Card.blank }
{}

// A fill that is refused, whatever the fault, changes no card.
pub fn refused_fill_keeps_cards<C: Card>()
    ensures stands { RefusedKeeps C.Card.reading C.Card.writing }
{}

// A bad field is told at its own first byte, inside the line.
pub fn faults_lie_in_line<C: Card>()
    ensures stands { FaultsInLine C.Card.size C.Card.reading }
{}

// The blank slip and the blank recipe are all zero.
pub fn blank_cards_are_zero()
    ensures stands { BlanksAreZero }
{}
