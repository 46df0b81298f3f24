// The table as one state, a turn of a station, and the beginnings that are refused: see specs/. What stands here are facts
// about these definitions, each as the contract of a function.
#![tactic(auto)]

ghost use Rattle.machine.specs.Solo.{DerefTakesThree, SwapOfNoneTakesOne, StoreTakes};

// A dereference of a spot that nobody changes takes 3 accesses.
pub fn deref_takes_three()
    ensures { DerefTakesThree }
{}

// A swap from none to none takes 1.
pub fn swap_of_none_takes_one()
    ensures { SwapOfNoneTakesOne }
{}

// A store takes 2 to 5.
pub fn store_takes_two_to_five()
    ensures { StoreTakes }
{}
