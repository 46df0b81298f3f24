// Why a withdrawn record is never touched while it lies in the pool: an invariant over the words that the
// stations share, which every access of every station keeps, for any numbers of stations, records, slots,
// links and list places. There is no code here: each function's contract is a theorem, stated in specs/.
#![tactic(auto)]

ghost use Rattle.protocol.specs.Theorems.{Kept, Starts, Always, Bounded, AllSafe, TouchesLive, FreshAlone, ListedOnce, MarkedRetired, Changes, Rises, Rely, OthersUntouched, TurnsKeep, Cycle};

// Every step of every station keeps the invariant.
pub fn steps_keep() -> ()
    ensures { Kept }
{}

// A new table has it.
pub fn new_table_has_it() -> ()
    ensures { Starts }
{}

// So it holds after any run.
pub fn always_holds() -> ()
    ensures { Always }
{}

// A count lies between minus the number of stations and the number of spots and stations together; a claim
// number is at most the number of stations.
pub fn counts_are_bounded() -> ()
    ensures { Bounded }
{}

// After any run no spot names a pooled record, and no slot holds one.
pub fn pooled_is_unnamed() -> ()
    ensures { AllSafe }
{}

// What a station may touch is not pooled.
pub fn touched_is_not_pooled() -> ()
    ensures { TouchesLive }
{}

// A fresh record is held by one station only.
pub fn fresh_is_alone() -> ()
    ensures { FreshAlone }
{}

// A listed record is retired and listed once.
pub fn listed_is_retired() -> ()
    ensures { ListedOnce }
{}

// A held record whose deleted mark is set is retired.
pub fn marked_is_retired() -> ()
    ensures { MarkedRetired }
{}

// How a step may change a standing.
pub fn standings_change() -> ()
    ensures { Changes }
{}

// While a record is held, linked or retired stays so, and retired stays so.
pub fn standings_rise() -> ()
    ensures { Rises }
{}

// What a station holds keeps its standing over what another does, but for linked that becomes retired.
pub fn stations_may_rely() -> ()
    ensures { Rely }
{}

// A step leaves what every other station has of its own.
pub fn others_are_untouched() -> ()
    ensures { OthersUntouched }
{}

// All that a station does in a turn keeps the invariant and leaves the others alone.
pub fn turns_keep() -> ()
    ensures { TurnsKeep }
{}

// The steps are not empty: a record is taken, held, withdrawn and given back.
pub fn a_record_comes_back() -> ()
    ensures { Cycle }
{}
