// The table and the ledger of whole acts side by side. There is no code here: each function's contract is a theorem,
// stated in specs/.
#![tactic(auto)]

ghost use Rattle.order.specs.Theorems.{NewIsRelated, BeginningsAreExplained, TurnsAreExplained, RunsAreExplained};

// A new table goes with the ledger's start.
pub fn new_tables_go_with_the_start() -> ()
    ensures { NewIsRelated }
{}

// A beginning that is not refused is explained: a DELETE acts when it begins, the others wait.
pub fn beginnings_are_explained() -> ()
    ensures { BeginningsAreExplained }
{}

// A turn is explained, whatever record of the pool is picked.
pub fn turns_are_explained() -> ()
    ensures { TurnsAreExplained }
{}

// Every run of every table is explained by some order of whole acts.
pub fn runs_are_explained() -> ()
    ensures { RunsAreExplained }
{}
