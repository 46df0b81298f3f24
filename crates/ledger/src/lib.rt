// The ledger of whole acts, and theorems about it: each function's contract is one of them.
// The definitions are in specs/: Ledger says what an act does and when it is allowed, and Explains what explains a run.
#![tactic(auto)]

ghost use Rattle.ledger.specs.Limits.{NewFindsWhatIsPooled, DerefFindsWhatIsNamed, LinksNeedHolds, ReleaseHasLimits};
ghost use Rattle.ledger.specs.Limits.{CasHasLimits, StoreHasLimits, DeleteHasLimits, LeadHasLimits, ReturnHasLimits, ActsAreSettled};
ghost use Rattle.ledger.specs.Judge.{ActsCanBeJudged, SilentActsCanBeJudged};
ghost use Rattle.ledger.specs.Laws.{LedgersKeepOrder, SinceIsWhatWasNamed, EarlierIsExplained, EndsAsItActed};
ghost use Rattle.ledger.specs.Laws.{OneOperation, EmptyRootHasNoRecord};
ghost use Rattle.ledger.specs.Examples.{ReusedIsExplained, LedPastIsExplained};

// What the acts of stations never do.
pub fn acts_have_limits()
    ensures makes { NewFindsWhatIsPooled }
    ensures follows { DerefFindsWhatIsNamed }
    ensures links { LinksNeedHolds }
    ensures releases { ReleaseHasLimits }
    ensures swaps { CasHasLimits }
    ensures stores { StoreHasLimits }
    ensures withdraws { DeleteHasLimits }
{}

// What the silent acts never do.
pub fn silent_acts_have_limits()
    ensures leads { LeadHasLimits }
    ensures pools { ReturnHasLimits }
{}

// An act and its answer leave one ledger, and an act other than NEW has one answer.
pub fn acts_are_settled()
    ensures { ActsAreSettled }
{}

// Whether an act is allowed can be found out, so the ledger can judge a list of acts.
pub fn acts_can_be_judged()
    ensures acts { ActsCanBeJudged }
    ensures silent { SilentActsCanBeJudged }
{}

// Whatever explains a run keeps the ledger in order: a pooled record is held by nobody and named by nothing.
pub fn ledgers_keep_order()
    ensures { LedgersKeepOrder }
{}

// What the ledger remembers of a retired record's links is just what they have named since.
pub fn since_is_exact()
    ensures { SinceIsWhatWasNamed }
{}

// An operation that ends answers what its act answered.
pub fn answers_are_of_acts()
    ensures earlier { EarlierIsExplained }
    ensures answer { EndsAsItActed }
    ensures single { OneOperation }
    ensures empty { EmptyRootHasNoRecord }
{}

// Two runs that are explained, by all of the acts.
pub fn small_runs_are_explained()
    ensures reused { ReusedIsExplained }
    ensures passed { LedPastIsExplained }
{}
