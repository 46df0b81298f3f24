// Every access of every operation is a step of the protocol whose invariant keeps withdrawn records safe: so that
// invariant holds of the whole table, whatever the stations do. There is no code here: each function's contract is a
// theorem, stated in specs/.
#![tactic(auto)]

ghost use Rattle.laws.specs.Theorems.{NewIsSound, TurnsKeep, BeginningsKeep, RunsAreSound, SoundIsBounded, SoundIsSafe, SoundHolds, SoundLists, SoundPlaces, CleanHasRoom, TouchesLive, IdleHasPlace, SoundPool};

// A new table is sound.
pub fn new_tables_are_sound() -> ()
    ensures { NewIsSound }
{}

// A turn of a busy station is made of moves that the protocol allows, and keeps the table sound.
pub fn turns_keep_soundness() -> ()
    ensures { TurnsKeep }
{}

// So does a beginning that is not refused.
pub fn beginnings_keep_soundness() -> ()
    ensures { BeginningsKeep }
{}

// So every table that is reached from a new one is sound.
pub fn runs_are_sound() -> ()
    ensures { RunsAreSound }
{}

// A count lies from -8 to 536, and a claim number is at most 8.
pub fn counts_are_bounded() -> ()
    ensures { SoundIsBounded }
{}

// No root and no link names a record that is pooled or fresh.
pub fn spots_name_no_pooled_record() -> ()
    ensures { SoundIsSafe }
{}

// What a station holds, at rest or at work, is not pooled, and a fresh record is held by one station only.
pub fn holds_are_safe() -> ()
    ensures { SoundHolds }
{}

// A record in the list of an idle station is retired, and listed once.
pub fn listed_is_retired() -> ()
    ensures { SoundLists }
{}

// A record in a place of any station is retired, and in no other place.
pub fn placed_is_retired() -> ()
    ensures { SoundPlaces }
{}

// Where CLEAN looks at a link, two slots of its station are empty.
pub fn clean_has_two_slots() -> ()
    ensures { CleanHasRoom }
{}

// A record that an access touches or gives back is not pooled.
pub fn touched_is_not_pooled() -> ()
    ensures { TouchesLive }
{}

// An idle station has an empty place in its list, so no DELETE is refused for want of one.
pub fn idle_has_a_place() -> ()
    ensures { IdleHasPlace }
{}

// A record of the table lies in the pool just where it is pooled.
pub fn pool_is_what_is_pooled() -> ()
    ensures { SoundPool }
{}
