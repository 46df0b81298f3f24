// What a station does with what its access found, up to the next access.
ghost use Rattle.std.specs.Prelude.{◌≡◌};
ghost use Rattle.work.specs.Plans.{plan_of, going_of, sight_of, notes_of, seen_by, noted_by};
ghost use Rattle.work.specs.Steps.{turn_of, taken_of, looked_of, derefed_of, verified_of, swapped_of, stored_of, decide_of, settle, advance_of, notes_after};

use crate::clean::clean;
use crate::known::Known;
use crate::notes::{Note, Notes};
use crate::scan::claims;
use crate::sight::Sight;
use crate::turn::Turn;
use crate::work::*;
use memory::access::{Found, Write};
use std::ops::ControlFlow;
use terms::{Name, Outcome, Slot, Spot};

impl Sight {
    // NN1
    fn taken(&self, name: Name) -> Work
        ensures { plan_of result ≡ taken_of name (sight_of self.now) }
    {
        match name {
            None => Work::only(Point::End(Outcome::Found(None))),
            Some(r) => Work {
                owed: Owed::taken(r, self.free_slot()),
                point: Point::End(Outcome::Found(Some(r))),
            },
        }
    }

    // S2
    fn stored(&self, old: Name, new: Name, then: AfterStore) -> Work
        ensures { plan_of result ≡ stored_of old new then (sight_of self.now) }
    {
        match then {
            AfterStore::Answer => Work {
                owed: Owed::counts(new, old),
                point: Point::End(Outcome::Done),
            },
            AfterStore::GiveBack(e, x) => self.emptied(old, e, x),
        }
    }
}

// D3
fn looked(spot: Spot, slot: Slot, name: Name, then: AfterLook) -> Work
    ensures { plan_of result ≡ looked_of spot slot name then }
{
    Work {
        owed: Owed::One(Write::FillSlot(slot, name)),
        point: Point::Verify(spot, slot, name, then),
    }
}

impl Known<'_> {
    // A dereference is verified.
    fn derefed(&self, then: AfterLook, name: Name) -> Work
        ensures { plan_of result ≡ derefed_of then name (seen_by self.now) (noted_by self.now) }
    {
        match then {
            AfterLook::Answer => Work::only(Point::End(Outcome::Found(name))),
            AfterLook::CleanLink(c) => self.link_found(c, name),
            AfterLook::CleanNext(c, m) => {
                let spot = Spot::Link(c.node, c.position);
                Work::only(Point::Swap(spot, Some(m), name, AfterSwap::CleanSwap(c, m, name)))
            }
        }
    }

    // D5
    fn verified(&self, spot: Spot, slot: Slot, name: Name, then: AfterLook, found: Name) -> Work
        ensures { plan_of result ≡ verified_of spot slot name then found (seen_by self.now) (noted_by self.now) }
    {
        if found == name {
            self.derefed(then, name)
        } else {
            Work::only(Point::LookAgain(spot, slot, then))
        }
    }

    // C1
    fn swapped(&self, wrote: bool, old: Name, new: Name, then: AfterSwap) -> Turn
        ensures { turn_of result ≡ swapped_of wrote old new then (seen_by self.now) (noted_by self.now) }
    {
        match then {
            AfterSwap::Answer => Turn::quiet(Work {
                owed: Owed::after_swap(wrote, new, old),
                point: Point::End(Outcome::Swapped(wrote)),
            }),
            AfterSwap::CleanSwap(c, m, t) => Turn::quiet(Work {
                owed: Owed::after_clean_swap(wrote, t, m),
                point: clean(c.node, c.position, c.round),
            }),
            AfterSwap::ClearLink(e, x) => self.cleared(wrote, old, e, x),
        }
    }

    // Kept a switch: where a station stands lasts from one turn to the next, so it is data of a fixed size; a closure would lie on the heap.
    fn decide(&self, point: Point, found: Found) -> Turn
        ensures { turn_of result ≡ decide_of point found (seen_by self.now) (noted_by self.now) }
    {
        match point {
            Point::End(outcome) => Turn::quiet(Work::only(Point::End(outcome))),
            Point::Take => Turn::quiet(self.sight.taken(found.name())),
            Point::Look(spot, then) => Turn::quiet(looked(
                spot,
                self.sight.free_slot(),
                found.name(),
                then,
            )),
            Point::LookAgain(spot, slot, then) => Turn::quiet(looked(
                spot,
                slot,
                found.name(),
                then,
            )),
            Point::Verify(spot, slot, name, then) => {
                Turn::quiet(self.verified(spot, slot, name, then, found.name()))
            }
            Point::Swap(_, old, new, then) => self.swapped(found.flag(), old, new, then),
            Point::Save(spot, new, then) => {
                Turn::quiet(Work::only(Point::Overwrite(spot, found.name(), new, then)))
            }
            Point::Overwrite(_, old, new, then) => Turn::quiet(self.sight.stored(old, new, then)),
            Point::AskDeleted(c, m) => Turn::quiet(self.deleted(c, m, found.flag())),
            Point::AskPlace(z, i) => Turn::quiet(self.place_found(z, i, found.name())),
            Point::AskDone(z, i, r) => Turn::quiet(self.done(z, i, r, found.flag())),
            Point::AskPlaceAgain(z, i, r) => {
                Turn::quiet(self.place_again(z, i, r, found.name()))
            }
            Point::CountFirst(e) => Turn::quiet(self.counted_first(e, found.is_zero())),
            Point::CountAgain(e) => Turn::quiet(self.counted_again(e, found.is_zero())),
            Point::AskSlot(z, i) => Turn {
                work: Work::only(self.next_slot(z, i)),
                note: Some(Note::See(found.name())),
            },
            Point::CountSecond(e) => self.counted_second(e, found.is_zero()),
            Point::AskTrace(e) => self.traced(e, found.flag()),
            Point::AskClaims(e) => Turn::quiet(claims(e, found.is_zero())),
            Point::AskLink(e, x) => {
                let spot = Spot::Link(e.entry.node, x);
                Turn::quiet(Work::only(Point::Swap(
                    spot,
                    found.name(),
                    None,
                    AfterSwap::ClearLink(e, x),
                )))
            }
            Point::Give(e) => self.given(e),
        }
    }
}

impl Work {
    // An operation ends with its last access: nothing is owed, and an end is reached.
    fn settle(self) -> ControlFlow<Outcome, Work>
        ensures { going_of result ≡ settle (plan_of self) }
    {
        match (self.owed, self.point) {
            (Owed::Nothing, Point::End(outcome)) => ControlFlow::Break(outcome),
            _ => ControlFlow::Continue(self),
        }
    }

    // The access was made and found this. What was owed is done, or a decision is taken. More work follows, or the
    // operation's answer.
    pub fn advance(
        self,
        found: Found,
        sight: &Sight,
        notes: &mut Notes,
    ) -> ControlFlow<Outcome, Work>
        ensures next { going_of result ≡ advance_of (plan_of self) found (sight_of sight.now) (notes_of notes.old) }
        ensures notes { notes_of notes.new ≡ notes_after (plan_of self) found (sight_of sight.now) (notes_of notes.old) }
    {
        let Work { owed, point } = self;
        match owed {
            Owed::Nothing => {
                let turn = Known { sight, notes }.decide(point, found);
                notes.note(turn.note);
                turn.work.settle()
            }
            _ => {
                let owed = owed.paid();
                Work { owed, point }.settle()
            }
        }
    }
}
