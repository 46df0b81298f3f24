// SCAN: the first pass, the slots, the second pass, and giving back.
ghost use Rattle.std.specs.Prelude.{◌≡◌, [], None};
ghost use Rattle.work.specs.Plans.{plan_of, writes, sight_of, seen_by, noted_by};
ghost use Rattle.work.specs.Steps.{turn_of, quiet, first_pass, scan_start, first_next, counted_first, counted_again, scan_end, second_start, second_next, next_slot, counted_second, traced_of, claims_of, emptied_of, cleared_of, lower};

use crate::known::Known;
use crate::notes::Note;
use crate::sight::Sight;
use crate::turn::Turn;
use crate::work::*;
use memory::access::Write;
use terms::{Name, Outcome, Place, Position, Slot, Spot, Station};

impl Turn {
    // The notes stay as they are.
    pub(crate) fn quiet(work: Work) -> Turn
        ensures { turn_of result ≡ quiet (plan_of work) }
    {
        Turn { work, note: None }
    }
}

// SC4 of the entry that the walk came to; behind the last one SC11 of the first slot.
fn first_pass(reached: Option<Reached>) -> Point
    ensures { result ≡ first_pass reached }
{
    reached.map_or(
        Point::AskSlot(Station { number: 0 }, Slot { index: 0 }),
        Point::CountFirst,
    )
}

// SC19 of the entry that the walk came to.
fn second_pass(reached: Option<Reached>) -> Point
    ensures { result ≡ second_start reached }
{
    reached.map_or(Point::End(Outcome::Done), Point::CountSecond)
}

// SC21
pub(crate) fn claims(e: Reached, zero: bool) -> Work
    ensures { plan_of result ≡ claims_of e zero }
{
    if zero {
        Work::only(store_none(e, FIRST))
    } else {
        Work::only(Point::AskLink(e, FIRST))
    }
}

// S1 of a link of a record that is given back.
// An entry and its link stay two parameters, as the decisions have two fields: a struct would be taken apart and built again.
fn store_none(e: Reached, x: Position) -> Point
    ensures { result ≡ Point.Save (Spot.Link e.entry.node x) None (AfterStore.GiveBack e x) }
{
    Point::Save(
        Spot::Link(e.entry.node, x),
        None,
        AfterStore::GiveBack(e, x),
    )
}

impl Sight {
    // A link of a record that is given back was stored none.
    pub(crate) fn emptied(&self, old: Name, e: Reached, x: Position) -> Work
        ensures { plan_of result ≡ emptied_of (lower old) e x (sight_of self.now) }
    {
        Work {
            owed: Owed::lower(old),
            point: match self.next_position(x) {
                Some(next) => store_none(e, next),
                None => Point::Give(e),
            },
        }
    }
}

impl Known<'_> {
    // SC4 of the head of the list.
    pub(crate) fn scan_start(&self) -> Point
        ensures { result ≡ scan_start (noted_by self.now) }
    {
        first_pass(self.notes.list.head())
    }

    // The first pass goes on behind an entry.
    fn first_next(&self, owed: Owed, e: Reached) -> Work
        ensures { plan_of result ≡ first_next (writes owed) e (noted_by self.now) }
    {
        Work {
            owed,
            point: first_pass(self.notes.list.reach(e.left)),
        }
    }

    // SC4
    pub(crate) fn counted_first(&self, e: Reached, zero: bool) -> Work
        ensures { plan_of result ≡ counted_first e zero (noted_by self.now) }
    {
        if zero {
            Work {
                owed: Owed::One(Write::SetTrace(e.entry.node)),
                point: Point::CountAgain(e),
            }
        } else {
            self.first_next(Owed::Nothing, e)
        }
    }

    // SC6
    pub(crate) fn counted_again(&self, e: Reached, zero: bool) -> Work
        ensures { plan_of result ≡ counted_again e zero (noted_by self.now) }
    {
        if zero {
            self.first_next(Owed::Nothing, e)
        } else {
            self.first_next(Owed::One(Write::ClearTraceOfListed(e.entry.node)), e)
        }
    }

    // The end of a SCAN that keeps perhaps one entry more.
    fn scan_end(&self, last: Option<Entry>) -> Point
        ensures { result ≡ scan_end (seen_by self.now) (noted_by self.now) last }
    {
        let kept = self.notes.kept.count() as u16 + last.is_some() as u16;
        if kept == self.sight.settings.t1 as u16 {
            Point::AskPlace(Station { number: 0 }, Place { index: 0 })
        } else {
            Point::End(Outcome::Done)
        }
    }

    // The second pass goes on behind an entry, which is kept or was given back.
    fn second_next(&self, owed: Owed, e: Reached, kept: Option<Entry>) -> Turn
        ensures { turn_of result ≡ second_next (writes owed) e kept (seen_by self.now) (noted_by self.now) }
    {
        match self.notes.list.reach(e.left) {
            None => Turn {
                work: Work {
                    owed,
                    point: self.scan_end(kept),
                },
                note: Some(Note::Close(kept)),
            },
            Some(e) => Turn {
                work: Work {
                    owed,
                    point: Point::CountSecond(e),
                },
                note: kept.map(Note::Keep),
            },
        }
    }

    // The slot after this one; behind the last one of all the second pass.
    pub(crate) fn next_slot(&self, station: Station, slot: Slot) -> Point
        ensures { result ≡ next_slot station slot (seen_by self.now) (noted_by self.now) }
    {
        match self
            .sight
            .after(station, slot.index, self.sight.settings.slots)
        {
            Some((station, index)) => Point::AskSlot(station, Slot { index }),
            None => second_pass(self.notes.list.head()),
        }
    }

    // SC19, the count
    pub(crate) fn counted_second(&self, e: Reached, zero: bool) -> Turn
        ensures { turn_of result ≡ counted_second e zero (seen_by self.now) (noted_by self.now) }
    {
        if zero {
            Turn::quiet(Work::only(Point::AskTrace(e)))
        } else {
            self.second_next(Owed::Nothing, e, Some(e.entry))
        }
    }

    // SC19, the trace mark
    pub(crate) fn traced(&self, e: Reached, mark: bool) -> Turn
        ensures { turn_of result ≡ traced_of e mark (seen_by self.now) (noted_by self.now) }
    {
        if mark && !self.notes.seen.has(e.entry.node) {
            Turn::quiet(Work {
                owed: Owed::One(Write::EmptyPlace(e.entry.place)),
                point: Point::AskClaims(e),
            })
        } else {
            self.second_next(Owed::Nothing, e, Some(e.entry))
        }
    }

    // A link was to be cleared under a claim.
    pub(crate) fn cleared(&self, wrote: bool, old: Name, e: Reached, x: Position) -> Turn
        ensures { turn_of result ≡ cleared_of wrote old e x (seen_by self.now) (noted_by self.now) }
    {
        if !wrote {
            return Turn::quiet(Work::only(Point::AskLink(e, x)));
        }
        match self.sight.next_position(x) {
            Some(next) => Turn::quiet(Work {
                owed: Owed::lower(old),
                point: Point::AskLink(e, next),
            }),
            None => self.second_next(Owed::put_back(old, e.entry), e, Some(e.entry)),
        }
    }

    // SC23 was made.
    pub(crate) fn given(&self, e: Reached) -> Turn
        ensures { turn_of result ≡ second_next [] e None (seen_by self.now) (noted_by self.now) }
    {
        self.second_next(Owed::Nothing, e, None)
    }
}
