// CLEAN of a record, CLEAN ALL, and the rounds of DELETE.
ghost use Rattle.std.specs.Prelude.{◌≡◌, []};
ghost use Rattle.work.specs.Plans.{plan, plan_of, seen_by, noted_by};
ghost use Rattle.work.specs.Steps.{clean_at, round_of, next_place, record_clean, link_clean, link_found, deleted_of, place_found, done_of, again_of, release_of};

use crate::known::Known;
use crate::work::*;
use memory::access::Write;
use terms::{Name, Outcome, Place, Position, Record, Spot, Station};

impl Work {
    // Nothing is owed before the decision.
    pub(crate) fn only(point: Point) -> Work
        ensures { plan_of result ≡ plan [] point }
    {
        Work {
            owed: Owed::Nothing,
            point,
        }
    }
}

// The beginning of a CLEAN of a record, or the next of its links.
pub(crate) fn clean(node: Record, position: Position, round: Round) -> Point
    ensures { result ≡ clean_at node position.index round }
{
    Point::Look(
        Spot::Link(node, position),
        AfterLook::CleanLink(Clean {
            node,
            position,
            round,
        }),
    )
}

// A station and its place stay two parameters, as the accesses have two fields: a struct would be taken apart and built again.
impl Known<'_> {
    // A round of DELETE.
    pub(crate) fn round(&self) -> Point
        ensures { result ≡ round_of (seen_by self.now) (noted_by self.now) }
    {
        let length = self.notes.list.count();
        match self.notes.list.head() {
            None => Point::End(Outcome::Done),
            Some(e) => {
                if length == self.sight.settings.t1 {
                    clean(e.entry.node, FIRST, Round::Own(e.left))
                } else if self.sight.settings.t2 <= length {
                    Point::CountFirst(e)
                } else {
                    Point::End(Outcome::Done)
                }
            }
        }
    }

    // CLEAN ALL: the place after this one; behind the last one of all another round.
    fn next_place(&self, station: Station, place: Place) -> Point
        ensures { result ≡ next_place station place (seen_by self.now) (noted_by self.now) }
    {
        match self
            .sight
            .after(station, place.index, self.sight.settings.t1)
        {
            Some((station, index)) => Point::AskPlace(station, Place { index }),
            None => self.round(),
        }
    }

    // A record is clean, and a name is still to be released.
    fn record_clean(&self, name: Name, round: Round) -> Work
        ensures { plan_of result ≡ record_clean (release_of name) round (seen_by self.now) (noted_by self.now) }
    {
        match round {
            Round::Own(left) => Work {
                owed: Owed::release(name),
                point: match self.notes.list.reach(left) {
                    None => self.scan_start(),
                    Some(e) => clean(e.entry.node, FIRST, Round::Own(e.left)),
                },
            },
            Round::All(station, place) => Work {
                owed: Owed::release_and_unclaim(name, station, place),
                point: self.next_place(station, place),
            },
        }
    }

    // A link is clean, and a name is still to be released.
    fn link_clean(&self, name: Name, c: Clean) -> Work
        ensures { plan_of result ≡ link_clean name c (seen_by self.now) (noted_by self.now) }
    {
        match self.sight.next_position(c.position) {
            Some(next) => Work {
                owed: Owed::release(name),
                point: clean(c.node, next, c.round),
            },
            None => self.record_clean(name, c.round),
        }
    }

    // CN2 found this.
    pub(crate) fn link_found(&self, c: Clean, name: Name) -> Work
        ensures { plan_of result ≡ link_found c name (seen_by self.now) (noted_by self.now) }
    {
        match name {
            None => self.link_clean(None, c),
            Some(m) => Work::only(Point::AskDeleted(c, m)),
        }
    }

    // CN3
    pub(crate) fn deleted(&self, c: Clean, m: Record, deleted: bool) -> Work
        ensures { plan_of result ≡ deleted_of c m deleted (seen_by self.now) (noted_by self.now) }
    {
        if deleted {
            let spot = Spot::Link(m, self.sight.following(c.position));
            Work::only(Point::Look(spot, AfterLook::CleanNext(c, m)))
        } else {
            self.link_clean(Some(m), c)
        }
    }

    // CA3
    pub(crate) fn place_found(&self, station: Station, place: Place, name: Name) -> Work
        ensures { plan_of result ≡ place_found station place name (seen_by self.now) (noted_by self.now) }
    {
        Work::only(match name {
            None => self.next_place(station, place),
            Some(r) => Point::AskDone(station, place, r),
        })
    }

    // CA4
    pub(crate) fn done(&self, station: Station, place: Place, r: Record, done: bool) -> Work
        ensures { plan_of result ≡ done_of station place r done (seen_by self.now) (noted_by self.now) }
    {
        if done {
            Work::only(self.next_place(station, place))
        } else {
            Work {
                owed: Owed::One(Write::AddClaim(station, place)),
                point: Point::AskPlaceAgain(station, place, r),
            }
        }
    }

    // CA6
    pub(crate) fn place_again(&self, station: Station, place: Place, r: Record, name: Name) -> Work
        ensures { plan_of result ≡ again_of station place r name (seen_by self.now) (noted_by self.now) }
    {
        if name == Some(r) {
            Work::only(clean(r, FIRST, Round::All(station, place)))
        } else {
            Work {
                owed: Owed::One(Write::DropClaim(station, place)),
                point: self.next_place(station, place),
            }
        }
    }
}
