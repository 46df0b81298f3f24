// The one access that a station makes next.
ghost use Rattle.std.specs.Prelude.{◌≡◌, Some};
ghost use Rattle.work.specs.Plans.{access_at, access_of, plan_of};

use crate::work::{Point, Work};
use memory::access::{Access, WordAccess};
use terms::Spot;

fn word(access: WordAccess) -> Option<Access>
    ensures { result ≡ Some (Access.Word access) }
{
    Some(Access::Word(access))
}

impl Point {
    // Kept a switch, as `decide` is: where a station stands lasts from one turn to the next, so it is data of a fixed size.
    fn access(self) -> Option<Access>
        ensures { result ≡ access_at self }
    {
        match self {
            Point::End(_) => None,
            Point::Take => Some(Access::Take),
            Point::Look(spot, _) => word(WordAccess::Look(spot)),
            Point::LookAgain(spot, _, _) => word(WordAccess::Look(spot)),
            Point::Verify(spot, _, _, _) => word(WordAccess::Look(spot)),
            Point::Swap(spot, old, new, _) => word(WordAccess::Swap(spot, old, new)),
            Point::Save(spot, _, _) => word(WordAccess::Look(spot)),
            Point::Overwrite(spot, _, new, _) => word(WordAccess::Overwrite(spot, new)),
            Point::AskDeleted(_, m) => word(WordAccess::AskDeleted(m)),
            Point::AskPlace(z, i) => word(WordAccess::AskPlace(z, i)),
            Point::AskDone(z, i, _) => word(WordAccess::AskDone(z, i)),
            Point::AskPlaceAgain(z, i, _) => word(WordAccess::AskPlace(z, i)),
            Point::CountFirst(e) => word(WordAccess::AskCount(e.entry.node)),
            Point::CountAgain(e) => word(WordAccess::AskCount(e.entry.node)),
            Point::AskSlot(z, i) => word(WordAccess::AskSlot(z, i)),
            Point::CountSecond(e) => word(WordAccess::AskCount(e.entry.node)),
            Point::AskTrace(e) => word(WordAccess::AskTrace(e.entry.node)),
            Point::AskClaims(e) => word(WordAccess::AskClaims(e.entry.place)),
            Point::AskLink(e, x) => word(WordAccess::Look(Spot::Link(e.entry.node, x))),
            Point::Give(e) => Some(Access::Give(e.entry.node)),
        }
    }
}

impl Work {
    // What is owed comes first, then the decision. Work that has come to its end makes no access.
    pub fn access(self) -> Option<Access>
        ensures { result ≡ access_of (plan_of self) }
    {
        match self.owed.first() {
            None => self.point.access(),
            Some(write) => word(WordAccess::Change(write)),
        }
    }
}
