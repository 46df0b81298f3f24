// The writes that are owed, in the combinations that occur.
ghost use Rattle.std.specs.Prelude.{◌≡◌, [], ◌∷◌, ◌++◌, if◌then◌else◌, Some};
ghost use Rattle.memory.specs.declared.access.Write.TheVariants as w;
ghost use Rattle.work.specs.Plans.{writes, first_write, later_writes};
ghost use Rattle.work.specs.Steps.{counts_of, lower, release_of};

use crate::work::{Entry, Owed};
use memory::access::Write;
use terms::{Name, Place, Record, Slot, Station};

impl Owed {
    // NN2, NN3, NN5
    pub(crate) fn taken(r: Record, slot: Slot) -> Owed
        ensures { writes result ≡ w.ZeroCount r ∷ w.ClearDeleted r ∷ w.FillSlot slot (Some r) ∷ [] }
    {
        Owed::Three(
            Write::ZeroCount(r),
            Write::ClearDeleted(r),
            Write::FillSlot(slot, Some(r)),
        )
    }

    // DN1 to DN5
    pub(crate) fn deleted(r: Record, place: Place) -> Owed
        ensures { writes result ≡ w.Release r ∷ w.SetDeleted r ∷ w.ClearTraceOfListed r ∷ w.ClearDone place ∷ w.FillPlace place r ∷ [] }
    {
        Owed::Five(
            Write::Release(r),
            Write::SetDeleted(r),
            Write::ClearTraceOfListed(r),
            Write::ClearDone(place),
            Write::FillPlace(place, r),
        )
    }

    // After a write of a name over another.
    pub(crate) fn counts(new: Name, old: Name) -> Owed
        ensures { writes result ≡ counts_of new old }
    {
        match (new, old) {
            (None, None) => Owed::Nothing,
            (None, Some(o)) => Owed::One(Write::LowerCount(o)),
            (Some(n), None) => Owed::Two(Write::RaiseCount(n), Write::ClearTraceOfHeld(n)),
            (Some(n), Some(o)) => {
                Owed::Three(
                    Write::RaiseCount(n),
                    Write::ClearTraceOfHeld(n),
                    Write::LowerCount(o),
                )
            }
        }
    }

    // After a swap: nothing if it did not write.
    pub(crate) fn after_swap(wrote: bool, new: Name, old: Name) -> Owed
        ensures { writes result ≡ (if wrote then counts_of new old else []) }
    {
        if wrote {
            Owed::counts(new, old)
        } else {
            Owed::Nothing
        }
    }

    // After the swap of a CLEAN from m to t, which are then both released.
    pub(crate) fn after_clean_swap(wrote: bool, t: Name, m: Record) -> Owed
        ensures { writes result ≡ (if wrote then counts_of t (Some m) else []) ++ release_of t ++ w.Release m ∷ [] }
    {
        match (wrote, t) {
            (true, Some(t)) => Owed::Five(
                Write::RaiseCount(t),
                Write::ClearTraceOfHeld(t),
                Write::LowerCount(m),
                Write::Release(t),
                Write::Release(m),
            ),
            (true, None) => Owed::Two(Write::LowerCount(m), Write::Release(m)),
            (false, Some(t)) => Owed::Two(Write::Release(t), Write::Release(m)),
            (false, None) => Owed::One(Write::Release(m)),
        }
    }

    // After a link was emptied.
    pub(crate) fn lower(old: Name) -> Owed
        ensures { writes result ≡ lower old }
    {
        match old {
            None => Owed::Nothing,
            Some(o) => Owed::One(Write::LowerCount(o)),
        }
    }

    // After the last link was emptied under a claim: the record goes back to its place.
    pub(crate) fn put_back(old: Name, entry: Entry) -> Owed
        ensures { writes result ≡ lower old ++ w.SetDone entry.place ∷ w.FillPlace entry.place entry.node ∷ [] }
    {
        let done = Write::SetDone(entry.place);
        let fill = Write::FillPlace(entry.place, entry.node);
        match old {
            None => Owed::Two(done, fill),
            Some(o) => Owed::Three(Write::LowerCount(o), done, fill),
        }
    }

    pub(crate) fn release(name: Name) -> Owed
        ensures { writes result ≡ release_of name }
    {
        match name {
            None => Owed::Nothing,
            Some(r) => Owed::One(Write::Release(r)),
        }
    }

    // After a CLEAN under a claim.
    pub(crate) fn release_and_unclaim(name: Name, station: Station, place: Place) -> Owed
        ensures { writes result ≡ release_of name ++ w.DropClaim station place ∷ [] }
    {
        let unclaim = Write::DropClaim(station, place);
        match name {
            None => Owed::One(unclaim),
            Some(r) => Owed::Two(Write::Release(r), unclaim),
        }
    }

    // The write that is made next.
    pub(crate) fn first(self) -> Option<Write>
        ensures { result ≡ first_write (writes self) }
    {
        match self {
            Owed::Nothing => None,
            Owed::One(a) => Some(a),
            Owed::Two(a, _) => Some(a),
            Owed::Three(a, _, _) => Some(a),
            Owed::Four(a, _, _, _) => Some(a),
            Owed::Five(a, _, _, _, _) => Some(a),
        }
    }

    // That write is made, and owed no more.
    pub(crate) fn paid(self) -> Owed
        ensures { writes result ≡ later_writes (writes self) }
    {
        match self {
            Owed::Nothing => Owed::Nothing,
            Owed::One(_) => Owed::Nothing,
            Owed::Two(_, b) => Owed::One(b),
            Owed::Three(_, b, c) => Owed::Two(b, c),
            Owed::Four(_, b, c, d) => Owed::Three(b, c, d),
            Owed::Five(_, b, c, d, e) => Owed::Four(b, c, d, e),
        }
    }
}
