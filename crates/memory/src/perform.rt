// The one access of a turn.
ghost use Rattle.std.specs.Prelude.{◌≡◌, None};
ghost use Rattle.terms.specs.Words.{reads};
ghost use Rattle.memory.specs.Shared.{view, blank, add_count, name_at, set_name, swap_answer, swapped, released};
ghost use Rattle.memory.specs.Perform.{change_of, found_of, after_of};

use crate::access::{Found, WordAccess, Write};
use crate::memory::*;
use terms::tables::*;
use terms::{Name, Record, Slot, Spot, Station};

impl Memory {
    #[tactic(auto, using(crate::proofs::Together::count_put))]
    fn add_count(&mut self, r: Record, by: i16)
        ensures { view self.new ≡ add_count (view self.old) r.number by }
    {
        self.update_record(r, |words| words.count = words.count.saturating_add(by));
    }

    fn name_at(&self, spot: Spot) -> Name
        ensures { result ≡ name_at (view self.now) spot }
    {
        match spot {
            Spot::Root(root) => word(&self.roots, root.index, None),
            Spot::Link(r, position) => word(&self.record_words(r).links, position.index, None),
        }
    }

    #[tactic(auto, using(crate::proofs::Together::link_put))]
    fn set_name(&mut self, spot: Spot, name: Name)
        ensures { view self.new ≡ set_name (view self.old) spot name }
    {
        match spot {
            Spot::Root(root) => set_word(&mut self.roots, root.index, name),
            Spot::Link(r, position) => self.update_record(r, |words| {
                set_word(&mut words.links, position.index, name);
            }),
        }
    }

    fn swap(&mut self, spot: Spot, old: Name, new: Name) -> bool
        ensures answer { result ≡ swap_answer (view self.old) spot old }
        ensures after { view self.new ≡ swapped (view self.old) spot old new }
    {
        let writes = self.name_at(spot) == old;
        if writes {
            self.set_name(spot, new);
        }
        writes
    }

    // Empties the lowest slot of the station that names the record.
    fn release(&mut self, station: Station, r: Record)
        ensures { view self.new ≡ released (view self.old) station.number r }
    {
        let slots = self.own_slots(station);
        if let Some(i) = slots.iter().position(|name| *name == Some(r)) {
            self.set_slot(station, Slot { index: i as u8 }, None);
        }
    }

    #[tactic(auto, using(crate::proofs::Together::one_word_put))]
    fn change(&mut self, station: Station, write: Write)
        ensures { view self.new ≡ change_of (view self.old) station.number write }
    {
        match write {
            Write::ZeroCount(r) => self.update_record(r, |words| words.count = 0),
            Write::ClearDeleted(r) => self.update_record(r, |words| words.deleted = false),
            Write::FillSlot(slot, name) => self.set_slot(station, slot, name),
            Write::Release(r) => self.release(station, r),
            Write::RaiseCount(r) => self.add_count(r, 1),
            Write::ClearTraceOfHeld(r) => self.update_record(r, |words| words.trace = false),
            Write::LowerCount(r) => self.add_count(r, -1),
            Write::SetDeleted(r) => self.update_record(r, |words| words.deleted = true),
            Write::ClearTraceOfListed(r) => self.update_record(r, |words| words.trace = false),
            Write::ClearDone(place) => self.update_place(
                station,
                place,
                |words| words.done = false,
            ),
            Write::FillPlace(place, r) => self.set_node(station, place, Some(r)),
            Write::SetTrace(r) => self.update_record(r, |words| words.trace = true),
            Write::EmptyPlace(place) => self.set_node(station, place, None),
            Write::SetDone(place) => self.update_place(station, place, |words| words.done = true),
            Write::AddClaim(lister, place) => self.update_place(lister, place, |words| {
                words.claims = words.claims.saturating_add(1);
            }),
            Write::DropClaim(lister, place) => self.update_place(lister, place, |words| {
                words.claims = words.claims.saturating_sub(1);
            }),
        }
    }

    // Does one access for the station, and answers what it found.
    pub fn perform(&mut self, station: Station, access: WordAccess) -> Found
        ensures found { result ≡ found_of (view self.old) station.number access }
        ensures after { view self.new ≡ after_of (view self.old) station.number access }
    {
        match access {
            WordAccess::Look(spot) => Found::Name(self.name_at(spot)),
            WordAccess::Swap(spot, old, new) => Found::Flag(self.swap(spot, old, new)),
            WordAccess::Overwrite(spot, new) => {
                self.set_name(spot, new);
                Found::Nothing
            }
            WordAccess::AskDeleted(r) => Found::Flag(self.record_words(r).deleted),
            WordAccess::AskPlace(lister, place) => Found::Name(self.node(lister, place)),
            WordAccess::AskDone(lister, place) => Found::Flag(self.place_words(lister, place).done),
            WordAccess::AskCount(r) => Found::Number(self.record_words(r).count),
            WordAccess::AskSlot(holder, slot) => Found::Name(self.slot(holder, slot)),
            WordAccess::AskTrace(r) => Found::Flag(self.record_words(r).trace),
            WordAccess::AskClaims(place) => {
                Found::Number(i16::from(self.place_words(station, place).claims))
            }
            WordAccess::Change(write) => {
                self.change(station, write);
                Found::Nothing
            }
        }
    }

    // The station's own slots. Only the station itself writes them, so it knows them without an access.
    pub fn own_slots(&self, station: Station) -> [Name; SLOTS]
        ensures { reads None result ≡ (view self.now).slots station.number }
    {
        row(&self.slots, station.number, None)
    }

    // What the station's own list places name, likewise.
    pub fn own_places(&self, station: Station) -> [Name; PLACES]
        ensures { reads None result ≡ (view self.now).places station.number }
    {
        row(&self.nodes, station.number, None)
    }

    // All none, zero and clear.
    #[tactic(auto, using(crate::proofs::Together::all_blank))]
    pub fn new() -> Memory
        ensures { view result ≡ blank }
    {
        Memory {
            roots: filled(None),
            records: filled(RecordWords::BLANK),
            slots: rows_filled(None),
            nodes: rows_filled(None),
            places: rows_filled(PlaceWords::BLANK),
        }
    }
}
