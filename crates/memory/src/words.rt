// The words of a record, a slot and a place, read and changed together. Past the last record, station, slot or place a read
// finds blank words and a change changes nothing.
// Those of a record and of a place stay two each: a record is found by one number and a place by two.
ghost use Rattle.std.specs.Prelude.{◌≡◌};
ghost use Rattle.std.specs.Fn.{FnOnceReturnsAtMut};
ghost use Rattle.memory.specs.declared.memory.RecordWords.{RecordWords as WordsOfRecord};
ghost use Rattle.memory.specs.declared.memory.PlaceWords.{PlaceWords as WordsOfPlace};
ghost use Rattle.memory.specs.Shared.{view, record_words, place_words, set_record_words, set_place_words, set_slot, set_place};

use crate::memory::*;
use terms::tables::*;
use terms::{Name, Place, Record, Slot, Station};

impl Memory {
    pub(crate) fn record_words(&self, r: Record) -> RecordWords
        ensures { result ≡ record_words self.now r.number }
    {
        word(&self.records, r.number, RecordWords::BLANK)
    }

    pub(crate) fn update_record<F: FnOnce(&mut RecordWords)>(&mut self, r: Record, update: F)
        requires { F.IsAlwaysCallable update }
        ensures { (after : WordsOfRecord) × FnOnceReturnsAtMut F.FnOnce update (record_words self.old r.number) tt after × (view self.new ≡ set_record_words (view self.old) r.number after) }
    {
        let mut words = self.record_words(r);
        update(&mut words);
        set_word(&mut self.records, r.number, words);
    }

    pub(crate) fn slot(&self, station: Station, slot: Slot) -> Name
        ensures { result ≡ (view self.now).slots station.number slot.index }
    {
        cell(&self.slots, station.number, slot.index, None)
    }

    pub(crate) fn set_slot(&mut self, station: Station, slot: Slot, name: Name)
        ensures { view self.new ≡ set_slot (view self.old) station.number slot.index name }
    {
        set_cell(&mut self.slots, station.number, slot.index, name);
    }

    pub(crate) fn node(&self, station: Station, place: Place) -> Name
        ensures { result ≡ (view self.now).places station.number place.index }
    {
        cell(&self.nodes, station.number, place.index, None)
    }

    pub(crate) fn set_node(&mut self, station: Station, place: Place, name: Name)
        ensures { view self.new ≡ set_place (view self.old) station.number place.index name }
    {
        set_cell(&mut self.nodes, station.number, place.index, name);
    }

    pub(crate) fn place_words(&self, station: Station, place: Place) -> PlaceWords
        ensures { result ≡ place_words self.now station.number place.index }
    {
        cell(&self.places, station.number, place.index, PlaceWords::BLANK)
    }

    pub(crate) fn update_place<F: FnOnce(&mut PlaceWords)>(
        &mut self,
        station: Station,
        place: Place,
        update: F,
    )
        requires { F.IsAlwaysCallable update }
        ensures { (after : WordsOfPlace) × FnOnceReturnsAtMut F.FnOnce update (place_words self.old station.number place.index) tt after × (view self.new ≡ set_place_words (view self.old) station.number place.index after) }
    {
        let mut words = self.place_words(station, place);
        update(&mut words);
        set_cell(&mut self.places, station.number, place.index, words);
    }
}
