// Small parts of a station's private work: names, numbers, and its notes.
ghost use Rattle.std.specs.Prelude.{◌≡◌, ℕ, Bool, false, [], length, None};
ghost use Rattle.terms.specs.Words.{reads, lowest, is_none};
ghost use Rattle.work.specs.Plans.{entries_of, seen_of, pushed, saw, reached, head_of, free_slot, next_position, after_in_rows, sight_of, position};

use crate::notes::*;
use crate::sight::Sight;
use crate::work::{Entry, Reached};
use rooms::Room;
use terms::tables::*;
use terms::{Name, Position, Record, Slot, Station};

// The lowest index below `count` with no name, or `count` where all are taken.
// Kept a loop that yields its index by `break`, as our customer asked of the lowest empty slot; where none is, a write changes nothing.
pub(crate) fn lowest_empty(names: &[Name], count: u8) -> u8
    ensures { result ≡ lowest (λ i. is_none (reads None names.now i)) count }
{
    let mut i = 0;
    loop {
        let empty = word(names, i, None).is_none();
        if i >= count || empty {
            break i;
        }
        i += 1;
    }
}

impl Sight {
    // The lowest empty slot; where none is empty, their number.
    pub(crate) fn free_slot(&self) -> Slot
        ensures { result ≡ free_slot (sight_of self.now) }
    {
        Slot {
            index: lowest_empty(&self.slots, self.settings.slots),
        }
    }

    // The next position of a record; none behind the last one.
    pub(crate) fn next_position(&self, x: Position) -> Option<Position>
        ensures { result ≡ next_position (sight_of self.now) x }
    {
        let index = x.index.checked_add(1)?;
        (index < self.follow.positions).then_some(Position { index })
    }

    // What comes after an index where each station has a row of so many: the next of the row, or the first of the next
    // station's; none behind the last one of all.
    pub(crate) fn after(&self, station: Station, index: u8, each: u8) -> Option<(Station, u8)>
        ensures { result ≡ after_in_rows (sight_of self.now) station index each }
    {
        if index as u16 + 1 < each as u16 {
            Some((station, index + 1))
        } else if station.number as u16 + 1 < self.settings.stations as u16 {
            Some((
                Station {
                    number: station.number + 1,
                },
                0,
            ))
        } else {
            None
        }
    }

    // The position that follows another in the layout.
    pub(crate) fn following(&self, x: Position) -> Position
        ensures { result ≡ position ((sight_of self.now).follow x.index) }
    {
        Position {
            index: word(&self.follow.next, x.index, 0),
        }
    }
}

impl Entries {
    pub(crate) fn empty() -> Entries
        ensures { entries_of result ≡ [] }
    {
        Entries {
            entries: Room::new(),
        }
    }

    // One entry more, which is the head now. A full list stays as it is.
    pub(crate) fn push(&mut self, entry: Entry)
        ensures { entries_of self.new ≡ pushed (entries_of self.old) entry }
    {
        let _ = self.entries.push(entry);
    }

    pub(crate) fn count(&self) -> u8
        ensures { result ≡ length (entries_of self.now) }
    {
        self.entries.as_slice().len() as u8
    }

    // The entry that a walk from the head comes to where so many are left.
    pub(crate) fn reach(&self, left: u8) -> Option<Reached>
        ensures { result ≡ reached (entries_of self.now) left }
    {
        let left = left.checked_sub(1)?;
        let entry = self.entries.as_slice().get(left as usize).copied()?;
        Some(Reached { entry, left })
    }

    pub(crate) fn head(&self) -> Option<Reached>
        ensures { result ≡ head_of (entries_of self.now) }
    {
        self.reach(self.count())
    }
}

impl Seen {
    pub(crate) fn empty() -> Seen
        ensures { ◌≡◌ {A = ℕ → Bool} (seen_of result) (λ _. false) }
    {
        Seen {
            marks: filled(false),
        }
    }

    // A name that was found in a slot.
    pub(crate) fn see(&mut self, name: Name)
        ensures { seen_of self.new ≡ saw (seen_of self.old) name }
    {
        if let Some(r) = name {
            set_word(&mut self.marks, r.number, true);
        }
    }

    pub(crate) fn has(&self, r: Record) -> bool
        ensures { result ≡ seen_of self.now r.number }
    {
        word(&self.marks, r.number, false)
    }
}
