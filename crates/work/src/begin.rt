// The beginning of each operation.
ghost use Rattle.std.specs.Prelude.{◌≡◌, None};
ghost use Rattle.terms.specs.Words.{reads};
ghost use Rattle.work.specs.Plans.{plan_of, sight_of, notes_of, noted};
ghost use Rattle.work.specs.Steps.{begin_of, delete_of, free_place};

use crate::known::Known;
use crate::notes::{Note, Notes};
use crate::parts::lowest_empty;
use crate::sight::Sight;
use crate::work::*;
use memory::access::Write;
use terms::{Name, Operation, Outcome, Place, Record, Spot};

impl Sight {
    // The lowest empty list place; where none is empty, their number.
    fn free_place(&self, places: &[Name]) -> Place
        ensures { result ≡ free_place (sight_of self.now) (reads None places.now) }
    {
        Place {
            index: lowest_empty(places, self.settings.t1),
        }
    }
}

// DELETE: the record becomes the head of the list, at an empty place.
// What it sees and its notes stay two parameters: the notes are written before they are read as what is known.
fn delete(r: Record, place: Place, sight: &Sight, notes: &mut Notes) -> Work
    ensures work { plan_of result ≡ (delete_of r place (sight_of sight.now) (notes_of notes.old)).does }
    ensures notes { notes_of notes.new ≡ noted (notes_of notes.old) (delete_of r place (sight_of sight.now) (notes_of notes.old)).note }
{
    notes.note(Some(Note::Push(Entry { place, node: r })));
    Work {
        owed: Owed::deleted(r, place),
        point: Known { sight, notes }.round(),
    }
}

impl Work {
    // The work of an operation that begins, given what the station's own list places name.
    pub fn begin(operation: Operation, sight: &Sight, places: &[Name], notes: &mut Notes) -> Work
        ensures work { plan_of result ≡ (begin_of operation (sight_of sight.now) (reads None places.now) (notes_of notes.old)).does }
        ensures notes { notes_of notes.new ≡ noted (notes_of notes.old) (begin_of operation (sight_of sight.now) (reads None places.now) (notes_of notes.old)).note }
    {
        match operation {
            Operation::New => Work::only(Point::Take),
            Operation::Deref(spot) => Work::only(Point::Look(spot, AfterLook::Answer)),
            Operation::Release(r) => Work {
                owed: Owed::One(Write::Release(r)),
                point: Point::End(Outcome::Done),
            },
            Operation::Cas(spot, old, new) => Work::only(Point::Swap(
                spot,
                old,
                new,
                AfterSwap::Answer,
            )),
            Operation::Store(r, x, new) => {
                Work::only(Point::Save(Spot::Link(r, x), new, AfterStore::Answer))
            }
            Operation::Delete(r) => delete(r, sight.free_place(places), sight, notes),
        }
    }
}
