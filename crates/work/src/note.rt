// A station's notes, and a change of them.
ghost use Rattle.std.specs.Prelude.{◌≡◌, ◌≤◌, length};
ghost use Rattle.work.specs.Plans.{entries_of, notes_of, kept_too, with_note, noted, no_notes};

use crate::notes::*;
use crate::work::Entry;

impl Entries {
    // The entry, if there is one, becomes the head.
    fn push_if(&mut self, entry: Option<Entry>)
        ensures { entries_of self.new ≡ kept_too (entries_of self.old) entry }
    {
        if let Some(entry) = entry {
            self.push(entry);
        }
    }
}

impl Notes {
    // A new station's.
    pub fn new() -> Notes
        ensures { notes_of result ≡ no_notes }
    {
        Notes {
            list: Entries::empty(),
            kept: Entries::empty(),
            seen: Seen::empty(),
        }
    }

    // The records that it withdrew and did not give back yet, the head last.
    pub fn list(&self) -> &[Entry]
        ensures value { result.now ≡ (notes_of self.now).list }
        ensures few { length result.now ≤ 64 }
    {
        self.list.entries.as_slice()
    }

    // What a SCAN kept, perhaps with one entry more, is the list now.
    fn close(&mut self, last: Option<Entry>)
        ensures { notes_of self.new ≡ with_note (notes_of self.old) (Note.Close last) }
    {
        self.list = self.kept;
        self.list.push_if(last);
        self.kept = Entries::empty();
        self.seen = Seen::empty();
    }

    fn make(&mut self, note: Note)
        ensures { notes_of self.new ≡ with_note (notes_of self.old) note }
    {
        match note {
            Note::Push(entry) => self.list.push(entry),
            Note::See(name) => self.seen.see(name),
            Note::Keep(entry) => self.kept.push(entry),
            Note::Close(last) => self.close(last),
        }
    }

    // The change, if there is one.
    pub(crate) fn note(&mut self, note: Option<Note>)
        ensures { notes_of self.new ≡ noted (notes_of self.old) note }
    {
        if let Some(note) = note {
            self.make(note);
        }
    }
}
