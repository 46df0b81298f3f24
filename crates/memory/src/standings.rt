// Each record's standing, and how it follows the accesses. It is kept for the refusals; no step decides by it.
ghost use Rattle.std.specs.Prelude.{◌≡◌, ℕ};
ghost use Rattle.terms.specs.declared.Standing.{Standing as Standingt};
ghost use Rattle.terms.specs.declared.Standing.TheVariants.{Pooled as pooled, Retired as retired};
ghost use Rattle.memory.specs.Standings.{standings, set_standing, named, taken, standing_word, standing_after};

use crate::access::{Access, Found, WordAccess};
use crate::memory::RECORDS;
use terms::tables::*;
use terms::{Name, Record, Standing};

// Clauses speak of `standings` of it: an `impl Model` was tried, and a model's value cannot be a function from numbers.
#[derive(Clone, Copy)]
pub struct Standings {
    pub(crate) standings: [Standing; RECORDS],
}

impl Standings {
    // Every record is pooled.
    pub fn new() -> Standings
        ensures { ◌≡◌ {A = ℕ → Standingt} (standings result) (λ _. pooled) }
    {
        Standings {
            standings: filled(Standing::Pooled),
        }
    }

    pub fn of(&self, r: Record) -> Standing
        ensures { result ≡ standings self.now r.number }
    {
        word(&self.standings, r.number, Standing::Pooled)
    }

    fn set(&mut self, r: Record, standing: Standing)
        ensures { standings self.new ≡ set_standing (standings self.old) r.number standing }
    {
        set_word(&mut self.standings, r.number, standing);
    }

    // A DELETE of the record begins.
    pub fn retire(&mut self, r: Record)
        ensures { standings self.new ≡ set_standing (standings self.old) r.number retired }
    {
        self.set(r, Standing::Retired);
    }

    // A spot was made to name what the name says.
    #[tactic(auto, using(crate::proofs::Named::named_kept))]
    fn name(&mut self, name: Name)
        ensures { standings self.new ≡ named (standings self.old) name }
    {
        if let Some(r) = name
            && self.of(r) == Standing::Fresh
        {
            self.set(r, Standing::Linked);
        }
    }

    fn take(&mut self, name: Name)
        ensures { standings self.new ≡ taken (standings self.old) name }
    {
        if let Some(r) = name {
            self.set(r, Standing::Fresh);
        }
    }

    fn word(&mut self, access: WordAccess, found: Found)
        ensures { standings self.new ≡ standing_word (standings self.old) access found }
    {
        match access {
            WordAccess::Swap(_, _, new) if found.flag() => self.name(new),
            WordAccess::Overwrite(_, new) => self.name(new),
            _ => {}
        }
    }

    // An access was made, and found this.
    pub fn follow(&mut self, access: Access, found: Found)
        ensures { standings self.new ≡ standing_after (standings self.old) access found }
    {
        match access {
            Access::Take => self.take(found.name()),
            Access::Give(r) => self.set(r, Standing::Pooled),
            Access::Word(access) => self.word(access, found),
        }
    }
}
