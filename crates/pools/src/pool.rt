// What a pool is: a set of record numbers, of which a take removes one and to which a give adds one.
ghost use Rattle.std.specs.Prelude.{◌≡◌, ℕ, ◌<◌, ◌≤◌, Bool, true, false, Some, None, Option, MatchResult};
ghost use Rattle.pools.specs.Sets.{numbers_below, without, given};

use settings::Settings;

// The answer to a give of a number that is no record of the table: nothing was added.
#[derive(Clone, Copy, PartialEq, Eq, Debug)]
pub struct OutOfPool {
    pub node: u8,
}

pub trait Pool: Sized {
    // which record numbers are in it
    ghost has: { Self → ℕ → Bool };

    // how many records the table has: only smaller numbers can be in the pool
    ghost size: { Self → ℕ };

    // the record that the next take answers, whichever the pool prefers
    ghost pick: { Self → Option ℕ };

    // A new pool has every record of the table.
    fn new(settings: &Settings) -> Self
        ensures full { has result ≡ numbers_below settings.now.records }
        ensures size { size result ≡ settings.now.records };

    // Answers its pick and takes it out; none exactly when the pool is empty.
    fn take(&mut self) -> Option<u8>
        ensures value { result ≡ pick self.old }
        ensures after { has self.new ≡ without (pick self.old) (has self.old) }
        ensures size { size self.new ≡ size self.old };

    // Adds a record of the table, which changes nothing for a member; refuses any other number.
    fn give(&mut self, node: u8) -> Result<(), OutOfPool>
        ensures answer { MatchResult result (λ _. node < size self.old) (λ e. (size self.old ≤ node) × (e.node ≡ node)) }
        ensures after { has self.new ≡ given (size self.old) node (has self.old) }
        ensures size { size self.new ≡ size self.old };

    // Whether a record is in the pool.
    fn contains(&self, node: u8) -> bool
        ensures value { result ≡ has self.now node };

    // it picks a member ..
    ghost picks: { (p : Self) (x : ℕ) → pick p ≡ Some x → has p x ≡ true };

    // .. and nothing only when it is empty
    ghost empty: { (p : Self) (x : ℕ) → pick p ≡ None → has p x ≡ false };

    ghost inside: { (p : Self) (x : ℕ) → has p x ≡ true → x < size p };

    ghost few: { (p : Self) → size p ≤ 128 };
}
