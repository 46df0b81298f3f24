// A line of record numbers that wait to be taken. The lines of a stack and of a ring differ in where one that comes in stands.
ghost use Rattle.std.specs.Prelude.{◌≡◌, ℕ, ◌<◌, false, List, Option, length};
ghost use Rattle.std.specs.List.{range_with_len};
ghost use Rattle.pools.specs.Orders.{listed, front, rest};
ghost use Rattle.pools.specs.Joining.{Joins};

use settings::Settings;

pub(crate) trait Line: Sized {
    // the records that wait, in the order of the takes
    ghost order: { Self → List ℕ };

    // the order after a record has come in
    ghost joined: { List ℕ → ℕ → List ℕ };

    // Every record of the table, from 0 upward.
    fn new(settings: &Settings) -> Self
        ensures { order result ≡ range_with_len 0 settings.now.records };

    // Takes the first, if there is one.
    fn take(&mut self) -> Option<u8>
        ensures value { result ≡ front (order self.old) }
        ensures after { order self.new ≡ rest (order self.old) };

    // Lets in a record that does not wait yet.
    fn join(&mut self, node: u8)
        requires room { length (order self.old) < 128 }
        requires absent { listed (order self.old) node ≡ false }
        ensures { order self.new ≡ joined (order self.old) node };

    ghost joins: { Joins joined };
}
