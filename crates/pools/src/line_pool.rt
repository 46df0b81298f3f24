// A pool whose members wait in a line, which a stack and a ring are.
ghost use Rattle.std.specs.Prelude.{◌≡◌, ℕ, ◌<◌, ◌≤◌, false, if◌then◌else◌, MatchResult, nat_lt};
ghost use Rattle.std.specs.List.{range_with_len};
ghost use Rattle.pools.specs.Sets.{numbers_below, without, given};
ghost use Rattle.pools.specs.Orders.{front, rest, marked, Kept};
ghost use Rattle.std.proofs.Common.{rules};

use crate::line::Line;
use crate::members::first_members;
use crate::pool::{OutOfPool, Pool};
use settings::Settings;

#[derive(Drop)]
pub struct LinePool<L: Line> {
    // the members, in the order of the takes
    line: L,
    // for each number, whether it is a member
    members: [bool; 128],
    // how many records the table has
    size: u8,
    ghost kept: { Kept (L.order line) members size },
}

impl<L: Line> Pool for LinePool<L> {
    ghost has = { λ p. marked p.members };

    ghost size = { λ p. p.size };

    ghost pick = { λ p. front (L.order p.line) };

    ghost picks = { Prim.search rules };

    ghost empty = { Prim.search rules };

    ghost inside = { Prim.search rules };

    ghost few = { Prim.search rules };

    fn new(settings: &Settings) -> Self
        ensures full { marked result.members ≡ numbers_below settings.now.records }
        ensures size { result.size ≡ settings.now.records }
        ensures order { L.order result.line ≡ range_with_len 0 settings.now.records }
    {
        LinePool {
            line: L::new(settings),
            members: first_members(settings.records),
            size: settings.records,
        }
    }

    fn take(&mut self) -> Option<u8>
        ensures value { result ≡ front (L.order self.old.line) }
        ensures after { marked self.new.members ≡ without (front (L.order self.old.line)) (marked self.old.members) }
        ensures size { self.new.size ≡ self.old.size }
        ensures order { L.order self.new.line ≡ rest (L.order self.old.line) }
    {
        let node = self.line.take()?;
        self.members[node as usize] = false;
        Some(node)
    }

    fn give(&mut self, node: u8) -> Result<(), OutOfPool>
        ensures answer { MatchResult result (λ _. node < self.old.size) (λ e. (self.old.size ≤ node) × (e.node ≡ node)) }
        ensures after { marked self.new.members ≡ given self.old.size node (marked self.old.members) }
        ensures size { self.new.size ≡ self.old.size }
        ensures order { L.order self.new.line ≡ (if nat_lt node self.old.size then L.joined (L.order self.old.line) node else L.order self.old.line) }
    {
        if node >= self.size {
            return Err(OutOfPool { node });
        }
        if !self.members[node as usize] {
            self.line.join(node);
            self.members[node as usize] = true;
        }
        Ok(())
    }

    fn contains(&self, node: u8) -> bool {
        node < self.size && self.members[node as usize]
    }
}
