// What holds of every pool, whatever it prefers.
ghost use Rattle.std.specs.Prelude.{◌≡◌, ◌≤◌, true, length, IfOk};
ghost use Rattle.pools.specs.Sets.{nothing, Takes};
ghost use Rattle.pools.specs.Orders.{listed, apart};
ghost use Rattle.pools.specs.Issues.{issued, IssuesAgain};

use crate::issued::Issued;
use crate::pool::{OutOfPool, Pool};
use rooms::Room;

// Takes one: a member, which is one no longer; or none, and then the pool was empty.
pub fn take_member<P: Pool>(pool: &mut P) -> Option<u8>
    ensures value { result ≡ P.Pool.pick pool.old }
    ensures takes { Takes (P.Pool.has pool.old) result (P.Pool.has pool.new) }
    ensures size { P.Pool.size pool.new ≡ P.Pool.size pool.old }
{
    pool.take()
}

// Takes until none is left: each member is issued exactly once, and nothing else is.
pub fn drain<P: Pool>(pool: &mut P) -> Issued
    ensures once { apart (issued result) ≡ true }
    ensures few { length (issued result) ≤ 128 }
    ensures all { listed (issued result) ≡ P.Pool.has pool.old }
    ensures empty { P.Pool.has pool.new ≡ nothing }
    ensures size { P.Pool.size pool.new ≡ P.Pool.size pool.old }
{
    let mut nodes = Room::new();
    while let Some(node) = pool.take() {
        nodes.push(node).unwrap();
    }
    Issued { nodes }
}

// What is given is issued again: gives a record and then takes until none is left.
pub fn give_and_drain<P: Pool>(pool: &mut P, node: u8) -> Result<Issued, OutOfPool>
    ensures again { IssuesAgain (P.Pool.size pool.old) node (P.Pool.has pool.old) result (P.Pool.has pool.new) }
    ensures few { IfOk result (λ nodes. length (issued nodes) ≤ 128) }
    ensures size { P.Pool.size pool.new ≡ P.Pool.size pool.old }
{
    pool.give(node)?;
    Ok(drain(pool))
}
