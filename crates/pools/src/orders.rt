// What tells a stack from a ring: where a record that is given stands among those that wait.
ghost use Rattle.std.specs.Prelude.{◌≡◌, ◌<◌, ◌≤◌, if◌then◌else◌, MatchResult, nat_lt};
ghost use Rattle.pools.specs.Orders.{put_first, put_last};
ghost use Rattle.pools.specs.Waiting.{order_of};

use crate::pool::{OutOfPool, Pool};
use crate::ring::Ring;
use crate::stack::Stack;

// What a stack is given comes first.
pub fn give_first(stack: &mut Stack, node: u8) -> Result<(), OutOfPool>
    ensures answer { let size = ⟦<Stack as Pool>⟧.size stack.old in MatchResult result (λ _. node < size) (λ e. (size ≤ node) × (e.node ≡ node)) }
    ensures order { order_of stack.new ≡ (if nat_lt node (⟦<Stack as Pool>⟧.size stack.old) then put_first (order_of stack.old) node else order_of stack.old) }
{
    stack.give(node)
}

// What a ring is given comes last.
pub fn give_last(ring: &mut Ring, node: u8) -> Result<(), OutOfPool>
    ensures answer { let size = ⟦<Ring as Pool>⟧.size ring.old in MatchResult result (λ _. node < size) (λ e. (size ≤ node) × (e.node ≡ node)) }
    ensures order { order_of ring.new ≡ (if nat_lt node (⟦<Ring as Pool>⟧.size ring.old) then put_last (order_of ring.old) node else order_of ring.old) }
{
    ring.give(node)
}
