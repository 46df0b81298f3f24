// The orders of a stack and of a ring as a caller says them: in `stack_order` and `ring_order`.
ghost use Rattle.std.specs.Prelude.{◌≡◌, if◌then◌else◌, nat_lt};
ghost use Rattle.pools.specs.Orders.{front, rest, put_first, put_last};
ghost use Rattle.pools.specs.Stacks.{stack_order};
ghost use Rattle.pools.specs.Rings.{ring_order};

use crate::lists::settings_of;
use pools::{OutOfPool, Pool, Ring, Stack, give_first, give_last};
use std::test::Fail;

fn latest(stack: &mut Stack) -> Option<u8>
    ensures value { result ≡ front (stack_order stack.old) }
    ensures order { stack_order stack.new ≡ rest (stack_order stack.old) }
{
    stack.take()
}

fn given_to_stack(stack: &mut Stack, node: u8) -> Result<(), OutOfPool>
    ensures order { stack_order stack.new ≡ (if nat_lt node (⟦<Stack as Pool>⟧.size stack.old) then put_first (stack_order stack.old) node else stack_order stack.old) }
{
    give_first(stack, node)
}

fn longest_rested(ring: &mut Ring) -> Option<u8>
    ensures value { result ≡ front (ring_order ring.old) }
    ensures order { ring_order ring.new ≡ rest (ring_order ring.old) }
{
    ring.take()
}

fn given_to_ring(ring: &mut Ring, node: u8) -> Result<(), OutOfPool>
    ensures order { ring_order ring.new ≡ (if nat_lt node (⟦<Ring as Pool>⟧.size ring.old) then put_last (ring_order ring.old) node else ring_order ring.old) }
{
    give_last(ring, node)
}

#[test]
fn a_stack_gives_back_the_latest(rt: HostRuntime) -> Result<(), Fail> {
    let mut stack = Stack::new(&settings_of(3)?);
    assert_eq!(&rt; latest(&mut stack), Some(0));
    assert_eq!(&rt; latest(&mut stack), Some(1));
    assert!(&rt; given_to_stack(&mut stack, 0).is_ok());
    assert_eq!(&rt; given_to_stack(&mut stack, 3), Err(OutOfPool { node: 3 }));
    assert_eq!(&rt; latest(&mut stack), Some(0));
    assert_eq!(&rt; latest(&mut stack), Some(2));
    assert_eq!(&rt; latest(&mut stack), None);
    Ok(())
}

#[test]
fn a_ring_gives_back_the_longest_rested(rt: HostRuntime) -> Result<(), Fail> {
    let mut ring = Ring::new(&settings_of(3)?);
    assert_eq!(&rt; longest_rested(&mut ring), Some(0));
    assert_eq!(&rt; longest_rested(&mut ring), Some(1));
    assert!(&rt; given_to_ring(&mut ring, 0).is_ok());
    assert_eq!(&rt; given_to_ring(&mut ring, 3), Err(OutOfPool { node: 3 }));
    assert_eq!(&rt; longest_rested(&mut ring), Some(2));
    assert_eq!(&rt; longest_rested(&mut ring), Some(0));
    assert_eq!(&rt; longest_rested(&mut ring), None);
    Ok(())
}
