// Both pools beside a list of the members, the next to be taken first, over many mixed calls.
use frames::SetupBytes;
use pools::{Pool, Ring, Stack, drain};
use settings::{Settings, SetupByte};
use std::alloc::{AllocFailed, Global};
use std::collections::VecDeque;
use std::process::Abort;
use std::test::Fail;

// Numbers that look random, always the same.
fn draw(seed: u32) -> u32 {
    seed.wrapping_mul(1664525).wrapping_add(1013904223)
}

pub(crate) fn settings_of(records: u8) -> Result<Settings, SetupByte> {
    let line = SetupBytes {
        stations: 1,
        slots: 2,
        records,
        roots: 1,
        t1: 1,
        t2: 1,
        kind: 0,
        pool: 0,
    };
    Settings::try_from(&line)
}

// One call on a pool and on the list, which answer alike. `put` puts a record that is given where it belongs in the list.
fn call<P: Pool, F: Fn(&mut VecDeque<u8>, u8) -> Result<(), AllocFailed<u8>>>(
    rt: &impl Abort,
    pool: &mut P,
    list: &mut VecDeque<u8>,
    seed: u32,
    records: u8,
    put: &F,
) -> Result<(), Fail>
    requires { F.IsAlwaysCallable put.now }
{
    let node = ((seed >> 16) & 0x7f) as u8;
    if seed >> 31 == 0 {
        assert_eq!(rt; pool.take(), list.pop_front());
    } else {
        assert_eq!(rt; pool.give(node).is_ok(), node < records);
        if node < records && !list.contains(&node) {
            put(list, node)?;
        }
    }
    assert_eq!(rt; pool.contains(node), list.contains(&node));
    Ok(())
}

// What is left in the pool comes out in the order of the list.
fn empty<P: Pool>(rt: &impl Abort, pool: &mut P, list: &mut VecDeque<u8>) {
    let issued = drain(pool);
    for &node in issued.nodes.as_slice() {
        assert_eq!(rt; Some(node), list.pop_front());
    }
    assert!(rt; list.is_empty());
}

fn compare<P: Pool + Drop, F: Fn(&mut VecDeque<u8>, u8) -> Result<(), AllocFailed<u8>>>(
    rt: &impl Abort,
    heap: Global,
    records: u8,
    calls: u32,
    put: F,
) -> Result<(), Fail>
    requires { F.IsAlwaysCallable put }
{
    let mut pool = P::new(&settings_of(records)?);
    let mut list = (0..records).collect::<VecDeque<u8>>(heap)?;
    let mut seed = 1;
    for _ in 0..calls {
        seed = draw(seed);
        call(rt, &mut pool, &mut list, seed, records, &put)?;
    }
    empty(rt, &mut pool, &mut list);
    Ok(())
}

#[test]
fn stacks(rt: HostRuntime) -> Result<(), Fail> {
    let latest_first = |list: &mut VecDeque<u8>, node| list.push_front(node);
    compare::<Stack, _>(&rt, rt.alloc(), 1, 50, latest_first)?;
    compare::<Stack, _>(&rt, rt.alloc(), 7, 400, latest_first)?;
    compare::<Stack, _>(&rt, rt.alloc(), 128, 600, latest_first)
}

#[test]
fn rings(rt: HostRuntime) -> Result<(), Fail> {
    let longest_rested_first = |list: &mut VecDeque<u8>, node| list.push_back(node);
    compare::<Ring, _>(&rt, rt.alloc(), 1, 50, longest_rested_first)?;
    compare::<Ring, _>(&rt, rt.alloc(), 7, 400, longest_rested_first)?;
    compare::<Ring, _>(&rt, rt.alloc(), 128, 600, longest_rested_first)
}
