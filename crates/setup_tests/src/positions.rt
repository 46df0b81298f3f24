// The positions of both layouts, and the tables made from them.
use layouts::{Book, Chain, Follow, follows};
use std::process::Abort;

fn expect(rt: &impl Abort, table: Follow, after: [Option<u8>; 5]) {
    for (x, wanted) in (0..).zip(after) {
        assert_eq!(rt; table.after(x), wanted);
    }
}

#[test]
fn chain(rt: HostRuntime) {
    expect(&rt, follows::<Chain>(), [Some(0), None, None, None, None]);
}

#[test]
fn book(rt: HostRuntime) {
    expect(
        &rt,
        follows::<Book>(),
        [Some(0), Some(2), Some(2), None, None],
    );
}
