// A layout as plain data, for code that is written once for every layout.
ghost use Rattle.std.specs.Prelude.{◌≡◌, ℕ, ◌<◌, ◌≤◌, slice_index};
ghost use Rattle.layouts.specs.Positions.{following_of};

use crate::layout::Layout;
use std::array;

#[derive(Clone, Copy, PartialEq, Eq, Debug)]
pub struct Follow {
    // how many link positions a record has
    pub positions: u8,
    // for each position the one that follows it; 0 past the last
    // Kept an array beside a number: past the last position it reads as 0, where a vector of the positions alone has nothing.
    pub next: [u8; 4],
    ghost some: { 1 ≤ positions },
    ghost few: { positions ≤ 4 },
    ghost inside: { (x : ℕ) → x < positions → slice_index next x < positions },
}

// The table of a layout: nothing of it is lost or added.
pub fn follows<L: Layout>() -> Follow
    ensures positions { result.positions ≡ L.Layout.positions }
    ensures next { (x : ℕ) → x < L.Layout.positions → slice_index result.next x ≡ L.Layout.follow x }
    ensures past { (x : ℕ) → L.Layout.positions ≤ x → slice_index result.next x ≡ 0 }
{
    Follow {
        positions: L::positions(),
        next: array::from_fn(|x| L::follow(x as u8).unwrap_or(0)),
    }
}

impl Follow {
    // The position that follows `x`; none where `x` is no position.
    pub fn after(&self, x: u8) -> Option<u8>
        ensures value { result ≡ following_of self.now.positions (λ y. slice_index self.now.next y) x }
    {
        let next = &self.next[..self.positions as usize];
        next.get(x as usize).copied()
    }
}
