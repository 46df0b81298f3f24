// A pool that issues the longest rested first.
ghost use Rattle.std.specs.Prelude.{◌≡◌, ◌<◌, ◌≤◌};

use crate::line::Line;
use crate::line_pool::LinePool;
use settings::Settings;
use std::array;

pub type Ring = LinePool<LongestRestedFirst>;

const PLACES: u8 = 128;

#[derive(Drop)]
pub struct LongestRestedFirst {
    // from `head` on and past the end to the start; the next to be taken lies at `head`
    // its own buffer and length: a take costs the same whatever the number of records, where a `Room` would have to move all but the first
    items: [u8; 128],
    head: u8,
    len: u8,
    ghost within: { head < 128 },
    ghost few: { len ≤ 128 },
}

impl Line for LongestRestedFirst {
    ghost use Rattle.pools.specs.Orders.{put_last};
    ghost use Rattle.pools.specs.Joining.{put_last_joins};
    ghost use Rattle.pools.specs.Rings.{longest_rested_first};

    ghost order = { longest_rested_first };

    ghost joined = { put_last };

    ghost joins = { put_last_joins };

    fn new(settings: &Settings) -> LongestRestedFirst {
        LongestRestedFirst {
            items: array::from_fn(|place| place as u8),
            head: 0,
            len: settings.records,
        }
    }

    fn take(&mut self) -> Option<u8> {
        if self.len == 0 {
            return None;
        }
        let node = self.items[self.head as usize];
        self.head = (self.head + 1) % PLACES;
        self.len -= 1;
        Some(node)
    }

    fn join(&mut self, node: u8) {
        let place = (self.head + self.len) % PLACES;
        self.items[place as usize] = node;
        self.len += 1;
    }
}
