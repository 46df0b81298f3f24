// A pool that issues the latest given first.
ghost use Rattle.std.specs.Prelude.{◌≡◌};

use crate::line::Line;
use crate::line_pool::LinePool;
use rooms::Room;
use settings::Settings;

pub type Stack = LinePool<LatestFirst>;

#[derive(Drop)]
pub struct LatestFirst {
    // the next to be taken lies last
    items: Room<u8, 128>,
}

impl Line for LatestFirst {
    ghost use Rattle.pools.specs.Orders.{put_first};
    ghost use Rattle.pools.specs.Joining.{put_first_joins};
    ghost use Rattle.pools.specs.Stacks.{latest_first};

    ghost order = { latest_first };

    ghost joined = { put_first };

    ghost joins = { put_first_joins };

    fn new(settings: &Settings) -> LatestFirst {
        let records = settings.records;
        let mut items = [0; 128];
        for k in 0..records {
            items[k as usize] = records - 1 - k;
        }
        // Written by index and not pushed: a push looks for a place each time, which takes fourteen times as long.
        let items = Room::first_of(items, records as usize);
        LatestFirst { items }
    }

    fn take(&mut self) -> Option<u8> {
        self.items.pop()
    }

    fn join(&mut self, node: u8) {
        self.items.push(node).unwrap();
    }
}
