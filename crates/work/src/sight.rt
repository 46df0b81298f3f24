// What a station may look at without an access: the settings, the layout and its own slots.
use layouts::follow::Follow;
use memory::memory::SLOTS;
use settings::limits::Settings;
use terms::Name;

#[derive(Clone, Copy)]
pub struct Sight {
    pub settings: Settings,
    pub follow: Follow,
    pub slots: [Name; SLOTS],
}
