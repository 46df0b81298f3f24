// The settings of a table. The type keeps every limit, so no later code tests a setting again.
ghost use Rattle.std.specs.Prelude.{◌≤◌};

use crate::bytes::{SetupByte, checked};
use frames::SetupBytes;

// Kept pairs of numbers: a range as the value of a constant is not supported, and a struct of two numbers would be a range by hand.
pub const MIN_STATIONS: u8 = 1;

pub const MAX_STATIONS: u8 = 8;

pub const MIN_SLOTS: u8 = 2;

pub const MAX_SLOTS: u8 = 8;

pub const MIN_RECORDS: u8 = 1;

pub const MAX_RECORDS: u8 = 128;

pub const MIN_ROOTS: u8 = 1;

pub const MAX_ROOTS: u8 = 16;

pub const MIN_THRESHOLD: u8 = 1;

pub const MAX_THRESHOLD: u8 = 64;

#[derive(Clone, Copy, PartialEq, Eq, Debug)]
pub struct Settings {
    // how many stations work on the table
    pub stations: u8,
    // how many slots each station has
    pub slots: u8,
    // how many records the table has
    pub records: u8,
    // how many roots it has
    pub roots: u8,
    // how many places a station's list has
    pub t1: u8,
    // the length from which on a station's list is scanned
    pub t2: u8,
    ghost stations_in: { (1 ≤ stations) × (stations ≤ 8) },
    ghost slots_in: { (2 ≤ slots) × (slots ≤ 8) },
    ghost records_in: { (1 ≤ records) × (records ≤ 128) },
    ghost roots_in: { (1 ≤ roots) × (roots ≤ 16) },
    ghost t1_in: { (1 ≤ t1) × (t1 ≤ 64) },
    ghost t2_in: { (1 ≤ t2) × (t2 ≤ t1) },
}

// The settings in the first six bytes, or the first byte outside its limits.
impl TryFrom<&SetupBytes> for Settings {
    ghost use Rattle.settings.specs.Faults.{MakesSettings};

    type Error = SetupByte;

    ghost try_from_gives = { λ line r. MakesSettings line.now r };

    fn try_from(line: &SetupBytes) -> Result<Settings, SetupByte> {
        Ok(Settings {
            stations: checked(
                line.stations,
                MIN_STATIONS..=MAX_STATIONS,
                SetupByte::Stations,
            )?,
            slots: checked(line.slots, MIN_SLOTS..=MAX_SLOTS, SetupByte::Slots)?,
            records: checked(line.records, MIN_RECORDS..=MAX_RECORDS, SetupByte::Records)?,
            roots: checked(line.roots, MIN_ROOTS..=MAX_ROOTS, SetupByte::Roots)?,
            t1: checked(line.t1, MIN_THRESHOLD..=MAX_THRESHOLD, SetupByte::T1)?,
            t2: checked(line.t2, MIN_THRESHOLD..=line.t1, SetupByte::T2)?,
        })
    }
}

impl Settings {
    ghost use Rattle.settings.specs.Limits.{WithinLimits};

    // Every settings value lies within the limits, wherever it came from.
    pub fn limits_stand(&self)
        ensures { WithinLimits self.now }
    {}
}
