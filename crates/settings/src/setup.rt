// A whole SETUP line: its settings, and the kind and the pool that it names.
ghost use Rattle.settings.specs.Faults.{MakesSetup};
ghost use Rattle.settings.specs.Limits.{FirstFaultStands};

use crate::bytes::SetupByte;
use crate::choices::{KindChoice, PoolChoice};
use crate::limits::Settings;
use frames::SetupBytes;

#[derive(Clone, Copy, PartialEq, Eq, Debug)]
pub struct Setup {
    pub settings: Settings,
    pub kind: KindChoice,
    pub pool: PoolChoice,
}

// All that the line asks for, or the first byte of the eight at fault.
impl TryFrom<&SetupBytes> for Setup {
    type Error = SetupByte;

    ghost try_from_gives = { λ line r. MakesSetup line.now r };

    fn try_from(line: &SetupBytes) -> Result<Setup, SetupByte> {
        Ok(Setup {
            settings: line.try_into()?,
            kind: line.kind.try_into().map_err(|_| SetupByte::Kind)?,
            pool: line.pool.try_into().map_err(|_| SetupByte::Pool)?,
        })
    }
}

impl Setup {
    // The first fault of a line is a byte outside its limits, and every byte before it is within its own; where there
    // is no fault, every byte is.
    pub fn first_fault_stands()
        ensures { FirstFaultStands }
    {}
}
