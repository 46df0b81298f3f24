// The bytes of a SETUP line, by name.
ghost use Rattle.std.specs.Prelude.{◌≡◌, ◌≤◌, Some, false, IfOk};
ghost use Rattle.std.specs.Range.{range_inclusive_start, range_inclusive_end, range_inclusive_exhausted};
ghost use Rattle.settings.specs.Bytes.{place_of, words_of};
ghost use Rattle.settings.specs.Faults.{Checks};

use std::fmt;
use std::ops::RangeInclusive;

#[derive(Clone, Copy, PartialEq, Eq, Debug)]
pub enum SetupByte {
    Stations = 1,
    Slots = 2,
    Records = 3,
    Roots = 4,
    T1 = 5,
    T2 = 6,
    Kind = 7,
    Pool = 8,
}

impl SetupByte {
    // Its place in the line; the byte at place 0 says that the line is a SETUP.
    // A method: `u8::from` would read as the value of the byte.
    pub fn place(self) -> u8
        ensures { result ≡ place_of self }
    {
        self as u8
    }

    // What a good byte at its place is, in words. A method beside `Display`, which writes just this: a caller may want the text itself.
    pub fn words(self) -> &'static str
        ensures { result.now ≡ words_of self }
    {
        match self {
            SetupByte::Stations => "stations must be 1 to 8",
            SetupByte::Slots => "slots a station must be 2 to 8",
            SetupByte::Records => "records must be 1 to 128",
            SetupByte::Roots => "roots must be 1 to 16",
            SetupByte::T1 => "T1 must be 1 to 64",
            SetupByte::T2 => "T2 must be 1 to T1",
            SetupByte::Kind => "kind must be 00 or 01",
            SetupByte::Pool => "pool must be 00 or 01",
        }
    }
}

impl fmt::Display for SetupByte {
    ghost output = { λ b. Some (words_of b) };

    fn fmt<W: fmt::Write>(&self, f: &mut fmt::Formatter<W>) -> fmt::Result {
        f.write_str(self.words())
    }
}

// `value` itself where it lies within the limits; else the byte is at fault.
pub(crate) fn checked(
    value: u8,
    limits: RangeInclusive<u8>,
    byte: SetupByte,
) -> Result<u8, SetupByte>
    ensures value { range_inclusive_exhausted limits ≡ false → Checks value (range_inclusive_start limits) (range_inclusive_end limits) byte result }
    ensures within { IfOk result (λ v. (range_inclusive_start limits ≤ v) × (v ≤ range_inclusive_end limits)) }
{
    if limits.contains(&value) {
        Ok(value)
    } else {
        Err(byte)
    }
}
