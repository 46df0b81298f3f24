// What an access found, read as what the station asked for.
ghost use Rattle.std.specs.Prelude.{◌≡◌};
ghost use Rattle.memory.specs.Found.{name_in, flag_in, zero_in};

use crate::access::Found;
use terms::Name;

impl Found {
    // The name that was found; none where the access found no name.
    pub fn name(self) -> Name
        ensures { result ≡ name_in self }
    {
        match self {
            Found::Name(v) => v,
            _ => None,
        }
    }

    // The mark, or whether a swap wrote.
    pub fn flag(self) -> bool
        ensures { result ≡ flag_in self }
    {
        match self {
            Found::Flag(b) => b,
            _ => false,
        }
    }

    // Whether a number was found and is 0.
    pub fn is_zero(self) -> bool
        ensures { result ≡ zero_in self }
    {
        match self {
            Found::Number(n) => n == 0,
            _ => false,
        }
    }
}
