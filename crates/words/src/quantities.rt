// Quantities in words.
ghost use Rattle.std.specs.Prelude.{Some};
ghost use Rattle.words.specs.Quantities.{byte_count};

use std::fmt;

// A number of bytes: 1 byte, 6 bytes.
#[derive(Clone, Copy, PartialEq, Eq, Debug)]
pub struct ByteCount(pub usize);

impl fmt::Display for ByteCount {
    ghost output = { λ n. Some (byte_count n.0) };

    fn fmt<W: fmt::Write>(&self, f: &mut fmt::Formatter<W>) -> fmt::Result {
        match self.0 {
            1 => write!(f, "1 byte"),
            count => write!(f, "{count} bytes"),
        }
    }
}
