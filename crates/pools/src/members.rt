// The marks of a new pool's members.
ghost use Rattle.std.specs.Prelude.{◌≡◌, ◌≤◌, length};
ghost use Rattle.pools.specs.Sets.{numbers_below};
ghost use Rattle.pools.specs.Orders.{marked};

// The numbers below `records` are marked, and no other.
pub(crate) fn first_members(records: u8) -> [bool; 128]
    requires { records ≤ 128 }
    ensures marks { marked result ≡ numbers_below records }
    ensures len { length result ≡ 128 }
{
    let mut members = [false; 128];
    members[..records as usize].fill(true);
    members
}
