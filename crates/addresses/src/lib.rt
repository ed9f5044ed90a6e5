// Where a load or a store goes: the exact sum of a register and a displacement (document 02, K5), on numbers of 64 bits.
#![tactic(auto)]

ghost use Rattle.std.specs.Prelude.{◌≡◌};
ghost use Rattle.addresses.specs.Addresses.{address_of, access_at};

// A sum of 2^64 or more is the address of no word.
pub fn address(base: u64, w: u32) -> Option<u64>
    ensures { result ≡ access_at (address_of base w) }
{
    base.checked_add(u64::from(w))
}
