// The places of a mask, a number of 64 bits: whether it has one, one alone, and going through them from the lowest on.
#![tactic(auto)]

ghost use Rattle.std.specs.Prelude.{◌≡◌, ◌-◌, ◌^◌, ◌<◌};
ghost use Rattle.std.specs.Int.Count.{count_trailing_zeros};
ghost use Rattle.bits.specs.inner.Bits.{bit_at};

// Whether place k is in a mask.
pub fn has(mask: u64, k: usize) -> bool
    requires { k < 64 }
    ensures { result ≡ bit_at mask k }
{
    (mask >> k) % 2 == 1
}

// The mask that has place k alone.
pub fn bit(k: usize) -> u64
    requires { k < 64 }
    ensures { result ≡ 2 ^ k }
{
    1u64 << k
}

// The lowest place of a mask that has one.
pub fn lowest(mask: u64) -> usize
    ensures { result ≡ count_trailing_zeros 64 mask }
{
    u64::trailing_zeros(mask) as usize
}

// The other places.
pub fn without_lowest(mask: u64) -> u64
    ensures { (mask ≡ 0 → ⊥) → result ≡ mask - 2 ^ count_trailing_zeros 64 mask }
{
    if mask == 0 {
        return 0;
    }
    mask & (mask - 1)
}
