//! Hashes of births.
ghost use Rattle.std.specs.Prelude.{◌≡◌};
ghost use Rattle.intern_buckets.specs.Mixed.{mixed};

// Half of the bits of the golden ratio.
const FACTOR: u64 = 0x9E37_79B9_7F4A_7C15;

/// The hash of a birth. Births themselves follow one another, and would fill neighbouring buckets.
pub fn mix(birth: u64) -> u64
    ensures { result ≡ mixed birth }
{
    birth.wrapping_mul(FACTOR)
}
