// A signed number without its sign.
ghost use Rattle.std.specs.Prelude.{◌≡◌};
ghost use Rattle.std.specs.Int.Signed.{mag};

// z, or where it is negative -z - 1, which fits for the least number too.
pub fn magnitude_of(z: i64) -> u64
    ensures { result ≡ mag z }
{
    if z < 0 { !z as u64 } else { z as u64 }
}
