// Signed numbers kept as unsigned ones of 32 bits, which wrap.
ghost use Rattle.std.specs.Prelude.{◌≡◌};
ghost use Rattle.rules.specs.Signed.{modulo, signed};
ghost use Rattle.signed.specs.Raised.{raised};

// z modulo 2^32.
pub fn kept32(z: i64) -> u32
    ensures { result ≡ modulo 32 z }
{
    (z.cast_unsigned() % 4294967296) as u32
}

// The signed number that is kept as x.
pub fn signed32(x: u32) -> i32
    ensures { result ≡ signed 32 x }
{
    x.cast_signed()
}

// How many signed numbers of 32 bits are below z, where z is one.
pub fn raised32(z: i64) -> u32
    ensures { result ≡ raised 32 z }
{
    kept32(z).wrapping_add(2147483648)
}
