// Entries and deltas as unsigned numbers of 32 bits: modulo 2^32, and zigzag.
ghost use Rattle.std.specs.Prelude.{◌≡◌};
ghost use Rattle.rules.specs.Signed.{modulo, zigzag_of};

use signed::wrapping::kept32;
use signed::zigzag::zig;

pub fn kept(z: i32) -> u32
    ensures { result ≡ modulo 32 z }
{
    kept32(z as i64)
}

pub fn zigzag(z: i32) -> u32
    ensures { result ≡ zigzag_of z }
{
    zig(z as i64) as u32
}
