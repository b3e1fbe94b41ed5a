// Zigzag: even 2k is k, odd 2k + 1 is -k - 1.
ghost use Rattle.std.specs.Prelude.{◌≡◌};
ghost use Rattle.rules.specs.Signed.{zigzag, zigzag_of};

use crate::magnitudes::magnitude_of;

pub fn unzig(u: u64) -> i64
    ensures { result ≡ zigzag u }
{
    let half = (u / 2) as i64;
    if u % 2 == 0 { half } else { -half - 1 }
}

pub fn zig(z: i64) -> u64
    ensures { result ≡ zigzag_of z }
{
    let twice = 2 * magnitude_of(z);
    if z < 0 { twice + 1 } else { twice }
}
