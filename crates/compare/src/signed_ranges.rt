// The entries of a signed column that a band selects, as a range of raised ones.
ghost use Rattle.std.specs.Prelude.{◌≡◌};
ghost use Rattle.compare.specs.SignedRange.{signed_cut, signed_next, signed_range_of};

use crate::bands::Band;
use crate::ranges::{Range, range_to};

// How many signed numbers of 32 bits are below z.
fn cut(z: i64) -> u64
    ensures { result ≡ signed_cut 32 z }
{
    (z.clamp(-2147483648, 2147483648) + 2147483648) as u64
}

// How many signed numbers of 32 bits are at most z.
fn next(z: i64) -> u64
    ensures { result ≡ signed_next 32 z }
{
    cut(z.saturating_add(1))
}

pub fn signed_range_of(band: Band) -> Range
    ensures { result ≡ signed_range_of band }
{
    range_to(cut(band.low), next(band.high), band.outside)
}
