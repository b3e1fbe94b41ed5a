// The entries of an unsigned column that a band selects.
ghost use Rattle.std.specs.Prelude.{◌≡◌, ◌≤◌};
ghost use Rattle.compare.specs.Range.{cut_of, next_of, flip_of, range_to, range_of, ranged, BoundedRange};

use crate::bands::Band;

// From low to low + span, or where flip is 255 all others.
#[derive(Clone, Copy)]
pub struct Range {
    pub low: u32,
    pub span: u32,
    pub flip: u8,
}

// How many of the numbers below 2^32 are below z.
fn cut(z: i64) -> u64
    ensures { result ≡ cut_of z }
{
    z.clamp(0, 4294967296) as u64
}

// How many of the numbers below 2^32 are at most z.
fn next(z: i64) -> u64
    ensures { result ≡ next_of z }
{
    cut(z.saturating_add(1))
}

fn flip_of(outside: bool) -> u8
    ensures { result ≡ flip_of outside }
{
    if outside { 255 } else { 0 }
}

// The entries from `from` on and below `to`; where there are none, the whole column with the flip turned.
pub fn range_to(from: u64, to: u64, outside: bool) -> Range
    requires { to ≤ 4294967296 }
    ensures { result ≡ range_to from to outside }
{
    if from < to {
        Range {
            low: from as u32,
            span: (to - from - 1) as u32,
            flip: flip_of(outside),
        }
    } else {
        Range {
            low: 0,
            span: u32::MAX,
            flip: flip_of(!outside),
        }
    }
}

pub fn range_of(band: Band) -> Range
    ensures { result ≡ range_of band }
{
    range_to(cut(band.low), next(band.high), band.outside)
}

// Does the range select an entry.
pub fn passes(range: Range, x: u32) -> bool
    requires { BoundedRange range }
    ensures { result ≡ ranged range x }
{
    (x.wrapping_sub(range.low) <= range.span) != (0 < range.flip)
}
