// A group of 64 entries against a band.
ghost use Rattle.std.specs.Prelude.{◌≡◌, ◌≤◌, pos, length};
ghost use Rattle.rules.specs.Bits.{word};
ghost use Rattle.rules.specs.Comparison.{between};
ghost use Rattle.rules.specs.Vertical.{lane};

use crate::ends::{start, step};

// The lanes from low to high with both ends: the planes of one group in, the 64 bits out.
pub fn compare_group(planes: &[u64], low: i64, high: i64) -> u64
    requires { length planes.now ≤ 32 }
    ensures { result
        ≡ word 64
        (λ j. between low high (pos (lane planes.now 0 (length planes.now) j))) }
{
    let mut lower = start(low, planes.len());
    let mut upper = start(high, planes.len());
    for (i, plane) in planes.iter().enumerate() {
        let left = planes.len() - 1 - i;
        lower = step(lower, *plane, left);
        upper = step(upper, *plane, left);
    }
    !lower.less & (upper.less | upper.undecided)
}
