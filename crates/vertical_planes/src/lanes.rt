// The lanes of one group against a band, plane by plane, the highest first.
ghost use Rattle.std.specs.Prelude.{◌≡◌, ◌≤◌, ◌<◌, length};
ghost use Rattle.vertical_planes.specs.Standing.{stepped, Standing, StandsFor};

use crate::ends::{Ends, start};

// How the 64 lanes stand to a band after the planes taken: undecided against one of its ends, of these against the
// high one where `upper` has a bit, and known to be outside.
#[derive(Clone, Copy)]
pub struct Lanes {
    pub undecided: u64,
    pub upper: u64,
    pub outside: u64,
    pub taken: usize,
}

// One plane more where the ends have parted, each undecided lane against its own end: `low` is the low end's bit in
// all lanes, and `apart` has ones where the high end's is another.
pub fn step(lanes: Lanes, plane: u64, low: u64, apart: u64) -> Lanes
    requires { lanes.taken < 32 }
    ensures { result ≡ stepped lanes plane low apart }
{
    let end = low ^ (lanes.upper & apart);
    let decided = lanes.undecided & (plane ^ end);
    Lanes {
        undecided: lanes.undecided ^ decided,
        upper: lanes.upper,
        outside: lanes.outside | (decided & (end ^ lanes.upper)),
        taken: lanes.taken + 1,
    }
}

// While both ends have the same bits the lanes are undecided that have them too, and a group without such lanes is
// left. Where the ends part, each of these lanes goes with the one whose bit it has.
fn together(planes: &[u64], lows: &[u64], apart: &[u64]) -> Lanes
    requires { (length planes.now ≤ 32) × (length planes.now ≤ length lows.now)
        × (length planes.now ≤ length apart.now) }
    ensures { StandsFor planes.now lows.now apart.now result }
{
    let mut alike = u64::MAX;
    for (i, plane) in planes.iter().enumerate() {
        let other = *plane ^ lows[i];
        if apart[i] != 0 {
            return Lanes {
                undecided: alike,
                upper: other,
                outside: !alike | lows[i],
                taken: i + 1,
            };
        }
        alike &= !other;
        if alike == 0 {
            return Lanes {
                undecided: 0,
                upper: 0,
                outside: u64::MAX,
                taken: i + 1,
            };
        }
    }
    Lanes {
        undecided: alike,
        upper: 0,
        outside: !alike,
        taken: planes.len(),
    }
}

// Up to where the ends part: before the first plane, if not both are within 0 to 2^w - 1.
pub fn begin(planes: &[u64], ends: &Ends<'_>) -> Lanes
    requires { length planes.now ≡ ends.now.w }
    ensures { Standing planes.now ends.now.band result }
{
    let lower = start(ends.band.low, planes.len());
    let upper = start(ends.band.high, planes.len());
    if lower.undecided & upper.undecided != 0 {
        return together(planes, ends.lows, ends.apart);
    }
    Lanes {
        undecided: lower.undecided | upper.undecided,
        upper: upper.undecided,
        outside: lower.less | !(upper.less | upper.undecided),
        taken: 0,
    }
}
