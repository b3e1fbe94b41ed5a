// A group of 64 entries against a band: a plane is taken only while a lane is undecided against one of
// its ends.
ghost use Rattle.std.specs.Prelude.{◌≡◌, cond, ◌-◌, ◌^◌, ◌≤◌, length};
ghost use Rattle.vertical_planes.specs.Standing.{band_compared, Standing};

use crate::ends::Ends;
use crate::lanes::{Lanes, begin, step};
use compare::bands::Band;
use rules::Compared;

// No lane is undecided, or no plane is left: the lanes inside, or those outside where the band selects these.
fn told(band: Band, lanes: Lanes) -> Compared
    ensures { result
        ≡ record {
          bits = cond band.outside lanes.outside (2 ^ 64 - 1 - lanes.outside);
          taken = lanes.taken;
        } }
{
    Compared {
        bits: if band.outside {
            lanes.outside
        } else {
            !lanes.outside
        },
        taken: lanes.taken,
    }
}

// The planes that are left, as far as they are needed.
pub fn finish(planes: &[u64], ends: &Ends<'_>, lanes: Lanes) -> Compared
    requires size { length planes.now ≡ ends.now.w }
    requires standing { Standing planes.now ends.now.band lanes }
    ensures { result ≡ band_compared planes.now ends.now.band }
{
    let mut left = lanes;
    while left.taken < planes.len() {
        if left.undecided == 0 {
            return told(ends.band, left);
        }
        let i = left.taken;
        left = step(left, planes[i], ends.lows[i], ends.apart[i]);
    }
    told(ends.band, left)
}

// The planes of one group and a band's ends in; a bit for each lane that the band selects out, and how many
// planes were taken.
pub fn compare(planes: &[u64], ends: &Ends<'_>) -> Compared
    requires { length planes.now ≡ ends.now.w }
    ensures { result ≡ band_compared planes.now ends.now.band }
{
    finish(planes, ends, begin(planes, ends))
}
