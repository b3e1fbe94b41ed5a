// The ends of a band, as 64 lanes are compared with them.
ghost use Rattle.std.specs.Prelude.{◌≡◌, [], ◌≤◌, ◌<◌, length};
ghost use Rattle.rules.specs.Bits.{word};
ghost use Rattle.rules.specs.Planes.{undecided};
ghost use Rattle.vertical_planes.specs.Ends.{below, bits_of, laid, Masked, Spread};

use compare::bands::Band;

// How the 64 lanes stand to one end before the first plane: below it, or undecided; else above it.
#[derive(Clone, Copy)]
pub struct End {
    pub less: u64,
    pub undecided: u64,
}

// A constant outside 0 to 2^w - 1 leaves no lane undecided.
pub fn start(constant: i64, w: usize) -> End
    requires { w ≤ 32 }
    ensures { result
        ≡ record { less = word 64 (below [] w 0 constant); undecided = word 64 (undecided [] w 0 constant) } }
{
    if constant < 0 {
        return End {
            less: 0,
            undecided: 0,
        };
    }
    if constant as u64 >> w == 0 {
        End {
            less: 0,
            undecided: u64::MAX,
        }
    } else {
        End {
            less: u64::MAX,
            undecided: 0,
        }
    }
}

// The bits of a constant that can have lanes undecided; another one is not asked for its bits.
pub fn bits_of(constant: i64) -> u64
    ensures { result ≡ bits_of constant }
{
    if constant < 0 { 0 } else { constant as u64 }
}

// Bit k of c in all 64 lanes.
fn lay(c: u64, k: usize) -> u64
    requires { k < 64 }
    ensures { result ≡ laid c k }
{
    if (c >> k) % 2 == 1 { u64::MAX } else { 0 }
}

// The w lowest bits of c, each in all lanes of a word, the highest first.
pub fn spread(c: u64, w: usize, masks: &mut [u64])
    requires { (w ≤ 32) × (w ≤ length masks.old) }
    ensures { Spread masks.new w c }
{
    for k in 0..w {
        masks[k] = lay(c, w - 1 - k);
    }
}

// A band for groups of w planes, with its ends' bits laid out in all lanes of a word, the highest first: the low
// end's, and ones where the high end's is another.
#[derive(Clone, Copy)]
pub struct Ends<'a> {
    pub band: Band,
    pub w: usize,
    pub lows: &'a [u64],
    pub apart: &'a [u64],
    pub ghost few: { (w ≤ 32) × (w ≤ length lows.now) × (w ≤ length apart.now) },
    pub ghost masked: { Masked lows.now apart.now w band },
}

// The same, with room of its own.
#[derive(Drop)]
pub struct LaidEnds {
    pub band: Band,
    pub w: usize,
    pub lows: [u64; 32],
    pub apart: [u64; 32],
    pub ghost few: { w ≤ 32 },
    pub ghost masked: { Masked lows apart w band },
}

impl LaidEnds {
    pub fn new(band: Band, w: usize) -> Self
        requires { w ≤ 32 }
        ensures { (result.band ≡ band) × (result.w ≡ w) }
    {
        let low = bits_of(band.low);
        let high = bits_of(band.high);
        let mut lows = [0u64; 32];
        let mut apart = [0u64; 32];
        spread(low, w, &mut lows);
        spread(low ^ high, w, &mut apart);
        Self {
            band,
            w,
            lows,
            apart,
        }
    }

    pub fn ends(&self) -> Ends<'_>
        ensures { (result.band ≡ self.now.band) × (result.w ≡ self.now.w) }
    {
        Ends {
            band: self.band,
            w: self.w,
            lows: &self.lows,
            apart: &self.apart,
        }
    }
}
