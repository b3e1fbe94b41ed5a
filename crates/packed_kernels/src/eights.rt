// Eight entries at once, of at most eight bits: they lie in one window of eight bytes.
ghost use Rattle.std.specs.Prelude.{◌≡◌, ◌+◌, ◌-◌, ◌*◌, ◌%◌, ◌<◌, ◌≤◌};
ghost use Rattle.rules.specs.Bits.{word};
ghost use Rattle.packed_kernels.specs.SlotTests.{tested};

use crate::kernels::Kernel;
use crate::slots::{ones_four, ones_two, pair_tests};
use words::loads::load8;

// The tests of the eight entries in a word: first two and two of the pairs, then all side by side.
fn eight_in(x: u64, w: usize, low: u64, high: u64) -> u8
    requires { (0 < w) × (w ≤ 8) }
    ensures { result ≡ word 8 (tested low high w x) }
{
    let d = 2 * w;
    let y = pair_tests(x, 4, ones_four(d), w, low, high);
    let twos = 3 * ones_two(2 * d);
    let z = (y & twos) + ((y >> d) & twos) * 4;
    (z % 16 + (z >> (2 * d)) * 16) as u8
}

pub struct Eights;

impl Kernel for Eights {
    ghost takes = { λ w _ _. (0 < w) × (w ≤ 8) };

    ghost behind = { λ w. 8 - w };

    fn eight(page: &[u8], at: usize, w: usize, low: u32, span: u32) -> u8 {
        eight_in(load8(page, at), w, low as u64, low as u64 + span as u64)
    }
}
