// Four entries and four at once, of at most sixteen bits: four lie in one window of eight bytes.
ghost use Rattle.std.specs.Prelude.{◌≡◌, ◌+◌, ◌*◌, ◌%◌, ◌<◌, ◌≤◌};
ghost use Rattle.rules.specs.Bits.{word};
ghost use Rattle.packed_kernels.specs.SlotTests.{tested};

use crate::kernels::Kernel;
use crate::slots::{ones_two, pair_tests};
use words::loads::load8;

// The tests of the four entries in a word. The sum has the upper pair beside the lower one, and again in
// its slot.
fn four_in(x: u64, w: usize, low: u64, high: u64) -> u64
    requires { (1 < w) × (w ≤ 16) }
    ensures told { result ≡ word 4 (tested low high w x) }
    ensures small { result < 16 }
{
    let d = 2 * w;
    let y = pair_tests(x, 2, ones_two(d), w, low, high);
    (y + (y >> (d - 2))) % 16
}

pub struct Fours;

impl Kernel for Fours {
    ghost takes = { λ w _ _. (1 < w) × (w ≤ 16) };

    ghost behind = { λ _. 8 };

    // Those of the first window, and of the one that begins with the fifth entry's byte.
    fn eight(page: &[u8], at: usize, w: usize, low: u32, span: u32) -> u8 {
        let high = low as u64 + span as u64;
        let x = load8(page, at);
        let y = load8(page, at + w / 2) >> (4 * w % 8);
        (four_in(x, w, low as u64, high) + four_in(y, w, low as u64, high) * 16) as u8
    }
}
