// Two entries at once, of 8 to 30 bits: two lie in one window of eight bytes.
ghost use Rattle.std.specs.Prelude.{◌≡◌, ◌+◌, ◌*◌, ◌/◌, ◌%◌, ◌≤◌, length};
ghost use Rattle.rules.specs.Bits.{flag, field};
ghost use Rattle.rules.specs.Bits.Order.{low_first};
ghost use Rattle.compare.specs.Range.{inside};
ghost use Rattle.packed_kernels.specs.Slots.{slots};
ghost use Rattle.packed_kernels.specs.SlotTests.{held};

use crate::kernels::Kernel;
use crate::slots::{ones_two, pow, slot_tests};
use words::loads::load8;

// The first two numbers of w bits in a word, a bit apart: the second one is added to itself.
fn apart(x: u64, w: usize) -> u64
    requires { w ≤ 30 }
    ensures { result ≡ slots 2 (w + 1) (held w w x) }
{
    let y = x % pow(2 * w);
    y + (y - y % pow(w))
}

// The tests of the two entries from bit b after byte `at` on.
fn two(page: &[u8], at: usize, b: usize, w: usize, low: u64, high: u64) -> u64
    requires { (w ≤ 30) × (b % 8 + 2 * w ≤ 64) × (at + b / 8 + 8 ≤ length page.now) }
    ensures told { result
        ≡ slots 2 (w + 1)
        (λ i. flag (inside low high (field low_first page.now (8 * at + b + i * w) w))) }
    ensures small { result ≤ 4294967297 }
{
    let x = load8(page, at + b / 8) >> (b % 8);
    let d = w + 1;
    slot_tests(apart(x, w), 2, d, ones_two(d), w, low, high)
}

pub struct Twos;

impl Kernel for Twos {
    ghost takes = { λ w _ _. (8 ≤ w) × (w ≤ 30) };

    ghost behind = { λ _. 8 };

    // The sum has the tests of the upper slot between those of the lower one.
    fn eight(page: &[u8], at: usize, w: usize, low: u32, span: u32) -> u8 {
        let from = low as u64;
        let to = from + span as u64;
        let y = two(page, at, 0, w, from, to)
            + two(page, at, 2 * w, w, from, to) * 4
            + two(page, at, 4 * w, w, from, to) * 16
            + two(page, at, 6 * w, w, from, to) * 64;
        ((y + (y >> w)) % 256) as u8
    }
}
