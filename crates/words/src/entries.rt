// One packed entry, through a window of eight bytes.
ghost use Rattle.std.specs.Prelude.{◌≡◌, ◌+◌, ◌*◌, ◌/◌, ◌≤◌, length};
ghost use Rattle.rules.specs.Bits.{field};
ghost use Rattle.rules.specs.Bits.Order.{low_first};

use crate::loads::{load_any, load8};

// The w bits from bit b after byte `at` on, where the window ends within the page.
pub fn entry_in(page: &[u8], at: usize, b: usize, w: usize) -> u32
    requires { (w ≤ 32) × (at + b / 8 + 8 ≤ length page.now) }
    ensures { result ≡ field low_first page.now (8 * at + b) w }
{
    ((load8(page, at + b / 8) >> (b % 8)) % (1 << w)) as u32
}

// The w bits from bit k of the page on, wherever they lie; what is past the end counts as 0.
pub fn entry_any(page: &[u8], k: usize, w: u32) -> u32
    requires { w ≤ 32 }
    ensures { result ≡ field low_first page.now k w }
{
    ((load_any(page, k / 8) >> (k % 8)) % (1 << w)) as u32
}
