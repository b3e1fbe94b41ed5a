// Whole groups of packed indexes looked at where they lie, as many at once as a window of eight bytes
// holds: is one too large.
ghost use Rattle.std.specs.Prelude.{◌≡◌, ◌+◌, ◌*◌, ◌/◌, ◌%◌, ◌^◌, ◌≤◌, ◌<◌, leb, ltb, length};
ghost use Rattle.std.specs.Int.Bits.{bit_and};
ghost use Rattle.rules.specs.Bits.{field, some_below};
ghost use Rattle.rules.specs.Bits.Order.{low_first};
ghost use Rattle.packed_kernels.specs.Slots.{slots};

use packed_kernels::slots::{ones_four, ones_two, pow};
use words::loads::load8;

// The 2 * n indexes of w bits in a word, the even ones and the odd ones in slots of twice their width: bit
// w of a slot's sum says whether its index is too large.
fn sums(x: u64, n: usize, ones: u64, w: usize, limit: usize) -> u64
    requires { (0 < w) × (w ≤ 16) × (n * (2 * w) ≤ 64) × (ones ≡ slots n (2 * w) (λ i. 1))
        × (limit ≤ 2 ^ w) }
    ensures { ltb 0 (bit_and result (2 ^ w * ones))
        ≡ some_below (2 * n) (λ j. leb limit (x / 2 ^ (j * w) % 2 ^ w)) }
{
    let p = pow(w);
    let even = (p - 1) * ones;
    let rest = (p - limit as u64) * ones;
    ((x & even) + rest) | (((x >> w) & even) + rest)
}

// The eight indexes from byte `at` on: in one window, or four in it and four in the one that begins with
// the fifth index's byte.
fn group_sums(page: &[u8], at: usize, n: usize, ones: u64, w: usize, limit: usize) -> u64
    requires { (0 < w) × (w ≤ 16) × (n * (2 * w) ≤ 64) × (ones ≡ slots n (2 * w) (λ i. 1))
        × (limit ≤ 2 ^ w) × (n % 2 ≡ 0) × (2 ≤ n) × (n ≤ 4) × (at + w + 8 ≤ length page.now) }
    ensures { ltb 0 (bit_and result (2 ^ w * ones))
        ≡ some_below 8 (λ j. leb limit (field low_first page.now (8 * at + j * w) w)) }
{
    let x = load8(page, at);
    if n == 4 {
        return sums(x, 4, ones, w, limit);
    }
    let y = load8(page, at + w / 2) >> (4 * w % 8);
    sums(x, 2, ones, w, limit) | sums(y, 2, ones, w, limit)
}

// The groups from byte `start` on, with n pairs of indexes in a window. Only the loop's end asks whether
// one was found.
fn some_in(
    page: &[u8],
    start: usize,
    n: usize,
    ones: u64,
    w: usize,
    groups: usize,
    limit: usize,
) -> bool
    requires { (0 < w) × (w ≤ 16) × (n * (2 * w) ≤ 64) × (ones ≡ slots n (2 * w) (λ i. 1))
        × (limit ≤ 2 ^ w) × (n % 2 ≡ 0) × (2 ≤ n) × (n ≤ 4)
        × (start + groups * w + 8 ≤ length page.now) }
    ensures { result
        ≡ some_below (8 * groups)
        (λ k. leb limit (field low_first page.now (8 * start + k * w) w)) }
{
    let mut large: u64 = 0;
    for g in 0..groups {
        large |= group_sums(page, start + g * w, n, ones, w, limit);
    }
    0 < large & (pow(w) * ones)
}

// The groups from byte `start` on, which windows that end within the page hold: of at most eight bits, or
// of at most sixteen.
pub fn some_groups(page: &[u8], start: usize, w: usize, groups: usize, limit: usize) -> bool
    requires { (0 < w) × (w ≤ 16) × (limit ≤ 2 ^ w) × (start + groups * w + 8 ≤ length page.now) }
    ensures { result
        ≡ some_below (8 * groups)
        (λ k. leb limit (field low_first page.now (8 * start + k * w) w)) }
{
    if w <= 8 {
        some_in(page, start, 4, ones_four(2 * w), w, groups, limit)
    } else {
        some_in(page, start, 2, ones_two(2 * w), w, groups, limit)
    }
}
