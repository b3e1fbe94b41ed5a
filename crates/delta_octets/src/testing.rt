// At most eight entries, tested: a byte of the bitmap.
ghost use Rattle.std.specs.Prelude.{◌≡◌, ◌+◌, ◌%◌, ◌^◌, ◌<◌, ◌≤◌, length};
ghost use Rattle.compare.specs.Range.{ranged, BoundedRange};
ghost use Rattle.delta_octets.specs.Octets.{octet_of};
ghost use Rattle.delta_octets.specs.Steps.{packed_step, step_from};

use crate::steps::{stepped, stepped_in};
use compare::ranges::{Range, passes};
use std::num::{wrapping_add_u32, wrapping_sub_u32};

// Which of some entries pass, as bits, and the entry after them.
#[derive(Clone, Copy)]
pub struct Octet {
    pub bits: u32,
    pub after: u32,
}

// k entries from `from` on, where the step from the first of them is packed number i of the body: each is
// tested, and then the next is reached.
fn test_few(body: &[u8], i: usize, w: u32, k: usize, least: u32, from: u32, range: Range) -> Octet
    requires { (w ≤ 32) × (k ≤ 8) × (i ≤ 16384) × BoundedRange range }
    ensures { result
        ≡ octet_of 32 k (ranged range) from (λ j. packed_step least body.now w (i + j)) }
{
    let mut bits: u32 = 0;
    let mut x = from;
    for j in 0..k {
        bits += (passes(range, x) as u32) << j;
        x = stepped(body, (i + j) * w as usize, w, least, x);
    }
    Octet { bits, after: x }
}

// Does the range select the entry that is y above its low end.
fn passes_above(range: Range, y: u32) -> bool
    requires { BoundedRange range }
    ensures { result ≡ ranged range ((y + range.low) % 2 ^ 32) }
{
    let inside = y <= range.span;
    if 0 < range.flip { !inside } else { inside }
}

// Eight entries whose packed numbers begin at byte `at`, where their windows end within the body: nothing
// is asked of its end. Each is kept as what it is above the range's low end, wrapping, so that its test is
// one comparison.
fn test_whole(body: &[u8], at: usize, w: usize, least: u32, from: u32, range: Range) -> Octet
    requires { (w ≤ 32) × (at + w + 8 ≤ length body.now) × BoundedRange range }
    ensures { result ≡ octet_of 32 8 (ranged range) from (step_from least body.now at w) }
{
    let mut bits: u32 = 0;
    let mut y = wrapping_sub_u32(from, range.low);
    for j in 0..8 {
        bits += (passes_above(range, y) as u32) << j;
        y = stepped_in(body, at, j * w, w, least, y);
    }
    Octet {
        bits,
        after: wrapping_add_u32(y, range.low),
    }
}

// k entries, at most eight, from packed number i of the body on, which begins a byte.
pub fn test_octet(
    body: &[u8],
    i: usize,
    w: u32,
    k: usize,
    least: u32,
    from: u32,
    range: Range,
) -> Octet
    requires { (w ≤ 32) × (k ≤ 8) × (i ≤ 16384) × (i % 8 ≡ 0) × BoundedRange range }
    ensures { result
        ≡ octet_of 32 k (ranged range) from (λ j. packed_step least body.now w (i + j)) }
{
    let at = i / 8 * w as usize;
    if k == 8 && at + w as usize + 8 <= body.len() {
        test_whole(body, at, w as usize, least, from, range)
    } else {
        test_few(body, i, w, k, least, from, range)
    }
}
