// At most eight entries, into places.
ghost use Rattle.std.specs.Prelude.{◌≡◌, ◌+◌, ◌*◌, ◌%◌, ◌≤◌, length};
ghost use Rattle.signed.specs.Reached.{reached};
ghost use Rattle.delta_octets.specs.Steps.{packed_step, step_from};
ghost use Rattle.delta_octets.specs.TwoWritings.{places};

use crate::steps::{stepped, stepped_in};
use signed::wrapping::signed32;

// k entries from `from` on, where the step from the first of them is packed number j of the body; gives the
// entry after them.
fn place_few(
    body: &[u8],
    j: usize,
    w: u32,
    k: usize,
    least: u32,
    from: u32,
    entries: &mut [i32],
    i: usize,
) -> u32
    requires { (w ≤ 32) × (j + k ≤ 16384) × (i + k ≤ 16384) × (i + k ≤ length entries.old) }
    ensures entry { result ≡ reached 32 from (λ u. packed_step least body.now w (j + u)) k }
    ensures wrote { entries.new
        ≡ places 32 i k (reached 32 from (λ u. packed_step least body.now w (j + u)))
        entries.old }
{
    let mut x = from;
    for u in 0..k {
        entries[i + u] = signed32(x);
        x = stepped(body, (j + u) * w as usize, w, least, x);
    }
    x
}

// Eight entries whose packed numbers begin at byte `at`, where their windows end within the body.
fn place_whole(
    body: &[u8],
    at: usize,
    w: usize,
    least: u32,
    from: u32,
    entries: &mut [i32],
    i: usize,
) -> u32
    requires { (w ≤ 32) × (at + w + 8 ≤ length body.now) × (i + 8 ≤ 16384)
        × (i + 8 ≤ length entries.old) }
    ensures entry { result ≡ reached 32 from (step_from least body.now at w) 8 }
    ensures wrote { entries.new
        ≡ places 32 i 8 (reached 32 from (step_from least body.now at w))
        entries.old }
{
    let mut x = from;
    for u in 0..8 {
        entries[i + u] = signed32(x);
        x = stepped_in(body, at, u * w, w, least, x);
    }
    x
}

// k entries, at most eight, from packed number j of the body on, which begins a byte.
pub fn place_octet(
    body: &[u8],
    j: usize,
    w: u32,
    k: usize,
    least: u32,
    from: u32,
    entries: &mut [i32],
    i: usize,
) -> u32
    requires { (w ≤ 32) × (j % 8 ≡ 0) × (j + k ≤ 16384) × (i + k ≤ 16384)
        × (i + k ≤ length entries.old) }
    ensures entry { result ≡ reached 32 from (λ u. packed_step least body.now w (j + u)) k }
    ensures wrote { entries.new
        ≡ places 32 i k (reached 32 from (λ u. packed_step least body.now w (j + u)))
        entries.old }
{
    let at = j / 8 * w as usize;
    if k == 8 && at + w as usize + 8 <= body.len() {
        place_whole(body, at, w as usize, least, from, entries, i)
    } else {
        place_few(body, j, w, k, least, from, entries, i)
    }
}
