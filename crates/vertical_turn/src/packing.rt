// Entries into a group's planes: a byte of each entry gives eight planes at a time.
ghost use Rattle.std.specs.Prelude.{◌≡◌, ◌+◌, ◌≤◌, ◌<◌, length};
ghost use Rattle.rules.specs.Bits.{put, tabulate};
ghost use Rattle.rules.specs.Vertical.{plane};
ghost use Rattle.vertical_turn.specs.PlanesFromBytes.{turned_down};

use crate::gathering::gather;
use crate::turning::turn_one;

// The n planes from plane k on that gathered words make, the highest bit's first.
#[inline(always)]
fn lay_each(words: &[u64], n: usize, k: usize, planes: &mut [u64])
    requires { (8 ≤ length words.now) × (n ≤ 8) × (k + n ≤ length planes.old) }
    ensures { planes.new
        ≡ put planes.old k (tabulate n (turned_down words.now n)) }
{
    for t in 0..n {
        planes[k + t] = turn_one(words, 0, 8, n - 1 - t);
    }
}

// The same; eight planes have a copy of their own, in which each turn is laid out.
fn lay(words: &[u64], n: usize, k: usize, planes: &mut [u64])
    requires { (8 ≤ length words.now) × (n ≤ 8) × (k + n ≤ length planes.old) }
    ensures { planes.new
        ≡ put planes.old k (tabulate n (turned_down words.now n)) }
{
    if n == 8 {
        lay_each(words, 8, k, planes);
    } else {
        lay_each(words, n, k, planes);
    }
}

// Plane k: bit w - 1 - k of each entry, the first entry's lowest.
fn plane_of(entries: &[u32], w: usize, k: usize) -> u64
    requires { (k < w) × (w ≤ 32) × (length entries.now ≤ 64) }
    ensures { result ≡ plane w entries.now 0 k }
{
    let mut p: u64 = 0;
    for j in (0..entries.len()).rev() {
        let x = entries[j] as u64;
        p = p * 2 + (x >> (w - 1 - k)) % 2;
    }
    p
}

// The n planes from plane k on, by a byte of each entry.
fn planes_together(entries: &[u32], w: usize, k: usize, n: usize, planes: &mut [u64])
    requires { (length entries.now ≤ 64) × (w ≤ 32) × (0 < n) × (n ≤ 8) × (k + n ≤ w)
        × (w ≤ length planes.old) }
    ensures { planes.new
        ≡ put planes.old k (tabulate n (λ t. plane w entries.now 0 (k + t))) }
{
    let mut words = [0u64; 8];
    gather(entries, w - k - n, &mut words);
    lay(&words, n, k, planes);
}

// The same; one plane is sooner made by itself.
fn some_planes(entries: &[u32], w: usize, k: usize, n: usize, planes: &mut [u64])
    requires { (length entries.now ≤ 64) × (w ≤ 32) × (0 < n) × (n ≤ 8) × (k + n ≤ w)
        × (w ≤ length planes.old) }
    ensures { planes.new
        ≡ put planes.old k (tabulate n (λ t. plane w entries.now 0 (k + t))) }
{
    if n == 1 {
        planes[k] = plane_of(entries, w, k);
    } else {
        planes_together(entries, w, k, n, planes);
    }
}

// The w planes of a group of at most 64 entries; a lane past them is 0. First come the planes that are left
// over of eights.
pub fn pack_group(entries: &[u32], w: usize, planes: &mut [u64])
    requires { (w ≤ 32) × (length entries.now ≤ 64) × (w ≤ length planes.old) }
    ensures { planes.new
        ≡ put planes.old 0 (tabulate w (plane w entries.now 0)) }
{
    let rest = w % 8;
    if rest > 0 {
        some_planes(entries, w, 0, rest, planes);
    }
    for q in 0..w / 8 {
        planes_together(entries, w, rest + 8 * q, 8, planes);
    }
}
