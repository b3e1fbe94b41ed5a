// The wrapped deltas of entries, the least of some, and how far each is above it.
ghost use Rattle.std.specs.Prelude.{◌≡◌, ◌+◌, ◌<◌, ◌≤◌, true, length, take, drop, pos, int_le, slice_index_or};
ghost use Rattle.rules.specs.Bits.{put};
ghost use Rattle.rules.specs.Signed.{gap, zigzag_of};
ghost use Rattle.rules.specs.DeltaWriter.{deltas, least, above_least};

use crate::numbers::{kept, zigzag};
use signed::wrapping::signed32;
use std::num::wrapping_sub_u32;

// The delta from entry i to the next one.
fn delta_at(entries: &[i32], i: usize) -> i32
    requires { (i + 1 < length entries.now) × (length entries.now ≤ 16384) }
    ensures { result ≡ slice_index_or (deltas 32 entries.now) i (pos 0) }
{
    let from = kept(entries[i]);
    let to = kept(entries[i + 1]);
    signed32(wrapping_sub_u32(to, from))
}

// The least of the k deltas from delta `from` on.
fn least_of(entries: &[i32], from: usize, k: usize) -> i32
    requires { (0 < k) × (from + k < length entries.now) × (length entries.now ≤ 16384) }
    ensures { result ≡ least (take k (drop from (deltas 32 entries.now))) }
{
    let first = delta_at(entries, from);
    (1..k).fold(first, |least, i| least.min(delta_at(entries, from + i)))
}

// How far a delta is above one that is not greater: the wrapped difference, since 32 bits hold it.
fn above(delta: i32, least: i32) -> u32
    requires { int_le least delta ≡ true }
    ensures { result ≡ gap delta least }
{
    wrapping_sub_u32(kept(delta), kept(least))
}

// How far each of the k deltas from delta `from` on is above their least, into the first places.
fn put_above(entries: &[i32], from: usize, k: usize, smallest: i32, numbers: &mut [u32])
    requires { (k ≤ length numbers.old) × (from + k < length entries.now)
        × (length entries.now ≤ 16384)
        × (smallest ≡ least (take k (drop from (deltas 32 entries.now)))) }
    ensures { numbers.new
        ≡ put numbers.old 0
        (above_least (take k (drop from (deltas 32 entries.now)))) }
{
    for i in 0..k {
        numbers[i] = above(delta_at(entries, from + i), smallest);
    }
}

// The same, with their least given as a zigzag number.
pub fn put_numbers(entries: &[i32], from: usize, k: usize, numbers: &mut [u32]) -> u32
    requires { (0 < k) × (k ≤ length numbers.old) × (from + k < length entries.now)
        × (length entries.now ≤ 16384) }
    ensures stored { numbers.new
        ≡ put numbers.old 0
        (above_least (take k (drop from (deltas 32 entries.now)))) }
    ensures smallest { result
        ≡ zigzag_of (least (take k (drop from (deltas 32 entries.now)))) }
{
    let smallest = least_of(entries, from, k);
    put_above(entries, from, k, smallest, numbers);
    zigzag(smallest)
}
