// A bitmap's stretches as pairs of numbers, first and last.
ghost use Rattle.std.specs.Prelude.{◌≡◌, false, ◌+◌, ◌*◌, ◌%◌, ◌^◌, ◌≤◌, eqb, length};
ghost use Rattle.std.specs.Int.Bits.{bit_xor};
ghost use Rattle.std.specs.Int.Count.{ones};
ghost use Rattle.rules.specs.Bits.{ceil, put};
ghost use Rattle.rules.specs.Spans.{spans};
ghost use Rattle.spans_list.specs.SetBits.{edges_of};

use crate::turns::{last_word, turns};
use words::loads::load8;

// The edges at the set bits of a word, counted from entry p on, two by two from place q on: where a stretch
// begins and where it ends. Gives the place behind them.
fn put_pairs(turns: u64, p: usize, places: &mut [u32], q: usize) -> usize
    requires { (p ≤ 16384) × (q + ones turns ≤ length places.old) }
    ensures place { result ≡ q + ones turns }
    ensures wrote { places.new ≡ put places.old q (edges_of false 64 p turns) }
{
    let mut left = turns;
    let mut at = q;
    while left != 0 {
        places[at] = (p + left.trailing_zeros() as usize) as u32;
        let more = left & (left - 1);
        if more == 0 {
            return at + 1;
        }
        places[at + 1] = (p + more.trailing_zeros() as usize - 1) as u32;
        left = more & (more - 1);
        at += 2;
    }
    at
}

// The same where a stretch may be open in front of entry p, which then ends first.
fn put_edges(turns: u64, carry: u64, p: usize, places: &mut [u32], q: usize) -> usize
    requires { (p ≤ 16384) × (carry ≤ p) × (q + ones turns ≤ length places.old) }
    ensures place { result ≡ q + ones turns }
    ensures wrote { places.new
        ≡ put places.old q (edges_of (eqb carry 1) 64 p turns) }
{
    if turns == 0 {
        return q;
    }
    if carry == 1 {
        places[q] = (p + turns.trailing_zeros() as usize - 1) as u32;
        return put_pairs(turns & (turns - 1), p, places, q + 1);
    }
    put_pairs(turns, p, places, q)
}

// The edges of the 64 entries x. After an odd number of edges a stretch is open.
fn put_turns(x: u64, p: usize, places: &mut [u32], at: usize) -> usize
    requires { (p ≤ 16384) × (at % 2 ≤ p)
        × (at + ones (bit_xor x (x % 2 ^ 63 * 2 + at % 2)) ≤ length places.old) }
    ensures place { result ≡ at + ones (bit_xor x (x % 2 ^ 63 * 2 + at % 2)) }
    ensures wrote { places.new
        ≡ put places.old at
        (edges_of (eqb (at % 2) 1) 64 p (bit_xor x (x % 2 ^ 63 * 2 + at % 2))) }
{
    let carry = (at % 2) as u64;
    put_edges(turns(x, carry), carry, p, places, at)
}

// Gives how many numbers it wrote.
pub fn list(bitmap: &[u8], n: usize, places: &mut [u32]) -> usize
    requires { (n ≤ 16384) × (ceil n 8 ≤ length bitmap.now)
        × (length (spans bitmap.now n) ≤ length places.old) }
    ensures count { result ≡ length (spans bitmap.now n) }
    ensures wrote { places.new
        ≡ put places.old 0 (spans bitmap.now n) }
{
    let mut at: usize = 0;
    for q in 0..n / 64 {
        at = put_turns(load8(bitmap, 8 * q), 64 * q, places, at);
    }
    put_turns(last_word(bitmap, n), 64 * (n / 64), places, at)
}
