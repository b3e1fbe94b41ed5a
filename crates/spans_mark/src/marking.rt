// The bitmap of a list of pairs, by words of 64 entries: a word is stored once an edge lies behind it.
ghost use Rattle.std.specs.Prelude.{◌≡◌, false, ◌+◌, ◌-◌, ◌*◌, ◌%◌, ◌^◌, ◌≤◌, ◌<◌, length};
ghost use Rattle.rules.specs.Bits.{ceil, put};
ghost use Rattle.rules.specs.Bitmap as Bitmap;
ghost use Rattle.rules.specs.Spans.{covered, misplaced};
ghost use Rattle.spans_mark.specs.Words.{filled, passed};

use words::stores::{store_low, store8};

// The words from word `at` up to word `to`: the first is x, the others `rest`. Gives the word that comes then.
fn pass(bitmap: &mut [u8], at: usize, to: usize, x: u64, rest: u64) -> u64
    requires { (at ≤ to) × (to ≤ 256) × (8 * to ≤ length bitmap.old) }
    ensures word { result ≡ passed (to - at) x rest }
    ensures wrote { bitmap.new
        ≡ put bitmap.old (8 * at) (filled (to - at) x rest) }
{
    let mut word = x;
    for q in at..to {
        store8(bitmap, 8 * q, word);
        word = rest;
    }
    word
}

// The bits of a word from bit r on.
fn from_bit(r: u32) -> u64
    requires { r < 64 }
    ensures { result ≡ 2 ^ 64 - 2 ^ r }
{
    u64::MAX - ((1 << r) - 1)
}

// And those behind it.
fn behind_bit(r: u32) -> u64
    requires { r < 64 }
    ensures { result ≡ 2 ^ 64 - 2 ^ (r + 1) }
{
    from_bit(r) % 9223372036854775808 * 2
}

// A list that is well placed, below n. Gives how many entries it covers.
pub fn mark(list: &[u32], n: usize, bitmap: &mut [u8]) -> u32
    requires { (n ≤ 16384) × (ceil n 8 ≤ length bitmap.old) × (length list.now % 2 ≡ 0)
        × (misplaced n 0 list.now ≡ false) }
    ensures count { result ≡ Bitmap.tally n (covered list.now) }
    ensures wrote { bitmap.new
        ≡ put bitmap.old 0 (Bitmap.bitmap n (covered list.now)) }
{
    let mut word: u64 = 0;
    let mut at: usize = 0;
    // how many entries of the stretches are not their first
    let mut longer: u32 = 0;
    for pair in list.chunks_exact(2) {
        let first = pair[0];
        let last = pair[1];
        let from = (first / 64) as usize;
        let begun = pass(bitmap, at, from, word, 0) + from_bit(first % 64);
        at = (last / 64) as usize;
        word = pass(bitmap, from, at, begun, u64::MAX) - behind_bit(last % 64);
        longer += last - first;
    }
    let rest = pass(bitmap, at, n / 64, word, 0);
    store_low(bitmap, 8 * (n / 64), rest, (n % 64 + 7) / 8);
    longer + (list.len() / 2) as u32
}
