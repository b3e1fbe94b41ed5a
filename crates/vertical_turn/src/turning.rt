// Words turned byte by byte: every eighth bit of up to eight words makes one word.
ghost use Rattle.std.specs.Prelude.{◌≡◌, ◌+◌, ◌≤◌, ◌<◌, length};
ghost use Rattle.rules.specs.Bits.{put, tabulate};
ghost use Rattle.vertical_turn.specs.Turned.{turned};

// Bit 0 of each byte.
const LOWEST: u64 = 72340172838076673;

// The bits i, i + 8, .. i + 56 of n words, to each byte one bit of each word, the first word's highest.
pub fn turn_one(words: &[u64], at: usize, n: usize, i: usize) -> u64
    requires { (at + n ≤ length words.now) × (n ≤ 8) × (i < 8) }
    ensures { result ≡ turned words.now at n i }
{
    let mut x: u64 = 0;
    for word in &words[at..at + n] {
        x = x * 2 + ((*word >> i) & LOWEST);
    }
    x
}

// All eight words that n words make.
#[inline(always)]
fn turn_each(words: &[u64], at: usize, n: usize, out: &mut [u64])
    requires { (at + n ≤ length words.now) × (n ≤ 8) × (8 ≤ length out.old) }
    ensures { out.new
        ≡ put out.old 0 (tabulate 8 (turned words.now at n)) }
{
    for i in 0..8 {
        out[i] = turn_one(words, at, n, i);
    }
}

// The same; eight words have a copy of their own, in which each turn is laid out.
pub fn turn(words: &[u64], at: usize, n: usize, out: &mut [u64])
    requires { (at + n ≤ length words.now) × (n ≤ 8) × (8 ≤ length out.old) }
    ensures { out.new
        ≡ put out.old 0 (tabulate 8 (turned words.now at n)) }
{
    if n == 8 {
        turn_each(words, at, 8, out);
    } else {
        turn_each(words, at, n, out);
    }
}
