// A bitmap by words of 64 entries: the entries selected, and where they turn from selected to not, or back.
ghost use Rattle.std.specs.Prelude.{◌≡◌, ◌+◌, ◌*◌, ◌/◌, ◌%◌, ◌^◌, ◌≤◌, length};
ghost use Rattle.std.specs.Int.Bits.{bit_xor};
ghost use Rattle.rules.specs.Bits.{ceil, word};
ghost use Rattle.rules.specs.Spans.{selected, spans};

use words::loads::{load_any, load8};

// The entries of the last word, which bit n lies in: bits from n on are not looked at.
pub fn last_word(bitmap: &[u8], n: usize) -> u64
    ensures { result ≡ word 64 (λ j. selected bitmap.now n (64 * (n / 64) + j)) }
{
    load_any(bitmap, 8 * (n / 64)) % (1 << (n % 64))
}

// Where the entries of a word differ from the one in front; `carry` is the last entry of the word before.
pub fn turns(x: u64, carry: u64) -> u64
    requires { carry ≤ 1 }
    ensures { result ≡ bit_xor x (x % 2 ^ 63 * 2 + carry) }
{
    x ^ (x % 9223372036854775808 * 2 + carry)
}

// How many edges the stretches of a bitmap have, two each.
pub fn edges_in(bitmap: &[u8], n: usize) -> usize
    requires { (n ≤ 16384) × (ceil n 8 ≤ length bitmap.now) }
    ensures { result ≡ length (spans bitmap.now n) }
{
    let mut count: usize = 0;
    let mut carry: u64 = 0;
    for q in 0..n / 64 {
        let x = load8(bitmap, 8 * q);
        count += turns(x, carry).count_ones() as usize;
        carry = x / 9223372036854775808;
    }
    count + turns(last_word(bitmap, n), carry).count_ones() as usize
}
