// Several entries of one word tested at once, each in a slot that is wider than it, where a sum has room
// for its carry.
ghost use Rattle.std.specs.Prelude.{◌≡◌, ◌*◌, ◌^◌, ◌<◌, ◌≤◌};
ghost use Rattle.rules.specs.Bits.{flag};
ghost use Rattle.compare.specs.Range.{inside};
ghost use Rattle.packed_kernels.specs.Slots.{slots};
ghost use Rattle.packed_kernels.specs.SlotTests.{tested, pair, held};

pub fn pow(w: usize) -> u64
    requires { w < 64 }
    ensures { result ≡ 2 ^ w }
{
    1 << w
}

// 1 in each of two slots of d bits.
pub fn ones_two(d: usize) -> u64
    requires { d ≤ 32 }
    ensures { result ≡ slots 2 d (λ i. 1) }
{
    1 + pow(d)
}

// 1 in each of four slots of d bits.
pub fn ones_four(d: usize) -> u64
    requires { d ≤ 16 }
    ensures { result ≡ slots 4 d (λ i. 1) }
{
    ones_two(d) * ones_two(2 * d)
}

// The tests of n entries of w bits, each in a slot of d bits of its own: bit w of a + ge says whether an
// entry is low or more, and bit w of le - a whether it is high or less. Only the contract speaks of n and
// d, and so serves all kernels of slots.
pub fn slot_tests(a: u64, n: usize, d: usize, ones: u64, w: usize, low: u64, high: u64) -> u64
    requires { (w < 32) × (w < d) × (n * d ≤ 64) × (ones ≡ slots n d (λ i. 1))
        × (a ≡ slots n d (held d w a)) }
    ensures { result ≡ slots n d (λ i. flag (inside low high (held d w a i))) }
{
    let p = pow(w);
    let ge = (p - low.min(p)) * ones;
    let le = (p + high.min(p - 1)) * ones;
    (((a + ge) & (le - a)) >> w) & ones
}

// The tests of 2 * n entries of w bits, end to end in a word: those of entries 2 * i and 2 * i + 1 in slot
// i.
pub fn pair_tests(x: u64, n: usize, ones: u64, w: usize, low: u64, high: u64) -> u64
    requires { (0 < w) × (w ≤ 16) × (n * (2 * w) ≤ 64) × (ones ≡ slots n (2 * w) (λ i. 1)) }
    ensures { result ≡ slots n (2 * w) (pair (tested low high w x)) }
{
    let even = (pow(w) - 1) * ones;
    let d = 2 * w;
    slot_tests(x & even, n, d, ones, w, low, high)
        + slot_tests((x >> w) & even, n, d, ones, w, low, high) * 2
}
