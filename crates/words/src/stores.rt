// A number's bytes stored from place `at` on, low byte first.
ghost use Rattle.std.specs.Prelude.{◌≡◌, ◌+◌, ◌*◌, ◌%◌, ◌≤◌, length};
ghost use Rattle.rules.specs.Bits.{bytes, put};

pub fn store8(s: &mut [u8], at: usize, x: u64)
    requires { at + 8 ≤ length s.old }
    ensures { s.new ≡ put s.old at (bytes 8 x) }
{
    s[at..at + 8].copy_from_slice(&x.to_le_bytes());
}

pub fn store2(s: &mut [u8], at: usize, x: u16)
    requires { at + 2 ≤ length s.old }
    ensures { s.new ≡ put s.old at (bytes 2 x) }
{
    s[at] = (x % 256) as u8;
    s[at + 1] = (x / 256) as u8;
}

// The 2 × k low bytes of x, two by two: so the compiler makes one store of them where k is a literal, and of more
// bytes at once it does not.
#[inline(always)]
fn store_twos(s: &mut [u8], at: usize, x: u64, k: usize)
    requires { (k ≤ 4) × (at + 2 * k ≤ length s.old) }
    ensures { s.new ≡ put s.old at (bytes (2 * k) x) }
{
    for i in 0..k {
        store2(s, at + 2 * i, ((x >> (16 * i)) % 65536) as u16);
    }
}

// The n low bytes of x as the first K of them and the last K, which may be the same: each is a fixed number of
// bytes, and so one store.
fn store_ends<const K: usize>(s: &mut [u8], at: usize, x: u64, n: usize)
    requires { (K % 2 ≡ 0) × (K ≤ n) × (n ≤ 2 * K) × (n ≤ 8) × (at + n ≤ length s.old) }
    ensures { s.new ≡ put s.old at (bytes n x) }
{
    let last = n - K;
    store_twos(s, at, x, K / 2);
    store_twos(s, at + last, x >> (8 * last), K / 2);
}

// The n low bytes of x one by one.
fn store_each(s: &mut [u8], at: usize, x: u64, n: usize)
    requires { at + n ≤ length s.old }
    ensures { s.new ≡ put s.old at (bytes n x) }
{
    let mut left = x;
    for byte in s[at..at + n].iter_mut() {
        *byte = (left % 256) as u8;
        left /= 256;
    }
}

// The n low bytes of x, without a loop where they are at most 8.
pub fn store_low(s: &mut [u8], at: usize, x: u64, n: usize)
    requires { at + n ≤ length s.old }
    ensures { s.new ≡ put s.old at (bytes n x) }
{
    match n {
        0 => {}
        1 => s[at] = (x % 256) as u8,
        2..=3 => store_ends::<2>(s, at, x, n),
        4..=8 => store_ends::<4>(s, at, x, n),
        9.. => store_each(s, at, x, n),
    }
}
