// The number that bytes make, low byte first.
ghost use Rattle.std.specs.Prelude.{◌≡◌, ◌+◌, ◌≤◌, length, take, drop};
ghost use Rattle.rules.specs.Bits.{number};

pub fn load4(s: &[u8], at: usize) -> u32
    requires { at + 4 ≤ length s.now }
    ensures { result ≡ number (take 4 (drop at s.now)) }
{
    u32::from_le_bytes(s[at..].as_chunks().0[0])
}

pub fn load8(s: &[u8], at: usize) -> u64
    requires { at + 8 ≤ length s.now }
    ensures { result ≡ number (take 8 (drop at s.now)) }
{
    u64::from_le_bytes(s[at..].as_chunks().0[0])
}

// The bytes from `at` to the end, at most eight.
fn load_tail(s: &[u8], at: usize) -> u64
    requires { (at ≤ length s.now) × (length s.now ≤ at + 8) }
    ensures { result ≡ number (drop at s.now) }
{
    let mut x: u64 = 0;
    for b in s[at..].iter().rev() {
        x = x * 256 + *b as u64;
    }
    x
}

// Eight bytes from `at` on, with 0 for those past the end.
pub fn load_any(s: &[u8], at: usize) -> u64
    ensures { result ≡ number (take 8 (drop at s.now)) }
{
    match s.len().saturating_sub(at) {
        0 => 0,
        1..=7 => load_tail(s, at),
        8.. => load8(s, at),
    }
}
