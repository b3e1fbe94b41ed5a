// Bits put behind bits, also inside a byte.
ghost use Rattle.std.specs.Prelude.{◌≡◌, ◌+◌, ◌*◌, ◌%◌, ◌^◌, ◌≤◌, ◌<◌, length, get_or};
ghost use Rattle.rules.specs.Bits.{ceil, bytes, put};
ghost use Rattle.words.specs.Appended.{appended};

use crate::stores::store_low;

// The r low bits of the first byte.
fn head(part: &[u8], r: u32) -> u64
    requires { (r < 8) × (0 < length part.now) }
    ensures { result ≡ get_or part.now 0 0 % 2 ^ r }
{
    part[0] as u64 % (1 << r)
}

// Keeps the r low bits of the part's first byte, and puts m bits behind them, with 0 for what is left of
// the last byte.
fn append(part: &mut [u8], r: u32, x: u64, m: u32)
    requires { (r < 8) × (m ≤ 56) × (x < 2 ^ m) × (0 < length part.old)
        × (ceil (r + m) 8 ≤ length part.old) }
    ensures { part.new
        ≡ put part.old 0
        (bytes (ceil (r + m) 8) (x * 2 ^ r + get_or part.old 0 0 % 2 ^ r)) }
{
    let low = head(part, r);
    store_low(part, 0, (x << r) + low, ((r + m + 7) / 8) as usize);
}

// Puts m bits from bit p on: the part from the byte where they begin is lent on.
pub fn append_at(out: &mut [u8], p: usize, x: u64, m: u32)
    requires { (m ≤ 56) × (0 < m) × (x < 2 ^ m) × (p + m ≤ 8 * length out.old) }
    ensures { out.new ≡ appended out.old p x m }
{
    let a = p / 8;
    append(&mut out[a..], (p % 8) as u32, x, m);
}
