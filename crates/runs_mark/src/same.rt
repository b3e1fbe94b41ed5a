// Entries that are all selected, or none of them: a few at once, or the byte where they begin, whole bytes,
// the last byte.
ghost use Rattle.std.specs.Prelude.{◌≡◌, ◌+◌, ◌*◌, ◌≤◌, ◌<◌, length};
ghost use Rattle.rules.specs.Bits.{word};
ghost use Rattle.words.specs.Appended.{appended};

use words::bits::append_at;

// m bits that are all set, or none of them.
fn same_bits(m: u32, selected: bool) -> u64
    requires { m ≤ 56 }
    ensures { result ≡ word m (λ _. selected) }
{
    if selected { (1 << m) - 1 } else { 0 }
}

// A few entries, at most 56.
fn mark_few(bitmap: &mut [u8], p: usize, m: usize, selected: bool)
    requires { (0 < m) × (m ≤ 56) × (p + m ≤ 8 * length bitmap.old) }
    ensures { bitmap.new ≡ appended bitmap.old p (word m (λ _. selected)) m }
{
    append_at(bitmap, p, same_bits(m as u32, selected), m as u32);
}

// k whole bytes from byte a on.
fn fill(bitmap: &mut [u8], a: usize, k: usize, selected: bool)
    requires { a + k ≤ length bitmap.old }
    ensures { bitmap.new
        ≡ appended bitmap.old (8 * a) (word (8 * k) (λ _. selected)) (8 * k) }
{
    let byte = same_bits(8, selected) as u8;
    bitmap[a..a + k].fill(byte);
}

// m entries from the first bit of byte a on.
fn mark_bytes(bitmap: &mut [u8], a: usize, m: usize, selected: bool)
    requires { (a ≤ 4096) × (m ≤ 16384) × (8 * a + m ≤ 8 * length bitmap.old) }
    ensures { bitmap.new
        ≡ appended bitmap.old (8 * a) (word m (λ _. selected)) m }
{
    let k = m / 8;
    fill(bitmap, a, k, selected);
    if m % 8 != 0 {
        mark_few(bitmap, 8 * (a + k), m % 8, selected);
    }
}

// m entries that are all selected, or none of them, from bit p on.
pub fn mark_same(bitmap: &mut [u8], p: usize, m: usize, selected: bool)
    requires { (0 < m) × (p ≤ 16384) × (m ≤ 16384) × (p + m ≤ 8 * length bitmap.old) }
    ensures { bitmap.new ≡ appended bitmap.old p (word m (λ _. selected)) m }
{
    if m <= 56 {
        mark_few(bitmap, p, m, selected);
    } else {
        let first = 8 - p % 8;
        mark_few(bitmap, p, first, selected);
        mark_bytes(bitmap, p / 8 + 1, m - first, selected);
    }
}
