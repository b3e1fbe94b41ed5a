// The selection bitmap: one bit, how many bits are set, and the unused bits of the last byte.
#![tactic(auto)]

ghost use Rattle.std.specs.Prelude.{◌≡◌, ◌≤◌, length, take};
ghost use Rattle.rules.specs.Bits.{ceil, flag, bit_at};
ghost use Rattle.rules.specs.Bits.Order.{low_first};
ghost use Rattle.bitmaps.specs.Counts.{count_ones};
ghost use Rattle.bitmaps.specs.Trimmed.{trimmed};

// Is bit i set; past the end none is.
pub fn is_set(bitmap: &[u8], i: usize) -> bool
    ensures { flag result ≡ bit_at low_first 8 bitmap.now i }
{
    match bitmap.get(i / 8) {
        Some(byte) => (*byte >> (i % 8)) % 2 == 1,
        None => false,
    }
}

// How many bits of the first m bytes are set: word by word, then byte by byte.
fn ones_in(bitmap: &[u8], m: usize) -> u32
    requires { (m ≤ length bitmap.now) × (m ≤ 2048) }
    ensures { result ≡ count_ones (take m bitmap.now) }
{
    let (words, rest) = bitmap[..m].as_chunks();
    let mut ones: u32 = 0;
    for word in words {
        ones += u64::from_le_bytes(*word).count_ones();
    }
    for byte in rest {
        ones += byte.count_ones();
    }
    ones
}

// The number of every scan of n entries, once its bitmap is in place: how many bits are set.
pub fn counted(bitmap: &[u8], n: usize) -> u32
    requires { (n ≤ 16384) × (ceil n 8 ≤ length bitmap.now) }
    ensures { result ≡ count_ones (take (ceil n 8) bitmap.now) }
{
    ones_in(bitmap, (n + 7) / 8)
}

// Clears the bits past n in the byte that holds bit n.
pub fn trim(bitmap: &mut [u8], n: usize)
    requires { ceil n 8 ≤ length bitmap.old }
    ensures { bitmap.new ≡ trimmed n bitmap.old }
{
    if n % 8 != 0 {
        bitmap[n / 8] %= 1 << (n % 8);
    }
}
