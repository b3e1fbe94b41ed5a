// Entries into a page by groups of eight, w bytes each: several entries are joined to one number of at most
// 56 bits, which is laid at once.
ghost use Rattle.std.specs.Prelude.{◌≡◌, false, ◌+◌, ◌*◌, ◌/◌, ◌≤◌, ◌<◌, length, take, drop};
ghost use Rattle.rules.specs.Bits.{joined, put};
ghost use Rattle.rules.specs.Bits.Order.{low_first};
ghost use Rattle.rules.specs.Answer.{any_large};
ghost use Rattle.rules.specs.Horizontal.{packed, page_bytes};

use words::bits::append_at;

// How many entries of width w are laid at once: they have at most 56 bits, and eight are a number of times
// as many.
fn at_once(w: usize) -> usize
    requires { w ≤ 32 }
    ensures { (0 < result) × (result * w ≤ 56) × (8 / result * result ≡ 8) }
{
    match w {
        0..=7 => 8,
        8..=14 => 4,
        15..=28 => 2,
        _ => 1,
    }
}

// The k entries from place i on, joined to one number.
fn chunk(entries: &[u32], i: usize, k: usize, w: usize) -> u64
    requires { (k * w ≤ 56) × (i + k ≤ length entries.now) × (any_large w entries.now ≡ false) }
    ensures { result ≡ joined w (take k (drop i entries.now)) }
{
    let mut x: u64 = 0;
    for (j, entry) in entries[i..i + k].iter().enumerate() {
        x |= (*entry as u64) << (j * w);
    }
    x
}

// The page that c chunks of k entries from place i on make, into the part's first bytes.
pub fn pack_chunks(entries: &[u32], i: usize, k: usize, c: usize, w: usize, part: &mut [u8])
    requires { (c ≤ 8) × (0 < k) × (0 < w) × (k * w ≤ 56) × (i + c * k ≤ length entries.now)
        × (any_large w entries.now ≡ false) × (page_bytes w (c * k) ≤ length part.old) }
    ensures { part.new
        ≡ put part.old 0 (packed low_first w (take (c * k) (drop i entries.now))) }
{
    let bits = k * w;
    for j in 0..c {
        append_at(part, j * bits, chunk(entries, i + j * k, k, w), bits as u32);
    }
}

// The page that the first m groups make, into the page's first bytes.
pub fn pack_groups(entries: &[u32], m: usize, w: usize, page: &mut [u8])
    requires { (0 < w) × (w ≤ 32) × (8 * m ≤ length entries.now) × (any_large w entries.now ≡ false)
        × (m * w ≤ length page.old) }
    ensures { page.new
        ≡ put page.old 0 (packed low_first w (take (8 * m) entries.now)) }
{
    let k = at_once(w);
    for g in 0..m {
        let at = g * w;
        pack_chunks(entries, 8 * g, k, 8 / k, w, &mut page[at..]);
    }
}
