// A page's entries into places.
ghost use Rattle.std.specs.Prelude.{◌≡◌, ◌+◌, ◌*◌, ◌≤◌, length};
ghost use Rattle.rules.specs.Bits.{entry, put, tabulate};
ghost use Rattle.rules.specs.Bits.Order.{low_first};

use crate::by_width::unpack_of_width;
use words::entries::entry_any;

// How many groups, of q, have their windows within a page of `len` bytes. Where a stream goes on behind
// them all have, and nothing is divided.
fn groups_within(len: usize, w: usize, q: usize) -> usize
    requires { (w ≤ 32) × (q ≤ 2048) × (8 ≤ len) }
    ensures { (result ≤ q) × (result * w + 8 ≤ len) }
{
    if q * w + 8 <= len { q } else { (len - 8) / w }
}

// The entries, of n, in groups whose windows end within the page, into the first places: how many they are.
fn unpack_front(page: &[u8], w: u32, n: usize, entries: &mut [u32]) -> usize
    requires { (w ≤ 32) × (n ≤ 16384) × (n ≤ length entries.old) }
    ensures within { result ≤ n }
    ensures written { entries.new
        ≡ put entries.old 0 (tabulate result (entry low_first page.now w)) }
{
    if page.len() < 8 {
        return 0;
    }
    let m = groups_within(page.len(), w as usize, n / 8);
    unpack_of_width(page, m, w as usize, entries);
    8 * m
}

// The n entries of width w that a page holds end to end, into the first n places.
pub fn unpack(page: &[u8], w: u32, n: usize, entries: &mut [u32])
    requires { (w ≤ 32) × (n ≤ 16384) × (n ≤ length entries.old) }
    ensures { entries.new
        ≡ put entries.old 0 (tabulate n (entry low_first page.now w)) }
{
    let front = unpack_front(page, w, n, entries);
    for i in front..n {
        entries[i] = entry_any(page, i * w as usize, w);
    }
}
