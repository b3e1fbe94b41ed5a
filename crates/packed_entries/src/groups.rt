// Groups of eight entries, w bytes each, whose windows end within the page.
ghost use Rattle.std.specs.Prelude.{◌≡◌, ◌+◌, ◌*◌, ◌≤◌, length};
ghost use Rattle.rules.specs.Bits.{entry, field, put, tabulate};
ghost use Rattle.rules.specs.Bits.Order.{low_first};

use words::entries::entry_in;

// The eight entries from byte `at` on, into the places from place i on.
fn unpack_eight(page: &[u8], at: usize, w: usize, entries: &mut [u32], i: usize)
    requires { (w ≤ 32) × (at + w + 8 ≤ length page.now) × (i + 8 ≤ length entries.old) }
    ensures { entries.new
        ≡ put entries.old i
        (tabulate 8 (λ j. field low_first page.now (8 * at + j * w) w)) }
{
    for j in 0..8 {
        entries[i + j] = entry_in(page, at, j * w, w);
    }
}

// The first m groups, into the first 8 × m places.
pub fn unpack_groups(page: &[u8], m: usize, w: usize, entries: &mut [u32])
    requires { (w ≤ 32) × (m * w + 8 ≤ length page.now) × (8 * m ≤ length entries.old) }
    ensures { entries.new
        ≡ put entries.old 0 (tabulate (8 * m) (entry low_first page.now w)) }
{
    for g in 0..m {
        unpack_eight(page, g * w, w, entries, 8 * g);
    }
}
