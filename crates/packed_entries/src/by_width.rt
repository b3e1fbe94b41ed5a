// A copy of the groups' loop for each width, there and back: with a literal width its shifts and masks are
// constants.
ghost use Rattle.std.specs.Prelude.{◌≡◌, false, ◌+◌, ◌*◌, ◌≤◌, ◌<◌, length, take};
ghost use Rattle.rules.specs.Bits.{entry, put, tabulate};
ghost use Rattle.rules.specs.Bits.Order.{low_first};
ghost use Rattle.rules.specs.Answer.{any_large};
ghost use Rattle.rules.specs.Horizontal.{packed};

use crate::chunks::pack_groups;
use crate::groups::unpack_groups;

// The first m groups of eight entries, into the first 8 × m places.
pub fn unpack_of_width(page: &[u8], m: usize, w: usize, entries: &mut [u32])
    requires { (w ≤ 32) × (m * w + 8 ≤ length page.now) × (8 * m ≤ length entries.old) }
    ensures { entries.new
        ≡ put entries.old 0 (tabulate (8 * m) (entry low_first page.now w)) }
{
    match w {
        0 => unpack_groups(page, m, 0, entries),
        1 => unpack_groups(page, m, 1, entries),
        2 => unpack_groups(page, m, 2, entries),
        3 => unpack_groups(page, m, 3, entries),
        4 => unpack_groups(page, m, 4, entries),
        5 => unpack_groups(page, m, 5, entries),
        6 => unpack_groups(page, m, 6, entries),
        7 => unpack_groups(page, m, 7, entries),
        8 => unpack_groups(page, m, 8, entries),
        9 => unpack_groups(page, m, 9, entries),
        10 => unpack_groups(page, m, 10, entries),
        11 => unpack_groups(page, m, 11, entries),
        12 => unpack_groups(page, m, 12, entries),
        13 => unpack_groups(page, m, 13, entries),
        14 => unpack_groups(page, m, 14, entries),
        15 => unpack_groups(page, m, 15, entries),
        16 => unpack_groups(page, m, 16, entries),
        17 => unpack_groups(page, m, 17, entries),
        18 => unpack_groups(page, m, 18, entries),
        19 => unpack_groups(page, m, 19, entries),
        20 => unpack_groups(page, m, 20, entries),
        21 => unpack_groups(page, m, 21, entries),
        22 => unpack_groups(page, m, 22, entries),
        23 => unpack_groups(page, m, 23, entries),
        24 => unpack_groups(page, m, 24, entries),
        25 => unpack_groups(page, m, 25, entries),
        26 => unpack_groups(page, m, 26, entries),
        27 => unpack_groups(page, m, 27, entries),
        28 => unpack_groups(page, m, 28, entries),
        29 => unpack_groups(page, m, 29, entries),
        30 => unpack_groups(page, m, 30, entries),
        31 => unpack_groups(page, m, 31, entries),
        32 => unpack_groups(page, m, 32, entries),
        _ => unpack_groups(page, m, w, entries),
    }
}

// The page that the first m groups make, into the page's first bytes.
pub fn pack_of_width(entries: &[u32], m: usize, w: usize, page: &mut [u8])
    requires { (0 < w) × (w ≤ 32) × (8 * m ≤ length entries.now) × (any_large w entries.now ≡ false)
        × (m * w ≤ length page.old) }
    ensures { page.new
        ≡ put page.old 0 (packed low_first w (take (8 * m) entries.now)) }
{
    match w {
        1 => pack_groups(entries, m, 1, page),
        2 => pack_groups(entries, m, 2, page),
        3 => pack_groups(entries, m, 3, page),
        4 => pack_groups(entries, m, 4, page),
        5 => pack_groups(entries, m, 5, page),
        6 => pack_groups(entries, m, 6, page),
        7 => pack_groups(entries, m, 7, page),
        8 => pack_groups(entries, m, 8, page),
        9 => pack_groups(entries, m, 9, page),
        10 => pack_groups(entries, m, 10, page),
        11 => pack_groups(entries, m, 11, page),
        12 => pack_groups(entries, m, 12, page),
        13 => pack_groups(entries, m, 13, page),
        14 => pack_groups(entries, m, 14, page),
        15 => pack_groups(entries, m, 15, page),
        16 => pack_groups(entries, m, 16, page),
        17 => pack_groups(entries, m, 17, page),
        18 => pack_groups(entries, m, 18, page),
        19 => pack_groups(entries, m, 19, page),
        20 => pack_groups(entries, m, 20, page),
        21 => pack_groups(entries, m, 21, page),
        22 => pack_groups(entries, m, 22, page),
        23 => pack_groups(entries, m, 23, page),
        24 => pack_groups(entries, m, 24, page),
        25 => pack_groups(entries, m, 25, page),
        26 => pack_groups(entries, m, 26, page),
        27 => pack_groups(entries, m, 27, page),
        28 => pack_groups(entries, m, 28, page),
        29 => pack_groups(entries, m, 29, page),
        30 => pack_groups(entries, m, 30, page),
        31 => pack_groups(entries, m, 31, page),
        32 => pack_groups(entries, m, 32, page),
        _ => pack_groups(entries, m, w, page),
    }
}
