// Entries into a page.
ghost use Rattle.std.specs.Prelude.{◌≡◌, false, ◌+◌, ◌≤◌, length, take, drop};
ghost use Rattle.rules.specs.Bits.{put};
ghost use Rattle.rules.specs.Bits.Order.{low_first};
ghost use Rattle.rules.specs.Answer.{any_large};
ghost use Rattle.rules.specs.Horizontal.{packed, page_bytes};

use crate::by_width::pack_of_width;
use crate::chunks::pack_chunks;

// The page that the entries make, into its first bytes; the last byte's unused bits are 0.
pub fn pack(entries: &[u32], w: u32, page: &mut [u8])
    requires { (w ≤ 32) × (length entries.now ≤ 16384) × (any_large w entries.now ≡ false)
        × (page_bytes w (length entries.now) ≤ length page.old) }
    ensures { page.new
        ≡ put page.old 0 (packed low_first w entries.now) }
{
    if w == 0 {
        return;
    }
    let m = entries.len() / 8;
    let at = m * w as usize;
    pack_of_width(entries, m, w as usize, page);
    pack_chunks(
        entries,
        8 * m,
        1,
        entries.len() % 8,
        w as usize,
        &mut page[at..],
    );
}

// The page that m entries from place p on make, from byte `from` of another on.
pub fn pack_part(entries: &[u32], p: usize, m: usize, w: u32, page: &mut [u8], from: usize)
    requires { (w ≤ 32) × (m ≤ 16384) × (p + m ≤ length entries.now)
        × (any_large w (take m (drop p entries.now)) ≡ false)
        × (from + page_bytes w m ≤ length page.old) }
    ensures { page.new
        ≡ put page.old from (packed low_first w (take m (drop p entries.now))) }
{
    let end = p + m;
    pack(&entries[p..end], w, &mut page[from..]);
}
