// The entries of a judged page, of which a range selects some, into the bitmap.
ghost use Rattle.std.specs.Prelude.{◌≡◌, ◌≤◌, length};
ghost use Rattle.rules.specs.Bits.{ceil, put};
ghost use Rattle.rules.specs.Bitmap as Bitmap;
ghost use Rattle.rules.specs.Delta.{read, page_fault, page_entry};
ghost use Rattle.signed.specs.Raised.{raised};
ghost use Rattle.compare.specs.Range.{ranged, BoundedRange};

use crate::pages::write_blocks;
use compare::ranges::Range;
use delta_octets::steps::raised_number;
use delta_read::heads::head_at;

// The bitmap of the page's n entries, kept raised.
pub fn select(page: &[u8], n: usize, range: Range, bitmap: &mut [u8])
    requires { (n ≤ 16384) × (ceil n 8 ≤ length bitmap.old) × (page_fault (read 32 n page.now) ≡ 0)
        × BoundedRange range }
    ensures { bitmap.new
        ≡ put bitmap.old 0
        (Bitmap.bitmap n
        (λ i. ranged range (raised 32 (page_entry 32 (read 32 n page.now) i)))) }
{
    if n == 0 {
        return;
    }
    let Ok(head) = head_at(page, n) else {
        return;
    };
    let from = raised_number(head.first);
    write_blocks(
        range,
        page,
        head.next,
        head.size as usize,
        head.minis as usize,
        n,
        from,
        bitmap,
    );
}
