// The entries of a judged page, into places.
ghost use Rattle.std.specs.Prelude.{◌≡◌, ◌≤◌, length};
ghost use Rattle.rules.specs.Bits.{put, tabulate};
ghost use Rattle.rules.specs.Delta.{read, page_fault, page_entry};

use crate::pages::write_blocks;
use delta_octets::steps::kept_number;
use delta_octets::writing::Places;
use delta_read::heads::head_at;

// The page's n entries, into the first n places.
pub fn place(page: &[u8], n: usize, entries: &mut [i32])
    requires { (n ≤ 16384) × (n ≤ length entries.old) × (page_fault (read 32 n page.now) ≡ 0) }
    ensures { entries.new
        ≡ put entries.old 0 (tabulate n (page_entry 32 (read 32 n page.now))) }
{
    if n == 0 {
        return;
    }
    let Ok(head) = head_at(page, n) else {
        return;
    };
    let from = kept_number(head.first);
    write_blocks(
        Places,
        page,
        head.next,
        head.size as usize,
        head.minis as usize,
        n,
        from,
        entries,
    );
}
