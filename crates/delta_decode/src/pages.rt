// The entries of all blocks of a judged page, written in either way.
ghost use Rattle.std.specs.Prelude.{◌≡◌, true, ◌-◌, ◌≤◌, ◌<◌};
ghost use Rattle.rules.specs.Delta.{shaped, blocks_at};
ghost use Rattle.rules.specs.Delta.Deltas.{good};
ghost use Rattle.signed.specs.Reached.{reached};
ghost use Rattle.signed.specs.Entries.{step};
ghost use Rattle.delta_decode.specs.PageEntries.{deltas_of};

use crate::blocks::write_block;
use crate::miniblocks::Miniblocks;
use delta_octets::writing::Writing;
use delta_read::blocks::{block_at, needed_of};

// The entries of all blocks from `from` on, and the one that may be left after them.
pub fn write_blocks<T: Writing>(
    writing: T,
    page: &[u8],
    start: usize,
    size: usize,
    minis: usize,
    n: usize,
    from: u32,
    out: &mut [T::Out],
)
    requires { (0 < n) × (n ≤ 16384) × (shaped size minis ≡ true) × T.Room writing 0 n out.old
        × (blocks_at 32 size minis (n - 1) (n - 1) page.now start
        ≡ good (deltas_of (blocks_at 32 size minis (n - 1) (n - 1) page.now start))) }
    ensures { out.new
        ≡ T.write writing 0 n
        (reached 32 from
        (step 32 (deltas_of (blocks_at 32 size minis (n - 1) (n - 1) page.now start))))
        out.old }
{
    let m = size / minis;
    let mut x = from;
    let mut at = start;
    let mut left = n - 1;
    let mut i: usize = 0;
    while 0 < left {
        let need = needed_of(minis, m, left);
        let Ok(block) = block_at(page, at, minis, need, m) else {
            return;
        };
        let needed = Miniblocks {
            least: block.least,
            widths: block.widths,
            bodies: block.widths + minis,
            need,
            size: m,
        };
        x = write_block(writing, page, needed, x, left + 1, out, i);
        i += need * m;
        left = left.saturating_sub(size);
        at = block.next;
    }
    if i < n {
        writing.write_one(x, out, i);
    }
}
