// A whole delta page judged.
ghost use Rattle.std.specs.Prelude.{◌≡◌, true, ◌≤◌};
ghost use Rattle.rules.specs.Delta.{shaped, blocks_at, read, page_fault};
ghost use Rattle.rules.specs.Refusals.{fault};
ghost use Rattle.delta_read.specs.DeltasFault.{deltas_fault};

use crate::blocks::{block_at, needed_of};
use crate::heads::head_at;
use rules::Refusal;

// The blocks that hold so many deltas, one after another, and that nothing follows them.
fn judge_blocks(
    page: &[u8],
    from: usize,
    size: usize,
    minis: usize,
    deltas: usize,
) -> Result<(), Refusal>
    requires { (deltas ≤ 16384) × (shaped size minis ≡ true) }
    ensures { fault result
        ≡ deltas_fault (blocks_at 32 size minis deltas deltas page.now from) }
{
    let m = size / minis;
    let mut at = from;
    let mut left = deltas;
    while 0 < left {
        let need = needed_of(minis, m, left);
        let block = block_at(page, at, minis, need, m)?;
        left = left.saturating_sub(size);
        at = block.next;
    }
    if at < page.len() {
        return Err(Refusal::InputLeftOver);
    }
    Ok(())
}

// Header and blocks in reading order: n entries have n - 1 deltas, and none have none.
pub fn judge_page(page: &[u8], n: usize) -> Result<(), Refusal>
    requires { n ≤ 16384 }
    ensures { fault result ≡ page_fault (read 32 n page.now) }
{
    let head = head_at(page, n)?;
    judge_blocks(
        page,
        head.next,
        head.size as usize,
        head.minis as usize,
        n.saturating_sub(1),
    )
}
