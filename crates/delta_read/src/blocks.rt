// One block of a delta page: how many of its miniblocks are needed, and how it lies on the page.
ghost use Rattle.std.specs.Prelude.{◌≡◌, ◌≤◌, ◌<◌};
ghost use Rattle.rules.specs.Delta.{needed, block_at, block_of};

use crate::width_bytes::{judge_widths, width_sum};
use rules::{Block, Number, Refusal};
use varints::reading::{number_at, refusal_of};

// How many of a block's miniblocks, of m entries each, hold one of the deltas that are left.
pub fn needed_of(minis: usize, m: usize, left: usize) -> usize
    requires { (0 < m) × (m ≤ 16384) × (left ≤ 16384) }
    ensures { result ≡ needed minis m left }
{
    minis.min((left + (m - 1)) / m)
}

// The block at a place of the page: its smallest delta, its width bytes, and the bodies of the needed
// miniblocks.
pub fn block_at(
    page: &[u8],
    at: usize,
    minis: usize,
    need: usize,
    m: usize,
) -> Result<Block, Refusal>
    requires { (need ≤ minis) × (minis ≤ 16384) × (m ≤ 16384) }
    ensures { block_of result ≡ block_at 32 minis need m page.now at }
{
    let least_field = number_at(page, at);
    let Number::Read(least, widths) = least_field else {
        return Err(refusal_of(least_field));
    };
    judge_widths(page, widths, minis, need)?;
    let bodies = m / 8 * width_sum(page, widths, need);
    if page.len() - (widths + minis) < bodies {
        return Err(Refusal::InputEndsTooEarly);
    }
    Ok(Block {
        least,
        widths,
        next: widths + minis + bodies,
    })
}
