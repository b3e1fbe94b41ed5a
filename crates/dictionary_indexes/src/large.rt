// The run stream of an index page judged, and on the way whether an index is too large: not below the
// dictionary's count.
ghost use Rattle.std.specs.Prelude.{◌≡◌, ◌&&◌, ◌+◌, ◌*◌, ◌/◌, ◌%◌, ◌^◌, ◌≤◌, leb, ltb, eqb, length};
ghost use Rattle.rules.specs.Bits.{ceil, field, some_below};
ghost use Rattle.rules.specs.Bits.Order.{low_first};
ghost use Rattle.rules.specs.Answer.{faulty, ◌then◌};
ghost use Rattle.rules.specs.Refusals.{fault};
ghost use Rattle.rules.specs.Runs.{read, stream_fault, stream_entry};

use crate::windows::some_groups;
use bitmaps::counted;
use compare::ranges::range_to;
use packed_select::select;
use rules::Refusal;
use runs_read::plain::{Found, found_at};

// Do windows of eight bytes within the page's last `rest` bytes, which begin with m indexes, hold all of
// them: whole groups, of at most sixteen bits.
fn in_windows(rest: usize, w: usize, m: usize) -> bool
    requires { m ≤ 16384 }
    ensures { result ≡ (ltb 0 w && leb w 16 && eqb (m % 8) 0 && leb (m / 8 * w + 8) rest) }
{
    0 < w && w <= 16 && m % 8 == 0 && m / 8 * w + 8 <= rest
}

// Is one of the first m indexes too large, of a packed run whose body begins at byte `start`. None is
// unpacked: those too large are set in `scratch`, and counted.
fn some_counted(
    page: &[u8],
    start: usize,
    w: usize,
    m: usize,
    limit: usize,
    scratch: &mut [u8],
) -> bool
    requires { (w ≤ 32) × (m ≤ 16384) × (limit ≤ 16384) × (start + ceil (m * w) 8 ≤ length page.now)
        × (ceil m 8 ≤ length scratch.old) }
    ensures { result
        ≡ some_below m (λ k. leb limit (field low_first page.now (8 * start + k * w) w)) }
{
    let end = (start + (m * w + 7) / 8 + 8).min(page.len());
    select(
        &page[start..end],
        w,
        m,
        range_to(0, limit as u64, true),
        scratch,
    );
    0 < counted(scratch, m)
}

// The same, through windows where they hold the run.
fn some_packed(
    page: &[u8],
    start: usize,
    w: usize,
    m: usize,
    limit: usize,
    scratch: &mut [u8],
) -> bool
    requires { (w ≤ 32) × (m ≤ 16384) × (limit ≤ 16384) × (limit ≤ 2 ^ w)
        × (start + ceil (m * w) 8 ≤ length page.now) × (ceil m 8 ≤ length scratch.old) }
    ensures { result
        ≡ some_below m (λ k. leb limit (field low_first page.now (8 * start + k * w) w)) }
{
    if in_windows(page.len() - start, w, m) {
        some_groups(page, start, w, m / 8, limit)
    } else {
        some_counted(page, start, w, m, limit, scratch)
    }
}

// The stream's first fault in reading order, and an index that is too large only where it has none.
// `scratch` is lent to write on.
pub fn judge_runs(
    page: &[u8],
    w: usize,
    n: usize,
    limit: usize,
    scratch: &mut [u8],
) -> Result<(), Refusal>
    requires { (w ≤ 32) × (n ≤ 16384) × (limit ≤ 16384) × (limit ≤ 2 ^ w)
        × (ceil n 8 ≤ length scratch.old) }
    ensures { fault result
        ≡ (stream_fault (read w n page.now)
        then faulty (some_below n (λ i. leb limit (stream_entry w (read w n page.now) i)))
        15) }
{
    let mut at: usize = 0;
    let mut i: usize = 0;
    let mut large = false;
    while i < n {
        match found_at(page, at, w, n - i) {
            Found::Repeated { count, value, next } => {
                large |= limit <= value as usize;
                i += count;
                at = next;
            }
            Found::Packed {
                groups,
                start,
                next,
            } => {
                large |= some_packed(page, start, w, (8 * groups).min(n - i), limit, scratch);
                i += 8 * groups;
                at = next;
            }
            Found::Refused(refusal) => {
                return Err(refusal);
            }
        }
    }
    if at < page.len() {
        return Err(Refusal::InputLeftOver);
    }
    if large {
        return Err(Refusal::IndexTooLarge);
    }
    Ok(())
}
