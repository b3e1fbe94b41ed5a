// The index page: one width byte, and then a run stream.
ghost use Rattle.std.specs.Prelude.{◌≡◌, ◌≤◌, ◌<◌, length};
ghost use Rattle.rules.specs.Bitmap as Bitmap;
ghost use Rattle.rules.specs.Bits.{ceil, put};
ghost use Rattle.rules.specs.Answer.{◌then◌};
ghost use Rattle.rules.specs.Refusals.{fault};
ghost use Rattle.rules.specs.Runs.{stream_fault};
ghost use Rattle.rules.specs.Dictionary.{indexes, index_at};
ghost use Rattle.compare.specs.Range.{ranged, UsableRange};
ghost use Rattle.dictionary_indexes.specs.IndexFaults.{large_fault};

use crate::large::judge_runs;
use compare::ranges::Range;
use limits::Unsigned;
use rules::Refusal;
use runs_read::judging::judge_stream;
use runs_walk::marking::mark_runs;

// Its width byte, then the stream's first fault in reading order, and last whether some index is not below the limit.
// Where the width cannot spell such an index, none is looked for.
pub fn judge_page(page: &[u8], n: usize, limit: usize) -> Result<(), Refusal>
    requires { (n ≤ 16384) × (limit ≤ 16384) }
    ensures { fault result
        ≡ (stream_fault (indexes n page.now) then large_fault limit n page.now) }
{
    if page.len() == 0 {
        return Err(Refusal::InputEndsTooEarly);
    }
    let width = page[0] as u32;
    if Unsigned::MAX_WIDTH < width {
        return Err(Refusal::WidthAboveLimit);
    }
    if 1u64 << width <= limit as u64 {
        return judge_stream(&page[1..], width as usize, n);
    }
    let mut scratch = [0u8; 2048];
    judge_runs(&page[1..], width as usize, n, limit, &mut scratch)
}

// Which indexes of a page without a fault a range selects, a bit for each.
pub fn select_range(page: &[u8], n: usize, range: Range, bitmap: &mut [u8])
    requires { (n ≤ 16384) × (ceil n 8 ≤ length bitmap.old) × (stream_fault (indexes n page.now) ≡ 0)
        × UsableRange range }
    ensures { bitmap.new
        ≡ put bitmap.old 0 (Bitmap.bitmap n (λ i. ranged range (index_at n page.now i))) }
{
    mark_runs(&page[1..], page[0] as usize, n, range, bitmap);
}
