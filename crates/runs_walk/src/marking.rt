// Each run of a stream sets its own bits.
ghost use Rattle.std.specs.Prelude.{◌≡◌, ◌≤◌, length};
ghost use Rattle.rules.specs.Bits.{ceil};
ghost use Rattle.compare.specs.Range.{ranged, UsableRange};
ghost use Rattle.runs_walk.specs.Marked.{marks, marks-values, marked};

use crate::walking::{RunWriting, write_runs};
use compare::ranges::{Range, passes};
use runs_mark::packed::mark_packed;
use runs_mark::same::mark_same;

// Bits of the bitmap, for the entries that the range selects: the bitmap's part from the run's first byte is
// lent on.
impl RunWriting for Range {
    type Out = u8;

    ghost each = { 8 };

    ghost Sound = { UsableRange };

    ghost write = { λ range. marks (ranged range) };

    ghost of_values = { λ range. marks-values (ranged range) };

    fn write_same(self, value: u32, m: usize, bitmap: &mut [u8], i: usize) {
        let from = i / 8;
        mark_same(&mut bitmap[from..], i % 8, m, passes(self, value));
    }

    // What follows the entries on the page is lent with them.
    fn write_packed(
        self,
        page: &[u8],
        start: usize,
        w: usize,
        m: usize,
        bitmap: &mut [u8],
        i: usize,
    ) {
        let end = (start + (m * w + 7) / 8 + 8).min(page.len());
        let from = i / 8;
        mark_packed(&page[start..end], w, m, self, &mut bitmap[from..], i % 8);
    }
}

// All runs, in turn; a fault ends the pass.
pub fn mark_runs(page: &[u8], w: usize, n: usize, range: Range, bitmap: &mut [u8])
    requires { (w ≤ 32) × (n ≤ 16384) × (ceil n 8 ≤ length bitmap.old) × UsableRange range }
    ensures { bitmap.new
        ≡ marked (ranged range) w n page.now bitmap.old }
{
    write_runs(range, page, w, n, bitmap);
}
