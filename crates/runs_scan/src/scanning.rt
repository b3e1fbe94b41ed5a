// Which entries of a stream satisfy a comparison.
ghost use Rattle.std.specs.Prelude.{◌≡◌, pos};
ghost use Rattle.rules.specs.Answer.{limit_fault};
ghost use Rattle.rules.specs.Answer.Outcome.{outcome};
ghost use Rattle.rules.specs.Refusals.{answer_of};
ghost use Rattle.rules.specs.Runs as Runs;
ghost use Rattle.runs_walk.specs.Values.{entry-small};
ghost use Rattle.scannable.specs.Bounds.{unsigned_bounds};

use arguments::arguments_of;
use compare::bands::Band;
use compare::ranges::range_of;
use rules::Refusal;
use runs_read::judging::judge_stream;
use runs_walk::marking::mark_runs;
use scannable::Scannable;

#[derive(Clone, Copy)]
struct RunStream<'a> {
    page: &'a [u8],
    width: u32,
}

impl<'a> Scannable for RunStream<'a> {
    ghost limits = { λ s n. limit_fault s.width n };

    ghost page_fault = { λ s n. Runs.stream_fault (Runs.read s.width n s.page.now) };

    ghost entry = { λ s n i. pos (Runs.stream_entry s.width (Runs.read s.width n s.page.now) i) };

    ghost bounds = { λ s n. unsigned_bounds s.width n _ (λ narrow i. entry-small _ n _ i narrow) };

    fn judge_arguments(self, n: usize, op: u32, a: i64, b: i64) -> Result<Band, Refusal> {
        arguments_of(self.width, n, op, a, b)
    }

    #[tactic(auto, using(scannable::specs::Bounds::limits))]
    fn judge_page(self, n: usize) -> Result<(), Refusal> {
        judge_stream(self.page, self.width as usize, n)
    }

    // Each run sets its bits.
    fn select(self, n: usize, band: Band, bitmap: &mut [u8]) {
        mark_runs(self.page, self.width as usize, n, range_of(band), bitmap)
    }
}

// How many entries are selected.
#[tactic(auto, unfolding(rules::specs::Runs::scan))]
pub fn scan(
    page: &[u8],
    width: u32,
    n: usize,
    op: u32,
    a: i64,
    b: i64,
    bitmap: &mut [u8],
) -> Result<u32, Refusal>
    ensures { outcome (answer_of result) bitmap.new
        ≡ Runs.scan page.now width n op a b bitmap.old }
{
    scannable::scan(RunStream { page, width }, n, op, a, b, bitmap)
}
