// Which entries of a delta page satisfy a comparison.
ghost use Rattle.std.specs.Prelude.{◌≡◌};
ghost use Rattle.std.proofs.Common.{rules};
ghost use Rattle.rules.specs.Answer.{count_fault};
ghost use Rattle.rules.specs.Answer.Outcome.{outcome};
ghost use Rattle.rules.specs.Delta as Delta;
ghost use Rattle.rules.specs.Refusals.{answer_of};
ghost use Rattle.scannable.specs.Bounds.{signed_bounds};
ghost use Rattle.delta_decode.specs.EntriesInRange.{page-within};

use arguments::signed_arguments_of;
use compare::bands::Band;
use compare::signed_ranges::signed_range_of;
use delta_decode::selecting::select;
use delta_read::judging::judge_page;
use rules::Refusal;
use scannable::Scannable;

#[derive(Clone, Copy)]
struct DeltaPage<'a> {
    page: &'a [u8],
}

impl<'a> Scannable for DeltaPage<'a> {
    ghost limits = { λ s. count_fault };

    ghost page_fault = { λ s n. Delta.page_fault (Delta.read 32 n s.page.now) };

    ghost entry = { λ s n. Delta.page_entry 32 (Delta.read 32 n s.page.now) };

    ghost bounds = { λ s n.
        signed_bounds n (Delta.page_entry 32 (Delta.read 32 n s.page.now))
        (λ few. page-within 32 n s.page.now (Prim.search rules)) };

    fn judge_arguments(self, n: usize, op: u32, a: i64, b: i64) -> Result<Band, Refusal> {
        signed_arguments_of(n, op, a, b)
    }

    #[tactic(auto, using(scannable::specs::Bounds::limits))]
    fn judge_page(self, n: usize) -> Result<(), Refusal> {
        judge_page(self.page, n)
    }

    fn select(self, n: usize, band: Band, bitmap: &mut [u8]) {
        select(self.page, n, signed_range_of(band), bitmap)
    }
}

// How many entries are selected.
#[tactic(auto, unfolding(rules::specs::Delta::scan))]
pub fn scan(
    page: &[u8],
    n: usize,
    op: u32,
    a: i64,
    b: i64,
    bitmap: &mut [u8],
) -> Result<u32, Refusal>
    ensures { outcome (answer_of result) bitmap.new
        ≡ Delta.scan 32 page.now n op a b bitmap.old }
{
    scannable::scan(DeltaPage { page }, n, op, a, b, bitmap)
}
