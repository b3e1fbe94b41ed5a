// Which entries of a page satisfy a comparison.
ghost use Rattle.std.specs.Prelude.{◌≡◌, ◌*◌, pos};
ghost use Rattle.rules.specs.Answer.{limit_fault};
ghost use Rattle.rules.specs.Answer.Outcome.{outcome};
ghost use Rattle.rules.specs.Bits.{entry};
ghost use Rattle.rules.specs.Bits.Order.{low_first};
ghost use Rattle.rules.specs.Horizontal as Horizontal;
ghost use Rattle.rules.specs.Refusals.{answer_of};
ghost use Rattle.words.specs.Entries.{field-small};
ghost use Rattle.scannable.specs.Bounds.{unsigned_bounds};

use crate::judging::judge_page;
use arguments::arguments_of;
use compare::bands::Band;
use compare::ranges::range_of;
use packed_select::select;
use rules::Refusal;
use scannable::Scannable;

#[derive(Clone, Copy)]
struct HorizontalPage<'a> {
    page: &'a [u8],
    width: u32,
}

impl<'a> Scannable for HorizontalPage<'a> {
    ghost limits = { λ s n. limit_fault s.width n };

    ghost page_fault = { λ s n. Horizontal.page_fault low_first s.page.now s.width n };

    ghost entry = { λ s n i. pos (entry low_first s.page.now s.width i) };

    ghost bounds = { λ s n.
        unsigned_bounds s.width n _ (λ narrow i. field-small s.page.now (i * s.width) s.width narrow) };

    fn judge_arguments(self, n: usize, op: u32, a: i64, b: i64) -> Result<Band, Refusal> {
        arguments_of(self.width, n, op, a, b)
    }

    #[tactic(auto, using(scannable::specs::Bounds::limits))]
    fn judge_page(self, n: usize) -> Result<(), Refusal> {
        judge_page(self.page, self.width, n)
    }

    fn select(self, n: usize, band: Band, bitmap: &mut [u8]) {
        select(self.page, self.width as usize, n, range_of(band), bitmap)
    }
}

// How many entries are selected.
#[tactic(auto, unfolding(rules::specs::Horizontal::scan))]
pub fn scan(
    page: &[u8],
    width: u32,
    n: usize,
    op: u32,
    a: i64,
    b: i64,
    bitmap: &mut [u8],
) -> Result<u32, Refusal>
    ensures { outcome (answer_of result) bitmap.new
        ≡ Horizontal.scan low_first page.now width n op a b bitmap.old }
{
    scannable::scan(HorizontalPage { page, width }, n, op, a, b, bitmap)
}
