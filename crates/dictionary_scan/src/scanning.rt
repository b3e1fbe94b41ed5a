// Which entries of a dictionary column satisfy a comparison.
ghost use Rattle.std.specs.Prelude.{◌≡◌};
ghost use Rattle.rules.specs.Answer.{count_fault};
ghost use Rattle.rules.specs.Answer.Outcome.{outcome};
ghost use Rattle.rules.specs.Dictionary as Dictionary;
ghost use Rattle.rules.specs.Refusals.{answer_of};
ghost use Rattle.scannable.specs.Bounds.{signed_bounds};
ghost use Rattle.dictionary_scan.specs.Values.{value-within};

use crate::judging::judge_column;
use crate::searching::index_range;
use arguments::signed_arguments_of;
use compare::bands::Band;
use dictionary_indexes::index_page::select_range;
use rules::Refusal;
use scannable::Scannable;

#[derive(Clone, Copy)]
struct DictionaryColumn<'a> {
    dict: &'a [u8],
    page: &'a [u8],
}

impl<'a> Scannable for DictionaryColumn<'a> {
    ghost limits = { λ s. count_fault };

    ghost page_fault = { λ s n. Dictionary.column_fault s.dict.now n s.page.now };

    ghost entry = { λ s n i. Dictionary.value s.dict.now (Dictionary.index_at n s.page.now i) };

    ghost bounds = { λ s n.
        signed_bounds n (λ i. Dictionary.value s.dict.now (Dictionary.index_at n s.page.now i))
        (λ few i. value-within s.dict.now (Dictionary.index_at n s.page.now i)) };

    fn judge_arguments(self, n: usize, op: u32, a: i64, b: i64) -> Result<Band, Refusal> {
        signed_arguments_of(n, op, a, b)
    }

    #[tactic(auto, using(scannable::specs::Bounds::limits))]
    fn judge_page(self, n: usize) -> Result<(), Refusal> {
        judge_column(self.dict, self.page, n)
    }

    // The constants' places are found once, and the index page is gone over by them.
    fn select(self, n: usize, band: Band, bitmap: &mut [u8]) {
        select_range(self.page, n, index_range(self.dict, band), bitmap)
    }
}

// How many entries are selected.
#[tactic(auto, unfolding(rules::specs::Dictionary::scan))]
pub fn scan(
    dict: &[u8],
    page: &[u8],
    n: usize,
    op: u32,
    a: i64,
    b: i64,
    bitmap: &mut [u8],
) -> Result<u32, Refusal>
    ensures { outcome (answer_of result) bitmap.new
        ≡ Dictionary.scan dict.now page.now n op a b bitmap.old }
{
    scannable::scan(DictionaryColumn { dict, page }, n, op, a, b, bitmap)
}
