// Which entries of a column satisfy a comparison, 64 at once.
ghost use Rattle.std.specs.Prelude.{◌≡◌, ◌+◌, ◌*◌, ◌/◌, ◌%◌, ◌≤◌, pos, length};
ghost use Rattle.rules.specs.Answer.{limit_fault};
ghost use Rattle.rules.specs.Answer.Outcome.{outcome};
ghost use Rattle.rules.specs.Bits.{ceil, put};
ghost use Rattle.rules.specs.Refusals.{answer_of};
ghost use Rattle.rules.specs.Vertical as Vertical;
ghost use Rattle.scannable.specs.Bounds.{unsigned_bounds};
ghost use Rattle.vertical_compare.specs.Lanes.{lane-fits};
ghost use Rattle.vertical_scan.specs.Chosen.{chosen, lanes64};

use crate::judging::judge_page;
use arguments::arguments_of;
use compare::bands::Band;
use rules::Refusal;
use scannable::Scannable;
use vertical_compare::groups::compare_group;
use words::stores::{store_low, store8};

// The lanes of group g that the band selects, a bit for each.
fn group_bits(words: &[u64], w: usize, g: usize, band: Band) -> u64
    requires { (w ≤ 32) × (g * w + w ≤ length words.now) }
    ensures { result ≡ lanes64 words.now (g * w) w band }
{
    let at = g * w;
    let inside = compare_group(&words[at..at + w], band.low, band.high);
    if band.outside { !inside } else { inside }
}

// The q groups that n fills, eight bytes each.
fn select_full(words: &[u64], w: usize, q: usize, band: Band, bitmap: &mut [u8])
    requires { (w ≤ 32) × (q ≤ 256) × (q * w ≤ length words.now) × (8 * q ≤ length bitmap.old) }
    ensures { bitmap.new
        ≡ put bitmap.old 0 (chosen words.now (64 * q) w band) }
{
    for g in 0..q {
        store8(bitmap, 8 * g, group_bits(words, w, g, band));
    }
}

// All n entries: of the group that n ends in only the bytes that it reaches.
fn select(words: &[u64], w: usize, n: usize, band: Band, bitmap: &mut [u8])
    requires { (w ≤ 32) × (n ≤ 16384) × (length words.now ≡ Vertical.page_words w n)
        × (ceil n 8 ≤ length bitmap.old) }
    ensures { bitmap.new
        ≡ put bitmap.old 0 (chosen words.now n w band) }
{
    let q = n / 64;
    select_full(words, w, q, band, bitmap);
    let rest = n % 64;
    if rest == 0 {
        return;
    }
    let bits = group_bits(words, w, q, band) % (1 << rest);
    store_low(bitmap, 8 * q, bits, (rest + 7) / 8);
}

#[derive(Clone, Copy)]
struct Planes<'a> {
    words: &'a [u64],
    width: u32,
}

impl<'a> Scannable for Planes<'a> {
    ghost limits = { λ s n. limit_fault s.width n };

    ghost page_fault = { λ s n. Vertical.page_fault s.words.now s.width n };

    ghost entry = { λ s n i. pos (Vertical.entry s.words.now s.width i) };

    ghost bounds = { λ s n.
        unsigned_bounds s.width n _
        (λ narrow i. lane-fits s.words.now (i / 64 * s.width) s.width (i % 64) narrow) };

    fn judge_arguments(self, n: usize, op: u32, a: i64, b: i64) -> Result<Band, Refusal> {
        arguments_of(self.width, n, op, a, b)
    }

    #[tactic(auto, using(scannable::specs::Bounds::limits))]
    fn judge_page(self, n: usize) -> Result<(), Refusal> {
        judge_page(self.words, self.width, n)
    }

    fn select(self, n: usize, band: Band, bitmap: &mut [u8]) {
        select(self.words, self.width as usize, n, band, bitmap)
    }
}

// How many entries are selected.
#[tactic(auto, unfolding(rules::specs::Vertical::scan))]
pub fn scan(
    words: &[u64],
    width: u32,
    n: usize,
    op: u32,
    a: i64,
    b: i64,
    bitmap: &mut [u8],
) -> Result<u32, Refusal>
    ensures { outcome (answer_of result) bitmap.new
        ≡ Vertical.scan words.now width n op a b bitmap.old }
{
    scannable::scan(Planes { words, width }, n, op, a, b, bitmap)
}
