// A page that can be scanned, and its scan, which is the same in every layout.
#![tactic(auto)]

ghost use Rattle.std.specs.Prelude.{◌≡◌, ◌≤◌, ℕ, ℤ, length};
ghost use Rattle.rules.specs.Answer.{◌then◌, operator_fault, room_fault, scanned};
ghost use Rattle.rules.specs.Answer.Outcome.{outcome};
ghost use Rattle.rules.specs.Bitmap as Bitmap;
ghost use Rattle.rules.specs.Bits.{ceil, put};
ghost use Rattle.rules.specs.Comparison.{holds};
ghost use Rattle.rules.specs.Refusals.{answer_of, fault};
ghost use Rattle.arguments.specs.Arguments.{arguments, arguments_of};
ghost use Rattle.compare.specs.Band.{banded};
ghost use Rattle.scannable.specs.Bounds.{Bounded};

use answers::judge_room;
use bitmaps::counted;
use compare::bands::Band;
use rules::Refusal;

pub trait Scannable: Copy {
    // The number of the refusal that n entries have by the limits of the kind of column, or 0.
    ghost limits: { Self → ℕ → ℕ };

    // Likewise by what is wrong with the page itself, within those limits.
    ghost page_fault: { Self → ℕ → ℕ };

    // Entry i of n.
    ghost entry: { Self → ℕ → ℕ → ℤ };

    fn judge_arguments(self, n: usize, op: u32, a: i64, b: i64) -> Result<Band, Refusal>
        ensures { arguments result ≡ arguments_of (limits self n) op a b };

    fn judge_page(self, n: usize) -> Result<(), Refusal>
        requires { limits self n ≡ 0 }
        ensures { fault result ≡ page_fault self n };

    // Which entries of a page without a fault the band selects, a bit for each.
    fn select(self, n: usize, band: Band, bitmap: &mut [u8])
        requires { (limits self n ≡ 0) × (page_fault self n ≡ 0) × (ceil n 8 ≤ length bitmap.old) }
        ensures { bitmap.new
            ≡ put bitmap.old 0 (Bitmap.bitmap n (λ i. banded band (entry self n i))) };

    // Within the limits no page is too long, nor an entry too large for a comparison.
    ghost bounds: { (page : Self) (n : ℕ) → limits page n ≡ 0 → Bounded n (entry page n) };
}

// How many of n entries are selected: arguments, room and page are judged, in this order, before a byte is
// written.
pub fn scan<P: Scannable>(
    page: P,
    n: usize,
    op: u32,
    a: i64,
    b: i64,
    bitmap: &mut [u8],
) -> Result<u32, Refusal>
    ensures { outcome (answer_of result) bitmap.new
        ≡ scanned
        (P.limits page n then operator_fault op
        then room_fault (length bitmap.old) (ceil n 8)
        then P.page_fault page n) n
        (λ i. holds op a b (P.entry page n i)) bitmap.old }
{
    let band = page.judge_arguments(n, op, a, b)?;
    judge_room(bitmap.len(), (n + 7) / 8)?;
    page.judge_page(n)?;
    page.select(n, band, bitmap);
    Ok(counted(bitmap, n))
}
