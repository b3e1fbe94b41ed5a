// The width bytes of a block, one for each miniblock.
ghost use Rattle.std.specs.Prelude.{◌≡◌, ◌+◌, ◌≤◌, length, take, drop};
ghost use Rattle.rules.specs.Delta.{width_fault, sum};
ghost use Rattle.rules.specs.Refusals.{fault};

use limits::Signed;
use rules::Refusal;

// The `all` width bytes from `at` on: of the first `need`, those of needed miniblocks, none is above the
// limit, and the others need only be there.
pub fn judge_widths(page: &[u8], at: usize, all: usize, need: usize) -> Result<(), Refusal>
    requires { (at ≤ length page.now) × (need ≤ all) }
    ensures { fault result ≡ width_fault 32 all need (drop at page.now) }
{
    let widths = &page[at..];
    if widths
        .iter()
        .take(need)
        .any(|width| Signed::MAX_WIDTH < *width as u32)
    {
        return Err(Refusal::WidthAboveLimit);
    }
    if widths.len() < all {
        return Err(Refusal::InputEndsTooEarly);
    }
    Ok(())
}

// The sum of the `need` width bytes from `at` on.
pub fn width_sum(page: &[u8], at: usize, need: usize) -> usize
    requires { (need ≤ 16384) × (at + need ≤ length page.now) }
    ensures { result ≡ sum (take need (drop at page.now)) }
{
    page[at..at + need].iter().map(|b| *b as usize).sum()
}
