// The faults of a page: judged before a place is written.
ghost use Rattle.std.specs.Prelude.{◌≡◌, ◌≤◌};
ghost use Rattle.rules.specs.Bits.Order.{low_first};
ghost use Rattle.rules.specs.Horizontal.{page_fault};
ghost use Rattle.rules.specs.Refusals.{fault};

use rules::Refusal;
use words::entries::entry_any;

// Is the page as long as its entries, and are its unused bits 0.
pub fn judge_page(page: &[u8], width: u32, n: usize) -> Result<(), Refusal>
    requires { (width ≤ 32) × (n ≤ 16384) }
    ensures { fault result ≡ page_fault low_first page.now width n }
{
    let bits = n * width as usize;
    let bytes = (bits + 7) / 8;
    if page.len() < bytes {
        Err(Refusal::InputEndsTooEarly)
    } else if bytes < page.len() {
        Err(Refusal::InputLeftOver)
    } else if 0 < entry_any(page, bits, (8 * bytes - bits) as u32) {
        Err(Refusal::UnusedBitsNot0)
    } else {
        Ok(())
    }
}
