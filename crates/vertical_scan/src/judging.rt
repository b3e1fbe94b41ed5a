// The faults of a column: judged before a place is written.
ghost use Rattle.std.specs.Prelude.{◌≡◌, ◌≤◌, ◌*◌, ◌+◌, length};
ghost use Rattle.rules.specs.Vertical.{page_fault};
ghost use Rattle.rules.specs.Refusals.{fault};
ghost use Rattle.vertical_scan.specs.UnusedLanes.{or_to};

use rules::Refusal;

// The w words from `at` on, put over each other: a lane is 0 where its bit is.
fn all_planes(words: &[u64], at: usize, w: usize) -> u64
    requires { at + w ≤ length words.now }
    ensures { result ≡ or_to words.now at w }
{
    let mut all: u64 = 0;
    for word in &words[at..at + w] {
        all |= *word;
    }
    all
}

// Is the column as long as its entries, and are its unused lanes 0. Where n fills its last group no lane is
// unused.
pub fn judge_page(words: &[u64], width: u32, n: usize) -> Result<(), Refusal>
    requires { (width ≤ 32) × (n ≤ 16384) }
    ensures { fault result ≡ page_fault words.now width n }
{
    let w = width as usize;
    let need = (n + 63) / 64 * w;
    if words.len() < need {
        return Err(Refusal::InputEndsTooEarly);
    }
    if need < words.len() {
        return Err(Refusal::InputLeftOver);
    }
    let rest = n % 64;
    if rest == 0 {
        return Ok(());
    }
    if all_planes(words, n / 64 * w, w) >> rest > 0 {
        Err(Refusal::UnusedBitsNot0)
    } else {
        Ok(())
    }
}
