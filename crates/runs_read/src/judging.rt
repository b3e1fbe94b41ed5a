// A whole run stream judged.
ghost use Rattle.std.specs.Prelude.{◌≡◌, ◌≤◌};
ghost use Rattle.rules.specs.Runs.{read, stream_fault};
ghost use Rattle.rules.specs.Refusals.{fault};

use crate::plain::{Found, found_at};
use rules::Refusal;

// The first fault in reading order, if there is one.
pub fn judge_stream(page: &[u8], w: usize, n: usize) -> Result<(), Refusal>
    requires { (w ≤ 32) × (n ≤ 16384) }
    ensures { fault result ≡ stream_fault (read w n page.now) }
{
    let mut at: usize = 0;
    let mut left = n;
    while 0 < left {
        match found_at(page, at, w, left) {
            Found::Repeated { count, next, .. } => {
                left = left.saturating_sub(count);
                at = next;
            }
            Found::Packed { groups, next, .. } => {
                left = left.saturating_sub(8 * groups);
                at = next;
            }
            Found::Refused(refusal) => {
                return Err(refusal);
            }
        }
    }
    if at < page.len() {
        return Err(Refusal::InputLeftOver);
    }
    Ok(())
}
