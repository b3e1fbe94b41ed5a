// One run asked for by itself, of a stream of n entries of which some are covered.
ghost use Rattle.std.specs.Prelude.{◌≡◌};
ghost use Rattle.rules.specs.Runs.{run_of, one_at};

use crate::reading::run_at;
use limits::judge_unsigned;
use rules::{Refusal, Run};

// The limits come first, then a place past the page's end, then that all are covered, and then what the run says.
pub fn one_at(page: &[u8], at: usize, w: u32, n: usize, covered: usize) -> Result<Run, Refusal>
    ensures { run_of result ≡ one_at w n covered page.now at }
{
    judge_unsigned(w, n)?;
    if page.len() < at {
        return Err(Refusal::InputEndsTooEarly);
    }
    if n <= covered {
        return Err(Refusal::RunPastN);
    }
    run_at(page, at, w as usize, n - covered)
}
