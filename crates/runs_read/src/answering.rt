// One run asked for by itself, as numbers: a caller in C gets no part of its page back, but the part's
// place.
ghost use Rattle.std.specs.Prelude.{◌≡◌};
ghost use Rattle.rules.specs.Runs.{one_answer};

use crate::handing::one_run;
use rules::RunAnswer;

// The kind is 1 for a packed run, whose bytes stand at `body_at`, up to the next place.
pub fn one_answer(page: &[u8], at: usize, w: u32, n: usize, covered: usize) -> RunAnswer
    ensures { result ≡ one_answer w n covered page.now at }
{
    let mut info = [0usize; 5];
    let body_len = one_run(page, at, w, n, covered, &mut info).len();
    let body_at = if info[1] == 1 { info[4] - body_len } else { 0 };
    RunAnswer {
        code: info[0] as u32,
        kind: info[1] as u32,
        length: info[2],
        value: info[3] as u32,
        next: info[4],
        body_at,
        body_len,
    }
}
