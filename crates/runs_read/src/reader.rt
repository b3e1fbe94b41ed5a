// The page and the place reached in it go together: a thin reader over the function that reads one run.
ghost use Rattle.std.specs.Prelude.{◌≡◌};
ghost use Rattle.rules.specs.Runs.{run_of, one_at};

use crate::one::one_at;
use rules::{Refusal, Run};

#[derive(Clone, Copy)]
pub struct RunReader<'a> {
    pub page: &'a [u8],
    pub at: usize,
}

pub fn new<'a>(page: &'a [u8], at: usize) -> RunReader<'a>
    ensures { (result.page ≡ page.entry) × (result.at ≡ at) }
{
    RunReader { page, at }
}

// The run at the reader's place.
pub fn next<'a>(r: RunReader<'a>, w: u32, n: usize, covered: usize) -> Result<Run, Refusal>
    ensures { run_of result ≡ one_at w n covered r.entry.page.now r.entry.at }
{
    one_at(r.page, r.at, w, n, covered)
}

// The same for whoever has the page and the place apart.
pub fn run_from(page: &[u8], at: usize, w: u32, n: usize, covered: usize) -> Result<Run, Refusal>
    ensures { run_of result ≡ one_at w n covered page.now at }
{
    next(new(page, at), w, n, covered)
}
