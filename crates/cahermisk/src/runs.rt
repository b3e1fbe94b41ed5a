// Run streams.
ghost use Rattle.std.specs.Prelude.{◌≡◌};
ghost use Rattle.rules.specs.Answer.Outcome.{outcome};
ghost use Rattle.rules.specs.RunWriter as RunWriter;
ghost use Rattle.rules.specs.Runs as Runs;

use pack::runs::pack;
use rules::{Answer, RunAnswer};
use runs_read::answering::one_answer;
use runs_scan::scanning::scan;
use unpack::runs::unpack;

pub fn cahermisk_runs_scan(
    page: &[u8],
    width: u32,
    n: usize,
    op: u32,
    a: i64,
    b: i64,
    bitmap: &mut [u8],
) -> Answer
    ensures { outcome result bitmap.new
        ≡ Runs.scan page.now width n op a b bitmap.old }
{
    scan(page, width, n, op, a, b, bitmap).into()
}

pub fn cahermisk_runs_unpack(page: &[u8], width: u32, n: usize, entries: &mut [u32]) -> Answer
    ensures { outcome result entries.new
        ≡ Runs.unpack page.now width n entries.old }
{
    unpack(page, width, n, entries).into()
}

pub fn cahermisk_runs_pack(entries: &[u32], width: u32, page: &mut [u8]) -> Answer
    ensures { outcome result page.new
        ≡ RunWriter.pack entries.now width page.old }
{
    pack(entries, width, page).into()
}

pub fn cahermisk_runs_next(
    page: &[u8],
    width: u32,
    n: usize,
    at: usize,
    covered: usize,
) -> RunAnswer
    ensures { result ≡ Runs.one_answer width n covered page.now at }
{
    one_answer(page, at, width, n, covered)
}
