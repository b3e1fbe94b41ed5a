// Delta pages.
ghost use Rattle.std.specs.Prelude.{◌≡◌};
ghost use Rattle.rules.specs.Answer.Outcome.{outcome};
ghost use Rattle.rules.specs.Delta as Delta;
ghost use Rattle.rules.specs.DeltaWriter as DeltaWriter;

use delta_scan::scanning::scan;
use pack::delta::pack;
use rules::Answer;
use unpack::delta::unpack;

pub fn cahermisk_delta_scan(
    page: &[u8],
    n: usize,
    op: u32,
    a: i64,
    b: i64,
    bitmap: &mut [u8],
) -> Answer
    ensures { outcome result bitmap.new
        ≡ Delta.scan 32 page.now n op a b bitmap.old }
{
    scan(page, n, op, a, b, bitmap).into()
}

pub fn cahermisk_delta_unpack(page: &[u8], n: usize, entries: &mut [i32]) -> Answer
    ensures { outcome result entries.new
        ≡ Delta.unpack 32 page.now n entries.old }
{
    unpack(page, n, entries).into()
}

pub fn cahermisk_delta_pack(entries: &[i32], page: &mut [u8]) -> Answer
    ensures { outcome result page.new
        ≡ DeltaWriter.pack 32 entries.now page.old }
{
    pack(entries, page).into()
}
