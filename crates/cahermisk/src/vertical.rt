// Bit planes.
ghost use Rattle.std.specs.Prelude.{◌≡◌};
ghost use Rattle.rules.specs.Answer.Outcome.{outcome};
ghost use Rattle.rules.specs.Vertical as Vertical;

use pack::vertical::pack;
use rules::Answer;
use unpack::vertical::unpack;
use vertical_scan::scanning::scan;

pub fn cahermisk_vertical_scan(
    words: &[u64],
    width: u32,
    n: usize,
    op: u32,
    a: i64,
    b: i64,
    bitmap: &mut [u8],
) -> Answer
    ensures { outcome result bitmap.new
        ≡ Vertical.scan words.now width n op a b bitmap.old }
{
    scan(words, width, n, op, a, b, bitmap).into()
}

pub fn cahermisk_vertical_unpack(words: &[u64], width: u32, n: usize, entries: &mut [u32]) -> Answer
    ensures { outcome result entries.new
        ≡ Vertical.unpack words.now width n entries.old }
{
    unpack(words, width, n, entries).into()
}

pub fn cahermisk_vertical_pack(entries: &[u32], width: u32, words: &mut [u64]) -> Answer
    ensures { outcome result words.new
        ≡ Vertical.pack entries.now width words.old }
{
    pack(entries, width, words).into()
}
