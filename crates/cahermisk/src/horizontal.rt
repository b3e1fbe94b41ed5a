// Bare horizontal pages.
ghost use Rattle.std.specs.Prelude.{◌≡◌};
ghost use Rattle.rules.specs.Bits.Order.{low_first};
ghost use Rattle.rules.specs.Answer.Outcome.{outcome};
ghost use Rattle.rules.specs.Horizontal as Horizontal;

use horizontal_scan::scanning::scan;
use pack::horizontal::pack;
use rules::Answer;
use unpack::horizontal::unpack;

pub fn cahermisk_horizontal_scan(
    page: &[u8],
    width: u32,
    n: usize,
    op: u32,
    a: i64,
    b: i64,
    bitmap: &mut [u8],
) -> Answer
    ensures { outcome result bitmap.new
        ≡ Horizontal.scan low_first page.now width n op a b bitmap.old }
{
    scan(page, width, n, op, a, b, bitmap).into()
}

pub fn cahermisk_horizontal_unpack(page: &[u8], width: u32, n: usize, entries: &mut [u32]) -> Answer
    ensures { outcome result entries.new
        ≡ Horizontal.unpack low_first page.now width n entries.old }
{
    unpack(page, width, n, entries).into()
}

pub fn cahermisk_horizontal_pack(entries: &[u32], width: u32, page: &mut [u8]) -> Answer
    ensures { outcome result page.new
        ≡ Horizontal.pack low_first entries.now width page.old }
{
    pack(entries, width, page).into()
}
