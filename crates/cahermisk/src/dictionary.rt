// Dictionary columns.
ghost use Rattle.std.specs.Prelude.{◌≡◌};
ghost use Rattle.rules.specs.Answer.Outcome.{outcome};
ghost use Rattle.rules.specs.Dictionary as Dictionary;

use dictionary_scan::scanning::scan;
use rules::Answer;
use unpack::dictionary::unpack;

pub fn cahermisk_dictionary_scan(
    dict: &[u8],
    page: &[u8],
    n: usize,
    op: u32,
    a: i64,
    b: i64,
    bitmap: &mut [u8],
) -> Answer
    ensures { outcome result bitmap.new
        ≡ Dictionary.scan dict.now page.now n op a b bitmap.old }
{
    scan(dict, page, n, op, a, b, bitmap).into()
}

pub fn cahermisk_dictionary_unpack(
    dict: &[u8],
    page: &[u8],
    n: usize,
    entries: &mut [i32],
) -> Answer
    ensures { outcome result entries.new
        ≡ Dictionary.unpack dict.now page.now n entries.old }
{
    unpack(dict, page, n, entries).into()
}
