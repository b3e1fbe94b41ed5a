// Dictionary columns.
ghost use Rattle.std.specs.Prelude.{◌≡◌};
ghost use Rattle.rules.specs.Answer.Outcome.{outcome};
ghost use Rattle.rules.specs.Dictionary as Dictionary;

use cahermisk::dictionary;
use rules::Answer;

#[unsafe(no_mangle)]
pub extern "C" fn cahermisk_dictionary_scan(
    dict: &[u8],
    page: &[u8],
    n: usize,
    op: u32,
    a: i64,
    b: i64,
    bitmap: &mut [u8],
) -> Answer
    ensures { outcome result bitmap.new
        ≡ Dictionary.scan dict.now page.now n op a b bitmap.old }
{
    dictionary::cahermisk_dictionary_scan(dict, page, n, op, a, b, bitmap)
}

#[unsafe(no_mangle)]
pub extern "C" fn cahermisk_dictionary_unpack(
    dict: &[u8],
    page: &[u8],
    n: usize,
    entries: &mut [i32],
) -> Answer
    ensures { outcome result entries.new
        ≡ Dictionary.unpack dict.now page.now n entries.old }
{
    dictionary::cahermisk_dictionary_unpack(dict, page, n, entries)
}
