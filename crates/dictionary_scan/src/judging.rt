// The faults of a dictionary column: judged before a place is written.
ghost use Rattle.std.specs.Prelude.{◌≡◌, ◌≤◌};
ghost use Rattle.rules.specs.Dictionary as Dictionary;
ghost use Rattle.rules.specs.Refusals.{fault};

use crate::values::value_at;
use dictionary_indexes::index_page::judge_page;
use rules::Refusal;

// Is some value not above the one before it.
fn unordered(dict: &[u8]) -> bool
    ensures { result ≡ Dictionary.unordered dict.now }
{
    let mut found = false;
    for k in 1..dict.len() / 4 {
        found |= value_at(dict, k) <= value_at(dict, k - 1);
    }
    found
}

// Is the length a multiple of 4 and at most 65,536 bytes, before any value is read, and do the values ascend.
pub fn judge_dictionary(dict: &[u8]) -> Result<(), Refusal>
    ensures { fault result ≡ Dictionary.dictionary_fault dict.now }
{
    if dict.len() % 4 != 0 {
        return Err(Refusal::MalformedDictionary);
    }
    if 65536 < dict.len() {
        return Err(Refusal::MalformedDictionary);
    }
    if unordered(dict) {
        return Err(Refusal::MalformedDictionary);
    }
    Ok(())
}

// The dictionary, then the index page in reading order, and its indexes only if that page is otherwise good.
pub fn judge_column(dict: &[u8], page: &[u8], n: usize) -> Result<(), Refusal>
    requires { n ≤ 16384 }
    ensures { fault result ≡ Dictionary.column_fault dict.now n page.now }
{
    judge_dictionary(dict)?;
    judge_page(page, n, dict.len() / 4)
}
