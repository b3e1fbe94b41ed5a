// The entries of a dictionary column, into places.
ghost use Rattle.std.specs.Prelude.{◌≡◌, ◌≤◌, length};
ghost use Rattle.rules.specs.Bits.{put, tabulate};
ghost use Rattle.rules.specs.Answer.Outcome.{outcome};
ghost use Rattle.rules.specs.Dictionary as Dictionary;
ghost use Rattle.rules.specs.Refusals.{answer_of};

use crate::dictionary_lookup::look_up_runs;
use answers::judge_room;
use dictionary_scan::judging::judge_column;
use limits::judge_signed;
use rules::Refusal;

// The values of the indexes of a column without a fault.
fn place(dict: &[u8], page: &[u8], n: usize, entries: &mut [i32])
    requires { (n ≤ 16384) × (n ≤ length entries.old)
        × (Dictionary.column_fault dict.now n page.now ≡ 0) }
    ensures { entries.new
        ≡ put entries.old 0
        (tabulate n
        (λ i. Dictionary.value dict.now (Dictionary.index_at n page.now i))) }
{
    let width = page[0] as u32;
    look_up_runs(dict, &page[1..], width, n, entries);
}

// How many entries were put.
pub fn unpack(dict: &[u8], page: &[u8], n: usize, entries: &mut [i32]) -> Result<u32, Refusal>
    ensures { outcome (answer_of result) entries.new
        ≡ Dictionary.unpack dict.now page.now n entries.old }
{
    judge_signed(n)?;
    judge_room(entries.len(), n)?;
    judge_column(dict, page, n)?;
    place(dict, page, n, entries);
    Ok(n as u32)
}
