// The entries of a delta page, into places.
ghost use Rattle.std.specs.Prelude.{◌≡◌};
ghost use Rattle.rules.specs.Answer.Outcome.{outcome};
ghost use Rattle.rules.specs.Delta as Delta;
ghost use Rattle.rules.specs.Refusals.{answer_of};

use answers::judge_room;
use delta_decode::placing::place;
use delta_read::judging::judge_page;
use limits::judge_signed;
use rules::Refusal;

// How many entries were put.
pub fn unpack(page: &[u8], n: usize, entries: &mut [i32]) -> Result<u32, Refusal>
    ensures { outcome (answer_of result) entries.new
        ≡ Delta.unpack 32 page.now n entries.old }
{
    judge_signed(n)?;
    judge_room(entries.len(), n)?;
    judge_page(page, n)?;
    place(page, n, entries);
    Ok(n as u32)
}
