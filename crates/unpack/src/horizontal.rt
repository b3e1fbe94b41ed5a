// The entries of a bare horizontal page, into places.
ghost use Rattle.std.specs.Prelude.{◌≡◌};
ghost use Rattle.rules.specs.Bits.Order.{low_first};
ghost use Rattle.rules.specs.Answer.Outcome.{outcome};
ghost use Rattle.rules.specs.Horizontal as Horizontal;
ghost use Rattle.rules.specs.Refusals.{answer_of};

use answers::judge_room;
use horizontal_scan::judging::judge_page;
use limits::judge_unsigned;
use rules::Refusal;

// How many entries were put.
pub fn unpack(page: &[u8], width: u32, n: usize, entries: &mut [u32]) -> Result<u32, Refusal>
    ensures { outcome (answer_of result) entries.new
        ≡ Horizontal.unpack low_first page.now width n entries.old }
{
    judge_unsigned(width, n)?;
    judge_room(entries.len(), n)?;
    judge_page(page, width, n)?;
    packed_entries::unpacking::unpack(page, width, n, entries);
    Ok(n as u32)
}
