// A list of entries, into a bare horizontal page.
ghost use Rattle.std.specs.Prelude.{◌≡◌};
ghost use Rattle.rules.specs.Bits.Order.{low_first};
ghost use Rattle.rules.specs.Answer.Outcome.{outcome};
ghost use Rattle.rules.specs.Horizontal as Horizontal;
ghost use Rattle.rules.specs.Refusals.{answer_of};

use limits::judge_unsigned;
use packed_entries::judging::judge_entries;
use rules::Refusal;

// How many bytes the page has.
pub fn pack(entries: &[u32], width: u32, page: &mut [u8]) -> Result<u32, Refusal>
    ensures { outcome (answer_of result) page.new
        ≡ Horizontal.pack low_first entries.now width page.old }
{
    let n = entries.len();
    judge_unsigned(width, n)?;
    let bytes = (n * width as usize + 7) / 8;
    judge_entries(entries, width, page.len(), bytes)?;
    packed_entries::packing::pack(entries, width, page);
    Ok(bytes as u32)
}
