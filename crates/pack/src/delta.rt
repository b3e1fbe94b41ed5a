// A list of entries, into a delta page.
ghost use Rattle.std.specs.Prelude.{◌≡◌};
ghost use Rattle.rules.specs.Answer.Outcome.{outcome};
ghost use Rattle.rules.specs.DeltaWriter as DeltaWriter;
ghost use Rattle.rules.specs.Refusals.{answer_of};

use answers::judge_room;
use delta_write::sizes::page_size;
use delta_write::writing::put_page;
use limits::judge_signed;
use rules::Refusal;

// How many bytes the page has. No miniblock needs more than 32 bits, so 17 is never given.
pub fn pack(entries: &[i32], page: &mut [u8]) -> Result<u32, Refusal>
    ensures { outcome (answer_of result) page.new
        ≡ DeltaWriter.pack 32 entries.now page.old }
{
    judge_signed(entries.len())?;
    let size = page_size(entries);
    judge_room(page.len(), size)?;
    put_page(entries, page);
    Ok(size as u32)
}
