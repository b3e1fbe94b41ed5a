// A list of entries, into a run stream.
ghost use Rattle.std.specs.Prelude.{◌≡◌};
ghost use Rattle.rules.specs.Answer.Outcome.{outcome};
ghost use Rattle.rules.specs.Refusals.{answer_of};
ghost use Rattle.rules.specs.RunWriter as RunWriter;

use limits::judge_unsigned;
use packed_entries::judging::judge_entries;
use rules::Refusal;
use runs_write::sizes::stream_size;
use runs_write::writing::put_stream;

// How many bytes the stream has.
pub fn pack(entries: &[u32], width: u32, page: &mut [u8]) -> Result<u32, Refusal>
    ensures { outcome (answer_of result) page.new
        ≡ RunWriter.pack entries.now width page.old }
{
    judge_unsigned(width, entries.len())?;
    let bytes = stream_size(entries, width);
    judge_entries(entries, width, page.len(), bytes)?;
    put_stream(entries, width, page);
    Ok(bytes as u32)
}
