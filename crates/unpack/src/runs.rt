// The entries of a run stream, into places.
ghost use Rattle.std.specs.Prelude.{◌≡◌};
ghost use Rattle.rules.specs.Answer.Outcome.{outcome};
ghost use Rattle.rules.specs.Runs as Runs;
ghost use Rattle.rules.specs.Refusals.{answer_of};

use crate::runs_placing::place_runs;
use answers::judge_room;
use limits::judge_unsigned;
use rules::Refusal;
use runs_read::judging::judge_stream;

// How many entries were put.
pub fn unpack(page: &[u8], width: u32, n: usize, entries: &mut [u32]) -> Result<u32, Refusal>
    ensures { outcome (answer_of result) entries.new
        ≡ Runs.unpack page.now width n entries.old }
{
    judge_unsigned(width, n)?;
    judge_room(entries.len(), n)?;
    judge_stream(page, width as usize, n)?;
    place_runs(page, width, n, entries);
    Ok(n as u32)
}
