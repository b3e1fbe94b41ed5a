// From spans to their bitmap.
ghost use Rattle.std.specs.Prelude.{◌≡◌, not, ◌%◌, eqb, length};
ghost use Rattle.rules.specs.Bits.{ceil};
ghost use Rattle.rules.specs.Answer.{faulty, ◌then◌, count_fault, room_fault};
ghost use Rattle.rules.specs.Answer.Outcome.{outcome};
ghost use Rattle.rules.specs.Refusals.{fault, answer_of};
ghost use Rattle.rules.specs.Spans as Spans;

use crate::judging::is_misplaced;
use crate::marking::mark;
use answers::judge_room;
use limits::judge_signed;
use rules::Refusal;

// Everything is judged before a bit is written.
fn judge_list(list: &[u32], n: usize, places: usize) -> Result<(), Refusal>
    ensures { fault result
        ≡ (count_fault n then faulty (not (eqb (length list.now % 2) 0)) 5
        then room_fault places (ceil n 8)
        then faulty (Spans.misplaced n 0 list.now) 18) }
{
    judge_signed(n)?;
    if list.len() % 2 != 0 {
        return Err(Refusal::InputEndsTooEarly);
    }
    judge_room(places, (n + 7) / 8)?;
    if is_misplaced(list, n) {
        return Err(Refusal::SpansMisplaced);
    }
    Ok(())
}

// How many entries the list covers.
pub fn to_bitmap(list: &[u32], n: usize, bitmap: &mut [u8]) -> Result<u32, Refusal>
    ensures { outcome (answer_of result) bitmap.new
        ≡ Spans.to_bitmap list.now n bitmap.old }
{
    judge_list(list, n, bitmap.len())?;
    Ok(mark(list, n, bitmap))
}
