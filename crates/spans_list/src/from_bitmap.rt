// From a bitmap to its spans.
ghost use Rattle.std.specs.Prelude.{◌≡◌, ◌/◌, ◌≤◌, ltb, length};
ghost use Rattle.rules.specs.Bits.{ceil};
ghost use Rattle.rules.specs.Answer.{room_fault, answered};
ghost use Rattle.rules.specs.Answer.Outcome.{outcome};
ghost use Rattle.rules.specs.Refusals.{answer_of};
ghost use Rattle.rules.specs.Spans as Spans;

use crate::listing::list;
use crate::turns::edges_in;
use limits::judge_signed;
use rules::Refusal;

// Where there is room for the stretches of any n entries, those of this bitmap are not counted first.
fn is_short(bitmap: &[u8], n: usize, places: usize) -> bool
    requires { (n ≤ 16384) × (ceil n 8 ≤ length bitmap.now) }
    ensures { result ≡ ltb places (length (Spans.spans bitmap.now n)) }
{
    places < 2 * ((n + 1) / 2) && places < edges_in(bitmap, n)
}

// A bitmap that is long enough: the room is judged by the stretches there are.
fn listed(bitmap: &[u8], n: usize, places: &mut [u32]) -> Result<u32, Refusal>
    requires { (n ≤ 16384) × (ceil n 8 ≤ length bitmap.now) }
    ensures { outcome (answer_of result) places.new
        ≡ answered
        (room_fault (length places.old) (length (Spans.spans bitmap.now n)))
        (length (Spans.spans bitmap.now n) / 2)
        (Spans.spans bitmap.now n) places.old }
{
    if is_short(bitmap, n, places.len()) {
        return Err(Refusal::OutputTooShort);
    }
    Ok((list(bitmap, n, places) / 2) as u32)
}

// How many stretches there are.
pub fn from_bitmap(bitmap: &[u8], n: usize, places: &mut [u32]) -> Result<u32, Refusal>
    ensures { outcome (answer_of result) places.new
        ≡ Spans.from_bitmap bitmap.now n places.old }
{
    judge_signed(n)?;
    if bitmap.len() < (n + 7) / 8 {
        return Err(Refusal::InputEndsTooEarly);
    }
    listed(bitmap, n, places)
}
