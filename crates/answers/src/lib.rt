// The check of the output's room. The order of faults, and what a call leaves of the lent places, are in specs/.
#![tactic(auto)]

ghost use Rattle.std.specs.Prelude.{◌≡◌};
ghost use Rattle.rules.specs.Answer.{room_fault};
ghost use Rattle.rules.specs.Refusals.{fault};

use rules::Refusal;

// Has the output as many places as are needed.
pub fn judge_room(places: usize, need: usize) -> Result<(), Refusal>
    ensures { fault result ≡ room_fault places need }
{
    if places < need {
        return Err(Refusal::OutputTooShort);
    }
    Ok(())
}
