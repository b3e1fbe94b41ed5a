// What every scan begins with: the limits, then the operator, which has a band or is refused.
#![tactic(auto)]

ghost use Rattle.std.specs.Prelude.{◌≡◌};
ghost use Rattle.rules.specs.Answer.{count_fault, limit_fault};
ghost use Rattle.rules.specs.Refusals.{fault};
ghost use Rattle.arguments.specs.Arguments.{arguments, arguments_of};

use compare::bands::{Band, band_of};
use limits::{judge_signed, judge_unsigned};
use rules::Refusal;

// Behind the judgement of the limits of the column's kind.
fn arguments_after(limits: Result<(), Refusal>, op: u32, a: i64, b: i64) -> Result<Band, Refusal>
    ensures { arguments result ≡ arguments_of (fault limits) op a b }
{
    limits?;
    let Some(band) = band_of(op, a, b) else {
        return Err(Refusal::OperatorAbove7);
    };
    Ok(band)
}

// Of an unsigned column.
pub fn arguments_of(width: u32, n: usize, op: u32, a: i64, b: i64) -> Result<Band, Refusal>
    ensures { arguments result ≡ arguments_of (limit_fault width n) op a b }
{
    arguments_after(judge_unsigned(width, n), op, a, b)
}

// Of a signed column.
pub fn signed_arguments_of(n: usize, op: u32, a: i64, b: i64) -> Result<Band, Refusal>
    ensures { arguments result ≡ arguments_of (count_fault n) op a b }
{
    arguments_after(judge_signed(n), op, a, b)
}
