// A variable-length number at a place of a page.
ghost use Rattle.std.specs.Prelude.{◌≡◌, ℕ};
ghost use Rattle.rules.specs.Refusals.{code};
ghost use Rattle.rules.specs.Varint.{number_at, number_fault};

use rules::{Number, Refusal};

// The number of 32 bits at a place: five bytes at most, the fifth at most 0F.
pub fn number_at(page: &[u8], at: usize) -> Number
    ensures { result ≡ number_at 32 page.now at }
{
    let mut i = at;
    let mut sum: u64 = 0;
    let mut scale: u64 = 1;
    for passed in 0..4usize {
        let Some(byte) = page.get(i) else {
            return Number::Ended;
        };
        let b = *byte as u64;
        if b < 128 {
            return Number::Read(sum + scale * b, i + 1);
        }
        sum += scale * (b % 128);
        scale *= 128;
        i += 1;
    }
    match page.get(i) {
        None => Number::Ended,
        Some(16..) => Number::Beyond,
        Some(fifth) => Number::Read(sum + scale * *fifth as u64, i + 1),
    }
}

// Why a number was not read: the page ends in it, or it is beyond its bits.
pub fn refusal_of(number: Number) -> Refusal
    ensures { ((value next : ℕ) → number ≡ Number.Read value next → ⊥)
        → code result ≡ number_fault number }
{
    match number {
        Number::Beyond => Refusal::NumberBeyondItsBits,
        Number::Read(_, _) | Number::Ended => Refusal::InputEndsTooEarly,
    }
}
