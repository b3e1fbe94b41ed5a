// The header of a delta page.
ghost use Rattle.std.specs.Prelude.{◌≡◌};
ghost use Rattle.rules.specs.Delta.{shaped, head_at, head_of};

use rules::{Head, Number, Refusal};
use varints::reading::{number_at, refusal_of};

// Whether blocks of this size can be cut into that many miniblocks.
fn is_shaped(size: u64, minis: u64) -> bool
    ensures { result ≡ shaped size minis }
{
    128 <= size
        && size <= 16384
        && size % 128 == 0
        && 0 < minis
        && size % minis == 0
        && size / minis % 32 == 0
}

// Block size, miniblocks per block, count and first value: all four are read before any is judged.
pub fn head_at(page: &[u8], n: usize) -> Result<Head, Refusal>
    ensures { head_of result ≡ head_at 32 n page.now }
{
    let size_field = number_at(page, 0);
    let Number::Read(size, p) = size_field else {
        return Err(refusal_of(size_field));
    };
    let minis_field = number_at(page, p);
    let Number::Read(minis, q) = minis_field else {
        return Err(refusal_of(minis_field));
    };
    let count_field = number_at(page, q);
    let Number::Read(count, r) = count_field else {
        return Err(refusal_of(count_field));
    };
    let first_field = number_at(page, r);
    let Number::Read(first, next) = first_field else {
        return Err(refusal_of(first_field));
    };
    if !is_shaped(size, minis) {
        return Err(Refusal::DeltaShape);
    }
    if count != n as u64 {
        return Err(Refusal::DeltaCountNotN);
    }
    Ok(Head {
        size,
        minis,
        first,
        next,
    })
}
