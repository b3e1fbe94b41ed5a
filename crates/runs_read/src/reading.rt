// One run at a place of a page, where `left` entries are not yet covered.
ghost use Rattle.std.specs.Prelude.{◌≡◌, true, List, ℕ, ◌+◌, ◌*◌, ◌^◌, ◌≤◌, ◌<◌, ltb, length, take, drop};
ghost use Rattle.rules.specs.Bits.{ceil, number};
ghost use Rattle.rules.specs.Runs.{run_of, repeated_at, packed_at, run_at};
ghost use Rattle.rules.specs.Refusals.{fault};
ghost use Rattle.runs_read.specs.Bodies.{body_fault};

use rules::{Number, Refusal, Run};
use varints::reading::{number_at, refusal_of};
use words::loads::load_any;

// The number that the first k bytes make.
fn value_of(part: &[u8], k: usize) -> u64
    requires { k ≤ 4 }
    ensures { result ≡ number (take k part.now) }
{
    load_any(part, 0) % (1 << (8 * k))
}

// Is a repeated run not past the entries left, its body there and its value small; the body and what follows it are
// `len` bytes.
fn judge_repeated(
    len: usize,
    w: usize,
    left: usize,
    count: usize,
    value: u64,
) -> Result<(), Refusal>
    requires { w ≤ 32 }
    ensures { fault result ≡ body_fault (ltb left count) (ltb len (ceil w 8)) (ltb value (2 ^ w)) }
{
    if left < count {
        return Err(Refusal::RunPastN);
    }
    if len < (w + 7) / 8 {
        return Err(Refusal::InputEndsTooEarly);
    }
    if 1 << w <= value {
        return Err(Refusal::ValueTooLarge);
    }
    Ok(())
}

// The repeated run whose value begins the part; `at` is the part's place on its page.
fn repeated_at(part: &[u8], at: usize, w: usize, left: usize, count: usize) -> Result<Run, Refusal>
    requires { (w ≤ 32) × (at + length part.now < 2 ^ 64) }
    ensures { (page : List ℕ) → drop at page ≡ part.now
        → run_of result ≡ repeated_at w left page count at }
{
    let k = (w + 7) / 8;
    let value = value_of(part, k);
    judge_repeated(part.len(), w, left, count, value)?;
    Ok(Run::Repeated {
        count,
        value: value as u32,
        next: at + k,
    })
}

// Is a packed run not past the entries left, and its body there; the body and what follows it are `len` bytes.
fn judge_packed(len: usize, w: usize, left: usize, groups: usize) -> Result<(), Refusal>
    requires { (w ≤ 32) × (left ≤ 16384) }
    ensures { fault result ≡ body_fault (ltb (left + 7) (8 * groups)) (ltb len (w * groups)) true }
{
    if (left + 7) / 8 < groups {
        return Err(Refusal::RunPastN);
    }
    if len < w * groups {
        return Err(Refusal::InputEndsTooEarly);
    }
    Ok(())
}

// The packed run whose groups begin the part; `at` is the part's place on its page.
pub fn packed_at(
    part: &[u8],
    at: usize,
    w: usize,
    left: usize,
    groups: usize,
) -> Result<Run, Refusal>
    requires { (w ≤ 32) × (left ≤ 16384) × (at + length part.now < 2 ^ 64) }
    ensures { (page : List ℕ) → drop at page ≡ part.now
        → run_of result ≡ packed_at w left page groups at }
{
    judge_packed(part.len(), w, left, groups)?;
    Ok(Run::Packed {
        groups,
        start: at,
        next: at + w * groups,
    })
}

// The run at a place of the page. A place past the page's end is 5, as is a header that the page ends in.
pub fn run_at(page: &[u8], at: usize, w: usize, left: usize) -> Result<Run, Refusal>
    requires { (w ≤ 32) × (left ≤ 16384) }
    ensures { run_of result ≡ run_at w left page.now at }
{
    let header = number_at(page, at);
    let Number::Read(h, next) = header else {
        return Err(refusal_of(header));
    };
    let half = (h / 2) as usize;
    if half == 0 {
        return Err(Refusal::RunOfLength0);
    }
    if h % 2 == 0 {
        return repeated_at(&page[next..], next, w, left, half);
    }
    packed_at(&page[next..], next, w, left, half)
}
