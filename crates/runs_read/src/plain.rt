// Plain runs, as short ones are: a header of one byte, and four bytes or more behind it. They are read
// here, in so few steps that a loop over runs holds a copy; any other run is left to `reading`.
ghost use Rattle.std.specs.Prelude.{◌≡◌, List, ℕ, ◌+◌, ◌^◌, ◌≤◌, ◌<◌, length, drop};
ghost use Rattle.rules.specs.Runs.{run_of, repeated_at, headed, run_at};
ghost use Rattle.runs_read.specs.FoundRuns.{found_of};
ghost use Rattle.runs_read.specs.Headers.{plain_header};

use crate::reading;
use rules::{Number, Refusal, Run};
use varints::reading::refusal_of;
use words::loads::load4;

// A run as a loop takes it, or its refusal, side by side: where a `Result` holds one of two kinds, the compiler lets
// the kinds meet and then asks again which it was, for a third of a loop's time over short runs.
#[derive(Clone, Copy)]
pub enum Found {
    Repeated {
        count: usize,
        value: u32,
        next: usize,
    },
    Packed {
        groups: usize,
        start: usize,
        next: usize,
    },
    Refused(Refusal),
}

impl From<Result<Run, Refusal>> for Found {
    ghost from_gives = { λ came found. found_of found ≡ run_of came };

    fn from(came: Result<Run, Refusal>) -> Found {
        match came {
            Ok(Run::Repeated { count, value, next }) => Found::Repeated { count, value, next },
            Ok(
                Run::Packed {
                    groups,
                    start,
                    next,
                },
            ) => Found::Packed {
                groups,
                start,
                next,
            },
            Err(refusal) => Found::Refused(refusal),
        }
    }
}

// The header of the plain run at a place: a number of seven bits.
fn header_at(page: &[u8], at: usize) -> Number
    ensures { result ≡ plain_header page.now at }
{
    if page.len() <= 4 || page.len() - 4 <= at {
        return Number::Ended;
    }
    let header = page[at] as u64;
    if 128 <= header {
        return Number::Beyond;
    }
    Number::Read(header, at + 1)
}

// The repeated run whose value is among the part's first four bytes; `at` is the part's place on its page.
fn repeated_at(part: &[u8], at: usize, w: usize, left: usize, count: usize) -> Found
    requires { (w ≤ 32) × (4 ≤ length part.now) × (at + length part.now < 2 ^ 64) }
    ensures { (page : List ℕ) → drop at page ≡ part.now
        → found_of result ≡ repeated_at w left page count at }
{
    if left < count {
        return Found::Refused(Refusal::RunPastN);
    }
    let k = (w + 7) / 8;
    let value = load4(part, 0) as u64 % (1 << (8 * k));
    if 1 << w <= value {
        return Found::Refused(Refusal::ValueTooLarge);
    }
    Found::Repeated {
        count,
        value: value as u32,
        next: at + k,
    }
}

// The run that a plain header announces; where there is no such header, a refusal.
fn plain_at(page: &[u8], at: usize, w: usize, left: usize) -> Found
    requires { (w ≤ 32) × (left ≤ 16384) }
    ensures { found_of result ≡ headed w left page.now (plain_header page.now at) }
{
    let header = header_at(page, at);
    let Number::Read(h, next) = header else {
        return Found::Refused(refusal_of(header));
    };
    let half = (h / 2) as usize;
    if half == 0 {
        return Found::Refused(Refusal::RunOfLength0);
    }
    if h % 2 == 0 {
        repeated_at(&page[next..], next, w, left, half)
    } else {
        Found::from(reading::packed_at(&page[next..], next, w, left, half))
    }
}

// The run at a place of the page; `reading` is asked for what is refused above. A plain run is given on field
// by field, and what `reading` gives has a place of its own: so the copy in a loop stays small.
pub fn found_at(page: &[u8], at: usize, w: usize, left: usize) -> Found
    requires { (w ≤ 32) × (left ≤ 16384) }
    ensures { found_of result ≡ run_at w left page.now at }
{
    match plain_at(page, at, w, left) {
        Found::Repeated { count, value, next } => Found::Repeated { count, value, next },
        Found::Packed {
            groups,
            start,
            next,
        } => Found::Packed {
            groups,
            start,
            next,
        },
        Found::Refused(_) => {
            let other = reading::run_at(page, at, w, left);
            Found::from(other)
        }
    }
}

// The same as a result.
pub fn run_at(page: &[u8], at: usize, w: usize, left: usize) -> Result<Run, Refusal>
    requires { (w ≤ 32) × (left ≤ 16384) }
    ensures { run_of result ≡ run_at w left page.now at }
{
    match found_at(page, at, w, left) {
        Found::Repeated { count, value, next } => Ok(Run::Repeated { count, value, next }),
        Found::Packed {
            groups,
            start,
            next,
        } => Ok(Run::Packed {
            groups,
            start,
            next,
        }),
        Found::Refused(refusal) => Err(refusal),
    }
}
