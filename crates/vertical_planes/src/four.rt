// Four groups side by side while none of them is settled: their lanes go through the same steps.
ghost use Rattle.std.specs.Prelude.{◌≡◌, ◌&&◌, ◌≤◌, ◌<◌, ltb, eqb, length, get_or};
ghost use Rattle.vertical_planes.specs.Ends.{AllOrNone};
ghost use Rattle.vertical_planes.specs.Four.{stepped_four, four_compared};

use crate::ends::Ends;
use crate::groups::finish;
use crate::lanes::{Lanes, begin, step};
use rules::Compared;

// Something of each of four groups.
#[derive(Clone, Copy)]
pub struct Four<T> {
    pub first: T,
    pub second: T,
    pub third: T,
    pub fourth: T,
}

// Is some lane undecided in each.
fn all_open(four: Four<Lanes>) -> bool
    ensures { result ≡ (ltb 0 four.first.undecided
        && (ltb 0 four.second.undecided
        && (ltb 0 four.third.undecided && ltb 0 four.fourth.undecided))) }
{
    0 < four.first.undecided
        && 0 < four.second.undecided
        && 0 < four.third.undecided
        && 0 < four.fourth.undecided
}

// Are as many planes taken of each.
fn in_step(four: Four<Lanes>) -> bool
    ensures { result ≡ (eqb four.second.taken four.first.taken
        && (eqb four.third.taken four.first.taken
        && eqb four.fourth.taken four.first.taken)) }
{
    four.second.taken == four.first.taken
        && four.third.taken == four.first.taken
        && four.fourth.taken == four.first.taken
}

// One plane more of each.
fn step_each(four: Four<Lanes>, planes: Four<u64>, low: u64, apart: u64) -> Four<Lanes>
    requires { (four.first.taken < 32) × (four.second.taken < 32) × (four.third.taken < 32)
        × (four.fourth.taken < 32) }
    ensures { result ≡ stepped_four four planes low apart }
{
    Four {
        first: step(four.first, planes.first, low, apart),
        second: step(four.second, planes.second, low, apart),
        third: step(four.third, planes.third, low, apart),
        fourth: step(four.fourth, planes.fourth, low, apart),
    }
}

// The same. The ends' bits are one of four pairs, and with each of these the step is a few operations.
fn step_four(four: Four<Lanes>, planes: Four<u64>, low: u64, apart: u64) -> Four<Lanes>
    requires few { (four.first.taken < 32) × (four.second.taken < 32) × (four.third.taken < 32)
        × (four.fourth.taken < 32) }
    requires laid { AllOrNone low × AllOrNone apart }
    ensures { result ≡ stepped_four four planes low apart }
{
    match (low == 0, apart == 0) {
        (true, true) => step_each(four, planes, 0, 0),
        (true, false) => step_each(four, planes, 0, u64::MAX),
        (false, true) => step_each(four, planes, u64::MAX, 0),
        (false, false) => step_each(four, planes, u64::MAX, u64::MAX),
    }
}

// Plane i of each.
fn planes_at(groups: Four<&[u64]>, i: usize) -> Four<u64>
    requires { (i < length groups.first.now) × (i < length groups.second.now)
        × (i < length groups.third.now) × (i < length groups.fourth.now) }
    ensures { result ≡ record {
      first = get_or groups.entry.first.now i 0;
      second = get_or groups.entry.second.now i 0;
      third = get_or groups.entry.third.now i 0;
      fourth = get_or groups.entry.fourth.now i 0;
    } }
{
    Four {
        first: groups.first[i],
        second: groups.second[i],
        third: groups.third[i],
        fourth: groups.fourth[i],
    }
}

// Four groups of the same width: as `compare` does each.
pub fn compare_four(groups: Four<&[u64]>, ends: &Ends<'_>) -> Four<Compared>
    requires { (length groups.first.now ≡ ends.now.w) × (length groups.second.now ≡ ends.now.w)
        × (length groups.third.now ≡ ends.now.w) × (length groups.fourth.now ≡ ends.now.w) }
    ensures { result ≡ four_compared groups.entry.first.now groups.entry.second.now groups.entry.third.now
        groups.entry.fourth.now ends.now.band }
{
    let mut four = Four {
        first: begin(groups.first, ends),
        second: begin(groups.second, ends),
        third: begin(groups.third, ends),
        fourth: begin(groups.fourth, ends),
    };
    if in_step(four) {
        while four.first.taken < ends.w && all_open(four) {
            let i = four.first.taken;
            four = step_four(four, planes_at(groups, i), ends.lows[i], ends.apart[i]);
        }
    }
    Four {
        first: finish(groups.first, ends, four.first),
        second: finish(groups.second, ends, four.second),
        third: finish(groups.third, ends, four.third),
        fourth: finish(groups.fourth, ends, four.fourth),
    }
}
