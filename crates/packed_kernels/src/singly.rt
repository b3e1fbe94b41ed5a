// Entry by entry: each is read and tested by itself. Entries of any width are read through windows of eight
// bytes; those of 32 bits are four bytes each, with no shift and no mask, so that the compiler takes several
// in one instruction.
ghost use Rattle.std.specs.Prelude.{ℕ, ◌≡◌, ◌+◌, ◌*◌, ◌<◌, ◌≤◌, length};
ghost use Rattle.rules.specs.Bits.{flag, field};
ghost use Rattle.rules.specs.Bits.Order.{low_first};
ghost use Rattle.compare.specs.Range.{inside, Bounded};

use crate::kernels::Kernel;
use std::marker::PhantomData;
use std::num::wrapping_sub_u32;
use words::entries::entry_in;
use words::loads::load4;

// A way to read one entry.
pub trait Single {
    // The widths that it reads.
    ghost reads: { ℕ → Type 0 };

    // How many bytes behind a group its loads reach.
    ghost past: { ℕ };

    // Entry k of the eight from byte `at` on.
    fn entry(page: &[u8], at: usize, k: usize, w: usize) -> u32
        requires { reads w × (k < 8) × (at + w + past ≤ length page.now) }
        ensures { result ≡ field low_first page.now (8 * at + k * w) w };
}

pub struct Window;

impl Single for Window {
    ghost reads = { λ w. w ≤ 32 };

    ghost past = { 8 };

    fn entry(page: &[u8], at: usize, k: usize, w: usize) -> u32 {
        entry_in(page, at, k * w, w)
    }
}

pub struct Whole;

impl Single for Whole {
    ghost reads = { λ w. w ≡ 32 };

    ghost past = { 0 };

    fn entry(page: &[u8], at: usize, k: usize, _w: usize) -> u32 {
        load4(page, at + 4 * k)
    }
}

// Whether an entry lies from low to low + span: 1 or 0.
pub fn inside_bit(x: u32, low: u32, span: u32) -> u8
    requires { Bounded low span }
    ensures told { result ≡ flag (inside low (low + span) x) }
    ensures small { result < 2 }
{
    (wrapping_sub_u32(x, low) <= span) as u8
}

// The same of entry k of the eight from byte `at` on.
fn entry_bit<S: Single>(page: &[u8], at: usize, k: usize, w: usize, low: u32, span: u32) -> u8
    requires { S.reads w × (k < 8) × (at + w + S.past ≤ length page.now) × Bounded low span }
    ensures told { result
        ≡ flag (inside low (low + span) (field low_first page.now (8 * at + k * w) w)) }
    ensures small { result < 2 }
{
    inside_bit(S::entry(page, at, k, w), low, span)
}

pub struct Singly<S>(PhantomData<S>);

impl<S: Single> Kernel for Singly<S> {
    ghost takes = { λ w low span. S.reads w × Bounded low span };

    ghost behind = { λ _. S.past };

    fn eight(page: &[u8], at: usize, w: usize, low: u32, span: u32) -> u8 {
        entry_bit::<S>(page, at, 0, w, low, span)
            + entry_bit::<S>(page, at, 1, w, low, span) * 2
            + entry_bit::<S>(page, at, 2, w, low, span) * 4
            + entry_bit::<S>(page, at, 3, w, low, span) * 8
            + entry_bit::<S>(page, at, 4, w, low, span) * 16
            + entry_bit::<S>(page, at, 5, w, low, span) * 32
            + entry_bit::<S>(page, at, 6, w, low, span) * 64
            + entry_bit::<S>(page, at, 7, w, low, span) * 128
    }
}
