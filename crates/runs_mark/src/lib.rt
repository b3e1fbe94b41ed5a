// A run's bits in the part of the bitmap where it begins, which may be inside a byte: a repeated run of at
// most 56 entries as one word, a longer one as a byte's rest, whole bytes and a byte's beginning; a packed
// run straight into the bitmap where it begins at a byte, and else through a local array, 448 entries at a
// time.
#![tactic(auto)]

pub mod bits;
pub mod packed;
pub mod same;
