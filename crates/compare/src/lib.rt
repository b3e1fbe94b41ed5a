// A comparison: the operator number and its two constants to a band, and a band to the entries that it
// selects, unsigned or signed.
#![tactic(auto)]

pub mod bands;
pub mod ranges;
pub mod signed_ranges;
