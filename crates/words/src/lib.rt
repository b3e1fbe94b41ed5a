// Bytes, words and bits: loads, stores, one packed entry, bits behind bits, places filled; what is left of a
// count. Their laws stand in specs/.
#![tactic(auto)]

pub mod bits;
pub mod counts;
pub mod entries;
pub mod filling;
pub mod loads;
pub mod stores;
