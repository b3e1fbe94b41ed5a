// Bit planes: scan.
#![tactic(auto)]

pub mod groups;
pub mod judging;
pub mod scanning;
