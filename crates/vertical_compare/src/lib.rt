// One group of 64 entries in bit planes, compared with both ends of a band at once.
#![tactic(auto)]

pub mod ends;
pub mod groups;
