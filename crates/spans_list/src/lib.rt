// A bitmap's stretches as a list of pairs.
#![tactic(auto)]

pub mod from_bitmap;
pub mod listing;
pub mod turns;
