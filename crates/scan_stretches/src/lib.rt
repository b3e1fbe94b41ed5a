// Stretches of selected seconds: found on each page, carried on to the next, and told by the clock.
#![tactic(auto)]

pub mod going;
pub mod pages;
pub mod told;
