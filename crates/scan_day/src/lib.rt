// The day of a column: which seconds its pages hold, what is kept of the pages passed, and how it is told
// and drawn.
#![tactic(auto)]

pub mod clocks;
pub mod passing;
pub mod picture;
pub mod seconds;
