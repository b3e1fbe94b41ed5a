// Whole lists of entries packed into pages. Dictionary columns have no writer.
#![tactic(auto)]

pub mod delta;
pub mod horizontal;
pub mod runs;
pub mod vertical;
