// Whole pages and columns unpacked: their entries into places.
#![tactic(auto)]

pub mod delta;
pub mod dictionary;
mod dictionary_lookup;
pub mod horizontal;
pub mod runs;
mod runs_placing;
pub mod vertical;
