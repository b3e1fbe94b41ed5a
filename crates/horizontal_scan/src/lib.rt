// Bare horizontal pages: scan.
#![tactic(auto)]

pub mod judging;
pub mod scanning;
