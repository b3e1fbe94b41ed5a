// Run streams: scan.
#![tactic(auto)]

pub mod scanning;
