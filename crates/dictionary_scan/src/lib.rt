// Dictionary columns: scan.
#![tactic(auto)]

pub mod judging;
pub mod scanning;
pub mod searching;
pub mod values;
