// The writer of run streams: a list of entries cut into runs, and the bytes of each. Their laws stand in
// specs/.
#![tactic(auto)]

pub mod sizes;
pub mod stretches;
pub mod writing;
