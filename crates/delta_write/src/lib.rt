// Delta pages, written: deltas, the widths of miniblocks, blocks, pages. Their laws stand in specs/.
#![tactic(auto)]

pub mod deltas;
pub mod miniblocks;
pub mod numbers;
pub mod sizes;
pub mod writing;
