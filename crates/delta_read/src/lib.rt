// Delta pages: the header, a block, and a whole page judged. Their laws stand in specs/.
#![tactic(auto)]

pub mod blocks;
pub mod heads;
pub mod judging;
mod width_bytes;
