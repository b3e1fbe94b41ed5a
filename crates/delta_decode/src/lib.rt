// A judged delta page's entries one after another: into the bitmap, and into places. Their laws stand in
// specs/.
#![tactic(auto)]

pub mod blocks;
pub mod miniblocks;
pub mod pages;
pub mod placing;
pub mod selecting;
