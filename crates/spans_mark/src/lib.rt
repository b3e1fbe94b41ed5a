// A list of stretches as a bitmap: judged, and then marked.
#![tactic(auto)]

pub mod judging;
pub mod marking;
pub mod to_bitmap;
