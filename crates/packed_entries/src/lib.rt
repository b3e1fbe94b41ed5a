// Entries of one width laid end to end in a page: into places, judged, and back. Unpacking goes by groups
// of eight (`groups`), packing by numbers of at most 56 bits that several entries are joined to (`chunks`);
// both have a copy of their loop for each width (`by_width`). What is left at the end goes one by one. The
// laws stand in specs/.
#![tactic(auto)]

pub mod by_width;
pub mod chunks;
pub mod groups;
pub mod judging;
pub mod packing;
pub mod unpacking;
