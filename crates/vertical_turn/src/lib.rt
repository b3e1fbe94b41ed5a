// One group of 64 entries turned between bit planes and places, byte by byte: eight planes at a time give
// each entry a byte more, and a byte of each entry gives eight planes. The laws stand in specs/.
#![tactic(auto)]

pub mod gathering;
pub mod packing;
pub mod turning;
pub mod unpacking;
