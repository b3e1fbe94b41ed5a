// Groups of eight packed entries compared where they lie, a byte of the bitmap for each. Every kernel has
// the same contract and the same loop (`kernels`). Entries of up to 8 bits are taken eight at once
// (`eights`), of up to 16 four and four (`fours`), of 17 to 30 two and two (`twos`), of 31 and 32 one by
// one (`singly`). Several at once stand in slots that are wider than they (`slots`): bit w of a sum says
// whether an entry is low or more, bit w of a difference whether it is high or less, and no slot reaches
// the next (`slot-test` in specs/SlotTests.antt).
#![tactic(auto)]

pub mod eights;
pub mod fours;
pub mod kernels;
pub mod singly;
pub mod slots;
pub mod twos;
