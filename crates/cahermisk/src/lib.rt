// The C functions of include/cahermisk.h. Each is its layout's operation, and nothing more; and what a caller
// asks before: how many places to lend, which version this is.
#![tactic(auto)]

pub mod delta;
pub mod dictionary;
pub mod horizontal;
pub mod rooms;
pub mod runs;
pub mod spans;
pub mod version;
pub mod vertical;
