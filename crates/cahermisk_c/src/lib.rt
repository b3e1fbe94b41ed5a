// The C functions of include/cahermisk.h as C calls them: each is the function of the same name in cahermisk, with its
// clauses again, and nothing more.
#![tactic(auto)]

pub mod delta;
pub mod dictionary;
pub mod horizontal;
pub mod rooms;
pub mod runs;
pub mod spans;
pub mod version;
pub mod vertical;
