// A run stream walked from run to run: each writes its entries. Here they mark bits; what a walk leaves,
// also in places, stands in specs/.
#![tactic(auto)]

pub mod marking;
pub mod walking;
