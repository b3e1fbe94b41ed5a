// What a word of the command line asks for: a number, a time, an operator, a layout, an option, help.
#![tactic(auto)]

pub mod finding;
pub mod names;
pub mod numbers;
pub mod times;
