// A page of a column: scanned by its layout, and answered from its file.
#![tactic(auto)]

pub mod answering;
pub mod layouts;
