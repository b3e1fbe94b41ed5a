// Run streams: one run at a place of a page, and a whole stream judged. The grammar's laws stand in specs/.
#![tactic(auto)]

pub mod answering;
pub mod handing;
pub mod judging;
pub mod one;
pub mod plain;
pub mod reader;
pub mod reading;
