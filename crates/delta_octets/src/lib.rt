// At most eight entries of a delta page from their packed numbers: tested into a byte of the bitmap, or put
// into places.
#![tactic(auto)]

pub mod placing;
pub mod steps;
pub mod testing;
pub mod writing;
