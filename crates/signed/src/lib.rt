// Signed numbers of 32 bits: zigzag, and kept as unsigned ones that wrap. Their laws stand in specs/, over
// the width W.
#![tactic(auto)]

pub mod magnitudes;
pub mod wrapping;
pub mod zigzag;
