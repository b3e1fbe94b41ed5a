// The whole question: the options, the places of the words left, the comparison at their end, and the files
// that words name.
#![tactic(auto)]

pub mod comparisons;
pub mod files;
pub mod options;
