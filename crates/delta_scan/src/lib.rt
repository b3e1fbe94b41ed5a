// Delta pages: scan.
#![tactic(auto)]

pub mod scanning;
