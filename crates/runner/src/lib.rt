// Runs scripts: the records are read, carried out on a ring, and answered by lines.
#![tactic(auto)]

pub mod export;
pub mod laws;
pub mod run;
mod session;
