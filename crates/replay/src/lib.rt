// Runs a list of calls on a channel that is opened for it, and says what every such run answers.
#![tactic(auto)]

pub mod laws;
pub mod run;
pub mod step;
pub mod words;
