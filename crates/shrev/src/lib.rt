// The event channel: a ring by reader id.
#![tactic(auto)]

pub mod channel;
pub mod id;
