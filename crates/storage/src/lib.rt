// The ring buffer over supplied slots, its readers, and the issuer of its instance numbers.
#![tactic(auto)]

pub mod circular;
mod data;
pub mod freed;
pub mod grant;
pub mod opening;
pub mod reader;
pub mod reading;
pub mod registering;
pub mod ring;
pub mod util;
pub mod view;
pub mod writing;
pub mod written;
