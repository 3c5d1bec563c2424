use source::fault::Fault;
use std::io;
use thiserror::Error;

// Why the day ends early.
#[derive(Debug, Drop, Error)]
pub enum Stop {
    #[error("the output failed: {0}")]
    Output(#[from] io::Error),
    #[error("refusal {0}")]
    Refused(#[from] Fault),
}
