// The parts of a script runner that don't need a ring: scripts are read and checked, lines are written.
#![tactic(auto)]

pub mod check;
mod cursor;
mod events;
pub mod line;
pub mod mark;
mod number;
pub mod record;
pub mod records;
