// Replay of a reel's cues: the steps of a log, carried out over a rig sheet's values.
#![tactic(auto)]

pub mod log;
pub mod outcome;
pub mod replay;
mod step;
mod value;
