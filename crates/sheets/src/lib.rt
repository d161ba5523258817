// The rig sheet, read and written: the top of the chain.
#![tactic(auto)]

mod bytes;
pub mod patterns;
pub mod read;
pub mod shapes;
pub mod values;
pub mod write;
