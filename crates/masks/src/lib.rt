// Grades, masks, flavors and their text; shapes, their bytes and their changes; building and unpacking: the lowest layer of the chain.
#![tactic(auto)]

pub mod blade;
pub mod build;
mod coefs;
pub mod flavor;
mod gather;
pub mod order;
pub mod outcome;
pub mod shape;
pub mod shape_bytes;
pub mod text;
pub mod unpack;
mod walk;
