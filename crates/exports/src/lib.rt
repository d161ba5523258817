// The C face: the calls that users need, on numbers, slices, and references to numbers and to shapes. A shape is six bytes: dims, kind, p,
// n, z, mark (masks, shape_bytes). A refused call reports nothing and writes nothing.
#![tactic(auto)]

pub mod blades;
pub mod build;
pub mod compare;
pub mod cues;
mod faces;
pub mod flavors;
mod numbers;
pub mod operators;
pub mod order;
pub mod products;
mod reports;
pub mod shapes;
pub mod sheet;
pub mod unpack;
pub mod values;
pub mod version;
