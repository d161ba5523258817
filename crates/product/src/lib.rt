// The five products of multivectors, their counts of contributing pairs, and snapping.
#![tactic(auto)]

mod metric;
pub mod mode;
pub mod outcome;
mod pairs;
mod plan;
pub mod products;
mod snap;
mod sums;
