// The arithmetic of multivectors: operators, duals, inverse, powers, equality and order.
#![tactic(auto)]

pub mod compare;
pub mod dual;
pub mod inverse;
pub mod kept;
pub mod magnitude;
pub mod operators;
pub mod outcome;
pub mod power;
pub mod quotient;
pub mod reverse;
pub mod scalar;
pub mod scale;
mod value;
