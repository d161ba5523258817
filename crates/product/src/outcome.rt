// What a product returns.
use masks::shape::Shape;

// The shape of a value with the number of its contributing pairs: its coefficients are in the caller's output.
#[derive(Clone, Copy, PartialEq, Eq, Debug)]
pub struct Product {
    pub shape: Shape,
    pub pairs: u32,
}
