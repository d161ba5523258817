// What the calls of this crate return that no call below does.
use masks::shape::Shape;

// A value whose scalar was taken: its coefficients are in the caller's output.
#[derive(Clone, Copy)]
pub struct Taken {
    pub shape: Shape,
    pub value: f64,
}
