// How a product is made, and what of.
ghost use Rattle.std.specs.Prelude.{◌≡◌, ◌^◌, ◌≤◌, length};

use super::mode::Mode;
use masks::shape::Shape;

// The shape of the values, which pairs are taken, and the masks of the places, which are as many as the values have.
#[derive(Clone, Copy)]
pub struct Plan<'a> {
    pub shape: Shape,
    pub mode: Mode,
    pub given: &'a [u16],
    ghost small: { shape.dims ≤ 9 },
    ghost enough: { 2 ^ shape.dims ≤ length given.now },
}

// a's numbers by mask.
#[derive(Clone, Copy)]
pub struct Left<'a> {
    pub dims: u8,
    pub am: &'a [f64],
    ghost few: { dims ≤ 9 },
    ghost left: { length am.now ≡ 2 ^ dims },
}
