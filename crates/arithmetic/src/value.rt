// A value as the calls inside this crate take it, once it is tested.
ghost use Rattle.std.specs.Prelude.{◌≡◌, ◌≤◌, ◌^◌, length};

use masks::shape::Shape;

// A value of at most nine dimensions: as many numbers as there are blades.
#[derive(Clone, Copy)]
pub(crate) struct Value<'a> {
    pub shape: Shape,
    pub numbers: &'a [f64],
    ghost small: { shape.dims ≤ 9 },
    ghost counted: { length numbers.now ≡ 2 ^ shape.dims },
}
