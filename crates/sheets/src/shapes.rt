// The record in which a sheet's shapes travel, and its list in bytes.
ghost use Rattle.std.specs.Prelude.{◌≡◌, false, map, [], ◌∷◌, ◌++◌, ◌≤◌, length};
ghost use Rattle.masks.specs.Outcome.{Writes};
ghost use Rattle.masks.specs.ShapeBytes.{shape_bytes, shape_from};
ghost use Rattle.sheets.specs.Format.{any_above_nine, blade_total};
ghost use Rattle.sheets.specs.Shapes.{blank_shapes, shapes_of, listed_shapes, said_shapes, shape_list};
ghost use Rattle.sheets.specs.inner.Items.{Makes};

use super::bytes::{put_bytes, put_made};
use masks::flavor::Flavor;
use masks::order::blades_or_none;
use masks::outcome::{MAX_DIMS, Refusal, shape_of};
use masks::shape::Shape;
use masks::shape_bytes::{shape_bytes, shape_from};

// The most shapes, and the most coefficients, that a sheet has.
pub const MAX_SHAPES: usize = 64;

pub const MAX_COEFFICIENTS: usize = 4096;

// The first `count` of those that are held are listed. No list of its own length: a record may count more than 64, and `value_at` answers it.
#[derive(Clone, Copy)]
pub struct Shapes {
    pub count: usize,
    pub held: [Shape; 64],
}

impl Shapes {
    // The shapes that are listed: no more than are held.
    pub fn listed(&self) -> &[Shape]
        ensures { result.now ≡ listed_shapes self.now }
    {
        &self.held[..self.count.min(MAX_SHAPES)]
    }
}

// Shape 0 Vanilla in every place.
fn blank_shapes() -> [Shape; 64]
    ensures { result ≡ blank_shapes }
{
    [shape_of(0, Flavor::Vanilla); 64]
}

// The shape that five bytes say.
pub(crate) fn shape_at(five: [u8; 5]) -> Shape
    ensures { result ≡ shape_from five }
{
    shape_from(&[five[0], five[1], five[2], five[3], five[4], 0])
}

// The shape that six bytes say.
fn shape_in(six: [u8; 6]) -> Shape
    ensures { result ≡ shape_from six }
{
    shape_from(&six)
}

// The shapes that f makes of each item: all are counted, and the first 64 held.
#[inline(never)]
pub(crate) fn shapes_by<A: Copy, F: Fn(A) -> Shape>(items: &[A], f: F) -> Shapes
    requires { F.IsAlwaysCallable f }
    ensures { (g : A → Shape) → Makes (F.post f) g items.now → result ≡ shapes_of (map g items.now) }
{
    let mut held = blank_shapes();
    put_made(&items[..items.len().min(MAX_SHAPES)], f, &mut held);
    Shapes {
        count: items.len(),
        held,
    }
}

// The shapes that a list says, six bytes each.
pub fn shapes_from(bytes: &[u8]) -> Shapes
    ensures { result ≡ shapes_of (said_shapes 6 bytes.now) }
{
    let (sixes, _) = bytes.as_chunks::<6>();
    shapes_by(sixes, shape_in)
}

// The six bytes of a shape, and two zeros.
pub(crate) fn padded_bytes(shape: Shape) -> [u8; 8]
    ensures { result ≡ shape_bytes shape ++ 0 ∷ 0 ∷ [] }
{
    let six = shape_bytes(shape);
    [six[0], six[1], six[2], six[3], six[4], six[5], 0, 0]
}

// The list of a record's shapes, six bytes each, from the front of the output, and how many bytes it has.
pub fn shapes_to(shapes: Shapes, out: &mut [u8]) -> Result<usize, Refusal>
    ensures { Writes (shape_list shapes (length out.old)) result out.old out.new }
{
    let listed = shapes.listed();
    let size = 6 * listed.len();
    if out.len() < size {
        return Err(Refusal::NoRoom);
    }
    put_bytes(listed, 6, padded_bytes, 0, out);
    Ok(size)
}

// Whether one of some shapes has more than nine dimensions.
pub(crate) fn any_above_nine(shapes: &[Shape]) -> bool
    ensures { result ≡ any_above_nine shapes.now }
{
    shapes.iter().any(|shape| MAX_DIMS < shape.dims)
}

// How many coefficients some shapes have.
pub(crate) fn blade_total(shapes: &[Shape]) -> usize
    requires { (length shapes.now ≤ 64) × (any_above_nine shapes.now ≡ false) }
    ensures { result ≡ blade_total shapes.now }
{
    let mut sum = 0;
    for shape in shapes {
        sum += blades_or_none(shape.dims);
    }
    sum
}
