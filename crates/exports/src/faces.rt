// What is reported of each kind of answer: a shape by its six bytes.
ghost use Rattle.std.specs.Prelude.{◌≡◌, length};
ghost use Rattle.masks.specs.Outcome.{shape_of};
ghost use Rattle.masks.specs.ShapeBytes.{shape_bytes};
ghost use Rattle.exports.specs.inner.Answers.{stop_number};
ghost use Rattle.exports.specs.Numbers.{test_number, real_part, imaginary_part};

use arithmetic::outcome::Taken;
use arithmetic::scalar::ScalarTest;
use masks::flavor::Flavor;
use masks::outcome::{Refusal, shape_of};
use masks::shape::Shape;
use masks::shape_bytes::shape_bytes;
use product::outcome::Product;
use replay::outcome::Replay;
use sheets::read::SheetRead;
use sheets::values::Placed;

// A flavor, as the shape of 0 dimensions.
pub(crate) fn flavor_face(flavor: Flavor) -> [u8; 6]
    ensures { result ≡ shape_bytes (shape_of 0 flavor) }
{
    shape_bytes(shape_of(0, flavor))
}

// Two shapes.
pub(crate) fn pair_face(shapes: (Shape, Shape)) -> ([u8; 6], [u8; 6])
    ensures { result ≡ (shape_bytes shapes.0, shape_bytes shapes.1) }
{
    let (left, right) = shapes;
    (shape_bytes(left), shape_bytes(right))
}

// A product's shape, and the number of its pairs.
pub(crate) fn product_face(product: Product) -> ([u8; 6], u32)
    ensures { result ≡ (shape_bytes product.shape, product.pairs) }
{
    (shape_bytes(product.shape), product.pairs)
}

// The number of a scalar test's answer, and its two parts: +0 where there is none.
pub(crate) fn test_face(test: ScalarTest) -> (u8, f64, f64)
    ensures { result ≡ (test_number test, real_part test, imaginary_part test) }
{
    match test {
        ScalarTest::Scalar(x) => (0, x, 0.0),
        ScalarTest::Planar(c) => (1, c.re, c.im),
        ScalarTest::Neither => (2, 0.0, 0.0),
    }
}

// The shape of a value whose scalar was taken, and the scalar.
pub(crate) fn taken_face(taken: Taken) -> ([u8; 6], f64)
    ensures { result ≡ (shape_bytes taken.shape, taken.value) }
{
    (shape_bytes(taken.shape), taken.value)
}

// The shape of a value of a sheet, and where its patterns start.
pub(crate) fn place_face(placed: Placed) -> ([u8; 6], usize)
    ensures { result ≡ (shape_bytes placed.shape, placed.start) }
{
    (shape_bytes(placed.shape), placed.start)
}

// How many shapes and patterns a sheet has.
pub(crate) fn sheet_face(sheet: SheetRead) -> (usize, usize)
    ensures { result ≡ (sheet.shapes.count, sheet.count) }
{
    (sheet.shapes.count, sheet.count)
}

// The number of what a replay stopped with, or 0.
fn stop_number(stopped: Option<Refusal>) -> u8
    ensures { result ≡ stop_number stopped }
{
    match stopped {
        Some(refusal) => refusal.number(),
        None => 0,
    }
}

// A pose's shape, how many steps led to it, and the number of the refusal that it stopped with.
pub(crate) fn replay_face(replay: Replay) -> ([u8; 6], usize, u8)
    ensures { result ≡ (shape_bytes replay.shape, replay.steps, stop_number replay.stopped) }
{
    let stopped = stop_number(replay.stopped);
    (shape_bytes(replay.shape), replay.steps, stopped)
}
