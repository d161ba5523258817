// Values from few numbers.
ghost use Rattle.std.specs.Prelude.{length};
ghost use Rattle.masks.specs.Build.{vector, n_1_blades, scalar, pseudoscalar, blades_of_side};
ghost use Rattle.masks.specs.ShapeBytes.{shape_from};
ghost use Rattle.exports.specs.Reports.{ReportsValue};

use super::numbers::flavor_in;
use super::reports::report;
use masks::build::{blades_left, blades_right, n_1_blades, pseudoscalar, scalar, vector};
use masks::shape_bytes::{shape_bytes, shape_from};

// A value from the numbers of its first grade.
#[unsafe(no_mangle)]
pub extern "C" fn thresholm_vector(
    v: &[f64],
    flavor: &[u8; 6],
    out: &mut [f64],
    to_shape: &mut [u8; 6],
) -> u8
    ensures { ReportsValue (vector v.now (shape_from flavor.now).flavor (length out.old)) result out.old out.new to_shape.old to_shape.new }
{
    let answer = vector(v, flavor_in(flavor), out);
    report(answer, shape_bytes, to_shape)
}

// A value from the numbers of the grade below its last.
#[unsafe(no_mangle)]
pub extern "C" fn thresholm_n_1_blades(
    v: &[f64],
    flavor: &[u8; 6],
    out: &mut [f64],
    to_shape: &mut [u8; 6],
) -> u8
    ensures { ReportsValue (n_1_blades v.now (shape_from flavor.now).flavor (length out.old)) result out.old out.new to_shape.old to_shape.new }
{
    let answer = n_1_blades(v, flavor_in(flavor), out);
    report(answer, shape_bytes, to_shape)
}

// A value whose place 0 is x.
#[unsafe(no_mangle)]
pub extern "C" fn thresholm_scalar(
    shape: &[u8; 6],
    x: f64,
    out: &mut [f64],
    to_shape: &mut [u8; 6],
) -> u8
    ensures { ReportsValue (scalar (shape_from shape.now).dims x (shape_from shape.now).flavor (length out.old)) result out.old out.new to_shape.old to_shape.new }
{
    let stated = shape_from(shape);
    let flavor = stated.flavor;
    let answer = scalar(stated.dims, x, flavor, out);
    report(answer, shape_bytes, to_shape)
}

// A value whose last place is x.
#[unsafe(no_mangle)]
pub extern "C" fn thresholm_pseudoscalar(
    shape: &[u8; 6],
    x: f64,
    out: &mut [f64],
    to_shape: &mut [u8; 6],
) -> u8
    ensures { ReportsValue (pseudoscalar (shape_from shape.now).dims x (shape_from shape.now).flavor (length out.old)) result out.old out.new to_shape.old to_shape.new }
{
    let stated = shape_from(shape);
    let flavor = stated.flavor;
    let answer = pseudoscalar(stated.dims, x, flavor, out);
    report(answer, shape_bytes, to_shape)
}

// A value from a packing of its numbers, filled from the left.
#[unsafe(no_mangle)]
pub extern "C" fn thresholm_blades_left(
    shape: &[u8; 6],
    v: &[f64],
    out: &mut [f64],
    to_shape: &mut [u8; 6],
) -> u8
    ensures { ReportsValue (blades_of_side 0 (shape_from shape.now).dims v.now (shape_from shape.now).flavor (length out.old)) result out.old out.new to_shape.old to_shape.new }
{
    let stated = shape_from(shape);
    let flavor = stated.flavor;
    let answer = blades_left(stated.dims, v, flavor, out);
    report(answer, shape_bytes, to_shape)
}

// A value from a packing of its numbers, filled from the right.
#[unsafe(no_mangle)]
pub extern "C" fn thresholm_blades_right(
    shape: &[u8; 6],
    v: &[f64],
    out: &mut [f64],
    to_shape: &mut [u8; 6],
) -> u8
    ensures { ReportsValue (blades_of_side 1 (shape_from shape.now).dims v.now (shape_from shape.now).flavor (length out.old)) result out.old out.new to_shape.old to_shape.new }
{
    let stated = shape_from(shape);
    let flavor = stated.flavor;
    let answer = blades_right(stated.dims, v, flavor, out);
    report(answer, shape_bytes, to_shape)
}
