// Operators.
ghost use Rattle.std.specs.Prelude.{length};
ghost use Rattle.masks.specs.ShapeBytes.{shape_from};
ghost use Rattle.arithmetic.specs.Operators.{Plus, Minus, multiplication, addition};
ghost use Rattle.arithmetic.specs.Quotient.{quotient};
ghost use Rattle.arithmetic.specs.Scale.{mul_f64, div_f64, negation};
ghost use Rattle.exports.specs.Reports.{ReportsValue};

use super::reports::report;
use arithmetic::operators::{add, mul, sub};
use arithmetic::quotient::div;
use arithmetic::scale::{div_f64, mul_f64, neg};
use masks::shape_bytes::{shape_bytes, shape_from};

// `*` of two values.
#[unsafe(no_mangle)]
pub extern "C" fn thresholm_mul(
    left: &[u8; 6],
    right: &[u8; 6],
    a: &[f64],
    b: &[f64],
    out: &mut [f64],
    to_shape: &mut [u8; 6],
) -> u8
    ensures { ReportsValue (multiplication (shape_from left.now) (shape_from right.now) a.now b.now (length out.old)) result out.old out.new to_shape.old to_shape.new }
{
    let answer = mul(shape_from(left), shape_from(right), a, b, out);
    report(answer, shape_bytes, to_shape)
}

// `+` of two values.
#[unsafe(no_mangle)]
pub extern "C" fn thresholm_add(
    left: &[u8; 6],
    right: &[u8; 6],
    a: &[f64],
    b: &[f64],
    out: &mut [f64],
    to_shape: &mut [u8; 6],
) -> u8
    ensures { ReportsValue (addition Plus (shape_from left.now) (shape_from right.now) a.now b.now (length out.old)) result out.old out.new to_shape.old to_shape.new }
{
    let answer = add(shape_from(left), shape_from(right), a, b, out);
    report(answer, shape_bytes, to_shape)
}

// `-` of two values.
#[unsafe(no_mangle)]
pub extern "C" fn thresholm_sub(
    left: &[u8; 6],
    right: &[u8; 6],
    a: &[f64],
    b: &[f64],
    out: &mut [f64],
    to_shape: &mut [u8; 6],
) -> u8
    ensures { ReportsValue (addition Minus (shape_from left.now) (shape_from right.now) a.now b.now (length out.old)) result out.old out.new to_shape.old to_shape.new }
{
    let answer = sub(shape_from(left), shape_from(right), a, b, out);
    report(answer, shape_bytes, to_shape)
}

// `/` of two values.
#[unsafe(no_mangle)]
pub extern "C" fn thresholm_div(
    left: &[u8; 6],
    right: &[u8; 6],
    a: &[f64],
    b: &[f64],
    out: &mut [f64],
    to_shape: &mut [u8; 6],
) -> u8
    ensures { ReportsValue (quotient (shape_from left.now) (shape_from right.now) a.now b.now (length out.old)) result out.old out.new to_shape.old to_shape.new }
{
    let answer = div(shape_from(left), shape_from(right), a, b, out);
    report(answer, shape_bytes, to_shape)
}

// A value times a number.
#[unsafe(no_mangle)]
pub extern "C" fn thresholm_mul_f64(
    shape: &[u8; 6],
    f: f64,
    a: &[f64],
    out: &mut [f64],
    to_shape: &mut [u8; 6],
) -> u8
    ensures { ReportsValue (mul_f64 (shape_from shape.now) f a.now (length out.old)) result out.old out.new to_shape.old to_shape.new }
{
    let answer = mul_f64(shape_from(shape), f, a, out);
    report(answer, shape_bytes, to_shape)
}

// A value over a number.
#[unsafe(no_mangle)]
pub extern "C" fn thresholm_div_f64(
    shape: &[u8; 6],
    f: f64,
    a: &[f64],
    out: &mut [f64],
    to_shape: &mut [u8; 6],
) -> u8
    ensures { ReportsValue (div_f64 (shape_from shape.now) f a.now (length out.old)) result out.old out.new to_shape.old to_shape.new }
{
    let answer = div_f64(shape_from(shape), f, a, out);
    report(answer, shape_bytes, to_shape)
}

// A value negated.
#[unsafe(no_mangle)]
pub extern "C" fn thresholm_neg(
    shape: &[u8; 6],
    a: &[f64],
    out: &mut [f64],
    to_shape: &mut [u8; 6],
) -> u8
    ensures { ReportsValue (negation (shape_from shape.now) a.now (length out.old)) result out.old out.new to_shape.old to_shape.new }
{
    let answer = neg(shape_from(shape), a, out);
    report(answer, shape_bytes, to_shape)
}
