// Equality and order, as the reference has them.
ghost use Rattle.masks.specs.ShapeBytes.{shape_from};
ghost use Rattle.arithmetic.specs.Compare.{equals, compared};
ghost use Rattle.exports.specs.Reports.{ReportsYesNo, ReportsOrder};

use super::numbers::order_number;
use super::reports::report;
use arithmetic::compare::{cmp, eq};
use masks::shape_bytes::shape_from;

// The Rust's ==: any two values that are not scalar are equal.
#[unsafe(no_mangle)]
pub extern "C" fn thresholm_eq(
    left: &[u8; 6],
    right: &[u8; 6],
    a: &[f64],
    b: &[f64],
    to_yes: &mut u8,
) -> u8
    ensures { ReportsYesNo (equals (shape_from left.now) (shape_from right.now) a.now b.now) result to_yes.old to_yes.new }
{
    let answer = eq(shape_from(left), shape_from(right), a, b);
    report(answer, u8::from, to_yes)
}

// The Rust's order: -1, 0 or 1.
#[unsafe(no_mangle)]
pub extern "C" fn thresholm_cmp(
    left: &[u8; 6],
    right: &[u8; 6],
    a: &[f64],
    b: &[f64],
    to_order: &mut i8,
) -> u8
    ensures { ReportsOrder (compared (shape_from left.now) (shape_from right.now) a.now b.now) result to_order.old to_order.new }
{
    let answer = cmp(shape_from(left), shape_from(right), a, b);
    report(answer, order_number, to_order)
}
