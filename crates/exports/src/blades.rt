// Single blades, and single grades.
ghost use Rattle.std.specs.Prelude.{◌≡◌, [], ◌∷◌, ◌≤◌, length};
ghost use Rattle.masks.specs.Order.{start, size};
ghost use Rattle.masks.specs.Blade.{get_blade, set_blade, grade_refusal};
ghost use Rattle.masks.specs.ShapeBytes.{shape_from};
ghost use Rattle.exports.specs.Reports.{Reports, ReportsNumber, ReportsValue};

use super::reports::{DONE, report};
use masks::order::size_or_none;
use masks::shape_bytes::{shape_bytes, shape_from};
use std::convert::identity;

// The place at which a grade starts.
fn start_of(dims: u8, grade: u8) -> usize
    requires { (dims ≤ 9) × (grade ≤ dims) }
    ensures { result ≡ start dims grade }
{
    let mut sum: usize = 0;
    for g in 0..grade {
        sum += size_or_none(dims, g);
    }
    sum
}

// The coefficient of a mask, +0 for a mask outside.
#[unsafe(no_mangle)]
pub extern "C" fn thresholm_get_blade(
    shape: &[u8; 6],
    mask: usize,
    a: &[f64],
    to_value: &mut f64,
) -> u8
    ensures { ReportsNumber (get_blade (shape_from shape.now) mask a.now) result to_value.old to_value.new }
{
    report(shape_from(shape).get_blade(mask, a), identity, to_value)
}

// The value with x at a mask, grown where the mask is outside.
#[unsafe(no_mangle)]
pub extern "C" fn thresholm_set_blade(
    shape: &[u8; 6],
    mask: usize,
    x: f64,
    a: &[f64],
    out: &mut [f64],
    to_shape: &mut [u8; 6],
) -> u8
    ensures { ReportsValue (set_blade (shape_from shape.now) mask x a.now (length out.old)) result out.old out.new to_shape.old to_shape.new }
{
    let answer = shape_from(shape).set_blade(mask, x, a, out);
    report(answer, shape_bytes, to_shape)
}

// One grade of a value: the place at which it starts, and how many numbers it has.
#[unsafe(no_mangle)]
pub extern "C" fn thresholm_grade(
    shape: &[u8; 6],
    grade: u8,
    a: &[f64],
    to_start: &mut usize,
    to_count: &mut usize,
) -> u8
    ensures { Reports (grade_refusal (shape_from shape.now) grade a.now) (start (shape_from shape.now).dims grade ∷ size (shape_from shape.now).dims grade ∷ []) result (to_start.old ∷ to_count.old ∷ []) (to_start.new ∷ to_count.new ∷ []) }
{
    let own = shape_from(shape);
    let dims = own.dims;
    if let Err(refusal) = own.grade_refusal(grade, a) {
        return refusal.number();
    }
    *to_start = start_of(dims, grade);
    *to_count = size_or_none(dims, grade);
    DONE
}
