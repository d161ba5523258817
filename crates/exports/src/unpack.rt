// Some numbers of a value, by mask.
ghost use Rattle.std.specs.Prelude.{length};
ghost use Rattle.masks.specs.ShapeBytes.{shape_from};
ghost use Rattle.masks.specs.Unpack.{unpack_all, unpack_half, unpack_own_half, unpack_vector};
ghost use Rattle.exports.specs.Reports.{ReportsList};

use super::reports::report;
use masks::shape_bytes::shape_from;
use std::convert::identity;

// All coefficients by mask, at `d` dimensions.
#[unsafe(no_mangle)]
pub extern "C" fn thresholm_unpack_all(
    shape: &[u8; 6],
    d: u8,
    a: &[f64],
    out: &mut [f64],
    to_count: &mut usize,
) -> u8
    ensures { ReportsList (unpack_all (shape_from shape.now) d a.now (length out.old)) result out.old out.new to_count.old to_count.new }
{
    report(shape_from(shape).unpack_all(d, a, out), identity, to_count)
}

// The even grades, by mask, at `d` dimensions.
#[unsafe(no_mangle)]
pub extern "C" fn thresholm_unpack_even(
    shape: &[u8; 6],
    d: u8,
    a: &[f64],
    out: &mut [f64],
    to_count: &mut usize,
) -> u8
    ensures { ReportsList (unpack_half 0 (shape_from shape.now) d a.now (length out.old)) result out.old out.new to_count.old to_count.new }
{
    report(shape_from(shape).unpack_even(d, a, out), identity, to_count)
}

// The odd grades, by mask, at `d` dimensions.
#[unsafe(no_mangle)]
pub extern "C" fn thresholm_unpack_odd(
    shape: &[u8; 6],
    d: u8,
    a: &[f64],
    out: &mut [f64],
    to_count: &mut usize,
) -> u8
    ensures { ReportsList (unpack_half 1 (shape_from shape.now) d a.now (length out.old)) result out.old out.new to_count.old to_count.new }
{
    report(shape_from(shape).unpack_odd(d, a, out), identity, to_count)
}

// The even grades at the value's own dimensions.
#[unsafe(no_mangle)]
pub extern "C" fn thresholm_unpack_own_even(
    shape: &[u8; 6],
    a: &[f64],
    out: &mut [f64],
    to_count: &mut usize,
) -> u8
    ensures { ReportsList (unpack_own_half 0 (shape_from shape.now) a.now (length out.old)) result out.old out.new to_count.old to_count.new }
{
    report(
        shape_from(shape).unpack_own_even(a, out),
        identity,
        to_count,
    )
}

// The odd grades at the value's own dimensions.
#[unsafe(no_mangle)]
pub extern "C" fn thresholm_unpack_own_odd(
    shape: &[u8; 6],
    a: &[f64],
    out: &mut [f64],
    to_count: &mut usize,
) -> u8
    ensures { ReportsList (unpack_own_half 1 (shape_from shape.now) a.now (length out.old)) result out.old out.new to_count.old to_count.new }
{
    report(shape_from(shape).unpack_own_odd(a, out), identity, to_count)
}

// The numbers of the first grade.
#[unsafe(no_mangle)]
pub extern "C" fn thresholm_unpack_vector(
    shape: &[u8; 6],
    a: &[f64],
    out: &mut [f64],
    to_count: &mut usize,
) -> u8
    ensures { ReportsList (unpack_vector (shape_from shape.now) a.now (length out.old)) result out.old out.new to_count.old to_count.new }
{
    report(shape_from(shape).unpack_vector(a, out), identity, to_count)
}
