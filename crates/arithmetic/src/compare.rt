// Equality and order, as the reference has them.
ghost use Rattle.std.specs.Prelude.{◌≡◌, true, ◌&&◌, ◌||◌, ◌≤◌, ◌<◌, length, get_or, drop};
ghost use Rattle.std.specs.Float.{nan};
ghost use Rattle.std.specs.Float.Ieee.{eq};
ghost use Rattle.masks.specs.declared.flavor.Flavor.TheVariants.{Vanilla};
ghost use Rattle.masks.specs.Outcome.{IsAnswer, refusal, shape_of};
ghost use Rattle.arithmetic.specs.Scalar.{is_scalar, test_of};
ghost use Rattle.arithmetic.specs.Compare.{compared_tests, answers_agree, same_number, same_places, equals, compared_nans, compared_numbers, compared_places, compared_lists, compared_by, compared};

use super::scalar::is_scalar;
use super::value::Value;
use masks::flavor::Flavor;
use masks::outcome::{Refusal, pair_refusal, shape_of};
use masks::shape::Shape;
use std::cmp::Ordering;

// Whether a comparison is refused: room for any value is never too little.
fn compare_refusal(left: Shape, right: Shape, a: &[f64], b: &[f64]) -> Result<(), Refusal>
    ensures { IsAnswer (refusal (compared_tests left right a.now b.now)) tt result }
{
    pair_refusal(left.dims, right.dims, left.dims, a.len(), b.len(), 512)
}

// NaN is equal to NaN.
#[tactic(auto, unfolding(crate::specs::Compare::same_number))]
fn same_number(x: f64, y: f64) -> bool
    ensures { result ≡ same_number x y }
{
    x == y || (x.is_nan() && y.is_nan())
}

// Whether two scalars are equal: of one count NaN is equal to NaN.
fn equal_scalars(a: &[f64], b: &[f64]) -> bool
    requires { (is_scalar a.now ≡ true) × (is_scalar b.now ≡ true) }
    ensures { result ≡ (eq (get_or a.now 0 nan) (get_or b.now 0 nan) || same_places a.now b.now) }
{
    if a.len() == b.len() {
        return same_number(a[0], b[0]);
    }
    a[0] == b[0]
}

// Whether two values that are not refused are equal: a scalar and another value have no places in common.
fn equal_values(left: Shape, right: Shape, a: &[f64], b: &[f64]) -> bool
    ensures { result ≡ (answers_agree (test_of left a.now) (test_of right b.now) || same_places a.now b.now) }
{
    if is_scalar(a) {
        if is_scalar(b) {
            return equal_scalars(a, b);
        }
        return false;
    }
    !is_scalar(b)
}

// `==` of values of these dimensions: flavors play no part in it.
fn eq_dims(dims: u8, other: u8, a: &[f64], b: &[f64]) -> Result<bool, Refusal>
    ensures { IsAnswer (equals (shape_of dims Vanilla) (shape_of other Vanilla) a.now b.now).number (equals (shape_of dims Vanilla) (shape_of other Vanilla) a.now b.now).yes result }
{
    let plain = shape_of(dims, Flavor::Vanilla);
    let plain_right = shape_of(other, Flavor::Vanilla);
    compare_refusal(plain, plain_right, a, b)?;
    Ok(equal_values(plain, plain_right, a, b))
}

// `==` as the reference has it: any two values that are not scalar are equal.
pub fn eq(left: Shape, right: Shape, a: &[f64], b: &[f64]) -> Result<bool, Refusal>
    ensures { IsAnswer (equals left right a.now b.now).number (equals left right a.now b.now).yes result }
{
    eq_dims(left.dims, right.dims, a, b)
}

// Where neither number is less: NaN is greatest.
fn compare_nan(x: f64, y: f64) -> Ordering
    ensures { result ≡ compared_nans x y }
{
    x.is_nan().cmp(&y.is_nan())
}

fn compare_numbers(x: f64, y: f64) -> Ordering
    ensures { result ≡ compared_numbers x y }
{
    match x.partial_cmp(&y) {
        Some(order) => order,
        None => compare_nan(x, y),
    }
}

// The places from `first` on: the first that differs decides.
fn compare_from(a: &[f64], b: &[f64], first: usize) -> Ordering
    requires { length a.now ≡ length b.now }
    ensures { result ≡ compared_places (drop first a.now) (drop first b.now) }
{
    for i in first..a.len() {
        match compare_numbers(a[i], b[i]) {
            Ordering::Equal => {}
            order => return order,
        }
    }
    Ordering::Equal
}

// Whether the first four numbers are equal, with no branch between them.
#[inline]
pub(crate) fn four_equal(a: &[f64], b: &[f64]) -> bool
    requires { (4 ≤ length a.now) × (4 ≤ length b.now) }
    ensures { result ≡ (((eq (get_or a.now 0 nan) (get_or b.now 0 nan) && eq (get_or a.now 1 nan) (get_or b.now 1 nan)) && eq (get_or a.now 2 nan) (get_or b.now 2 nan)) && eq (get_or a.now 3 nan) (get_or b.now 3 nan)) }
{
    (a[0] == b[0]) & (a[1] == b[1]) & (a[2] == b[2]) & (a[3] == b[3])
}

// The first place that differs decides; four that are equal are passed at a time.
fn compare_by_fours(a: &[f64], b: &[f64]) -> Ordering
    requires { length a.now ≡ length b.now }
    ensures { result ≡ compared_places a.now b.now }
{
    let fours = a.len() / 4;
    for k in 0..fours {
        if !four_equal(&a[4 * k..], &b[4 * k..]) {
            return compare_from(a, b, 4 * k);
        }
    }
    compare_from(a, b, 4 * fours)
}

// The same, where place 0 is looked at first.
fn compare_places(a: &[f64], b: &[f64]) -> Ordering
    requires { (0 < length a.now) × (length a.now ≡ length b.now) }
    ensures { result ≡ compared_places a.now b.now }
{
    if a[0] < b[0] {
        return Ordering::Less;
    }
    if b[0] < a[0] {
        return Ordering::Greater;
    }
    compare_by_fours(a, b)
}

// Values of two counts.
fn compare_counts(a: &[f64], b: &[f64]) -> Ordering
    requires { length a.now ≡ length b.now → ⊥ }
    ensures { result ≡ compared_lists a.now b.now }
{
    a.len().cmp(&b.len())
}

// The order of two values that are not refused. Where the counts are equal the first place that differs decides between scalars too.
fn compare_values(left: Value, right: Value) -> Ordering
    ensures { result ≡ compared_by (test_of left.entry.shape left.entry.numbers.now) (test_of right.entry.shape right.entry.numbers.now) left.entry.numbers.now right.entry.numbers.now }
{
    let a = left.numbers;
    let b = right.numbers;
    if a.len() == b.len() {
        return compare_places(a, b);
    }
    if !is_scalar(a) {
        return compare_counts(a, b);
    }
    if !is_scalar(b) {
        return compare_counts(a, b);
    }
    compare_numbers(a[0], b[0])
}

// `cmp`: scalars by their numbers, NaN greatest; else by count, then by the first place that differs.
pub fn cmp(left: Shape, right: Shape, a: &[f64], b: &[f64]) -> Result<Ordering, Refusal>
    ensures { IsAnswer (compared left right a.now b.now).number (compared left right a.now b.now).order result }
{
    compare_refusal(left, right, a, b)?;
    let value = Value {
        shape: left,
        numbers: a,
    };
    let value_right = Value {
        shape: right,
        numbers: b,
    };
    Ok(compare_values(value, value_right))
}
