// The scalar test.
ghost use Rattle.std.specs.Prelude.{◌≡◌, false, ◌&&◌, ◌+◌, ◌^◌, ◌≤◌, length, drop};
ghost use Rattle.masks.specs.Outcome.{IsAnswer};
ghost use Rattle.arithmetic.specs.Scalar.{all_zero, is_scalar, is_vanilla, is_planar, test_of, scalar_test};

use super::value::Value;
use masks::flavor::Flavor;
use masks::outcome::{Refusal, value_refusal};
use masks::shape::Shape;

// A complex number.
#[derive(Clone, Copy, PartialEq, Debug)]
pub struct Complex {
    pub re: f64,
    pub im: f64,
}

// What the test answers.
#[derive(Clone, Copy, PartialEq, Debug)]
pub enum ScalarTest {
    Scalar(f64),
    Planar(Complex),
    Neither,
}

// Whether every number from the place `first` on equals zero. Places are counted by hand, here and below: by `all`, and by a range of fours, the
// scalar test takes 1.1 to 1.5 times as long, above its bar (docs/SPEED.md).
fn zero_from(a: &[f64], first: usize) -> bool
    ensures { result ≡ all_zero (drop first a.now) }
{
    let mut i = first;
    while i < a.len() {
        if a[i] != 0.0 {
            return false;
        }
        i += 1;
    }
    true
}

// Whether the four numbers from place i on equal zero.
fn four_zero(a: &[f64], i: usize) -> bool
    requires { i + 4 ≤ length a.now }
    ensures { all_zero (drop i a.now) ≡ (result && all_zero (drop (i + 4) a.now)) }
{
    (a[i] == 0.0) & (a[i + 1] == 0.0) & (a[i + 2] == 0.0) & (a[i + 3] == 0.0)
}

// Whether every number from place 4 on equals zero, four at a time.
fn zero_by_fours(a: &[f64]) -> bool
    requires { 4 ≤ length a.now }
    ensures { result ≡ all_zero (drop 4 a.now) }
{
    let mut i: usize = 4;
    while i + 4 <= a.len() {
        if !four_zero(a, i) {
            return false;
        }
        i += 4;
    }
    zero_from(a, i)
}

// Whether every number after place 0 equals zero.
pub(crate) fn is_scalar(a: &[f64]) -> bool
    ensures { result ≡ is_scalar a.now }
{
    if a.len() < 4 {
        if a.len() == 0 {
            return false;
        }
        return zero_from(a, 1);
    }
    if a[1] == 0.0 {
        if a[2] == 0.0 {
            if a[3] == 0.0 {
                return zero_by_fours(a);
            }
            return false;
        }
        return false;
    }
    false
}

fn is_vanilla(flavor: Flavor) -> bool
    ensures { result ≡ is_vanilla flavor }
{
    matches!(flavor, Flavor::Vanilla)
}

// The shape and the numbers by themselves, here and below: as one value they make the scalar test take a fifth longer, above its bar.
fn is_planar(shape: Shape, a: &[f64]) -> bool
    requires { length a.now ≡ 2 ^ shape.dims }
    ensures { result ≡ is_planar shape a.now }
{
    if shape.dims != 2 {
        return false;
    }
    let flavor = shape.flavor;
    is_vanilla(flavor) && a[1] == 0.0 && a[2] == 0.0
}

// The test of a value that is not scalar.
fn test_other(shape: Shape, a: &[f64]) -> ScalarTest
    requires { (length a.now ≡ 2 ^ shape.dims) × (is_scalar a.now ≡ false) }
    ensures { result ≡ test_of shape a.now }
{
    if is_planar(shape, a) {
        let pair = Complex { re: a[0], im: a[3] };
        return ScalarTest::Planar(pair);
    }
    ScalarTest::Neither
}

// Scalar is tried first.
pub(crate) fn test_of(value: Value) -> ScalarTest
    ensures { result ≡ test_of value.entry.shape value.entry.numbers.now }
{
    if is_scalar(value.numbers) {
        return ScalarTest::Scalar(value.numbers[0]);
    }
    test_other(value.shape, value.numbers)
}

// The scalar test of a value; as `test_of` does it, which is not called, so that its answer is not copied.
pub fn scalar_test(shape: Shape, a: &[f64]) -> Result<ScalarTest, Refusal>
    ensures { IsAnswer (scalar_test shape a.now).number (scalar_test shape a.now).test result }
{
    value_refusal(shape.dims, a.len())?;
    if is_scalar(a) {
        return Ok(ScalarTest::Scalar(a[0]));
    }
    Ok(test_other(shape, a))
}
