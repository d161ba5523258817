// The inverse.
ghost use Rattle.std.specs.Prelude.{◌≡◌, ◌^◌, ◌≤◌, ◌<◌, length, get_or, set, take};
ghost use Rattle.std.specs.Float.{nan};
ghost use Rattle.masks.specs.Outcome.{Gives, laid};
ghost use Rattle.arithmetic.specs.inner.Given.{InOrder};
ghost use Rattle.arithmetic.specs.Scalar.{test_of, was_planar};
ghost use Rattle.arithmetic.specs.Scale.{reciprocal};
ghost use Rattle.arithmetic.specs.Inverse.{square_of, less_scalar, by_square, nanified, general_inverse, inverse_of, inverse};

use super::kept::kept_refusal;
use super::scalar::{ScalarTest, test_of};
use super::scale::{negate, scale};
use super::value::Value;
use masks::outcome::{Refusal, lay};
use masks::shape::Shape;
use product::mode::Mode;
use product::products::multiply;

// Whether the scalar test answered planar.
#[tactic(auto, unfolding(crate::specs::Scalar::was_planar))]
pub(crate) fn was_planar(test: ScalarTest) -> bool
    ensures { result ≡ was_planar test }
{
    matches!(test, ScalarTest::Planar(_))
}

// The value squared by the pairwise product, at the front of the output.
pub(crate) fn put_square(given: &[u16], value: Value, out: &mut [f64])
    requires in_order { InOrder given.now value.shape.dims }
    requires room { 2 ^ value.shape.dims ≤ length out.old }
    ensures { out.new ≡ laid (square_of value.entry.shape value.entry.numbers.now) out.old }
{
    let Value { shape, numbers } = value;
    let _ = multiply(given, Mode::All, shape, shape, numbers, numbers, out);
}

// The scalar test of x squared, x being the value with -s added at place 0, s. The arrays for x and its square hold N numbers.
fn test_square_in<const N: usize>(given: &[u16], value: Value) -> ScalarTest
    requires in_order { InOrder given.now value.shape.dims }
    requires room { (length value.numbers.now ≤ N) × (N ≤ 512) }
    ensures { result ≡ test_of value.entry.shape (square_of value.entry.shape (less_scalar value.entry.numbers.now)) }
{
    let Value { shape, numbers: a } = value;
    let mut x = [0.0; N];
    let mut square = [0.0; N];
    lay(a, &mut x[..a.len()]);
    x[0] = a[0] + -a[0];
    let numbers = &x[..a.len()];
    put_square(given, Value { shape, numbers }, &mut square);
    let numbers = &square[..a.len()];
    test_of(Value { shape, numbers })
}

// The same, in arrays as long as the dimensions want.
fn test_square(given: &[u16], value: Value) -> ScalarTest
    requires in_order { InOrder given.now value.shape.dims }
    ensures { result ≡ test_of value.entry.shape (square_of value.entry.shape (less_scalar value.entry.numbers.now)) }
{
    if value.numbers.len() <= 64 {
        return test_square_in::<64>(given, value);
    }
    test_square_in::<512>(given, value)
}

// The value at the front, whose place 0 is s, becomes (-x + s) / (s x s - q).
fn put_by_square(n: usize, q: f64, out: &mut [f64])
    requires { (0 < n) × (n ≤ length out.old) }
    ensures { out.new ≡ laid (by_square (get_or out.old 0 nan) (less_scalar (take n out.old)) q) out.old }
{
    let s = out[0];
    out[0] = s + -s;
    negate(&mut out[..n]);
    out[0] = out[0] + s;
    scale(1.0 / (s * s - q), &mut out[..n]);
}

// All zero, NaN at place 0.
fn put_nan(dims: u8, n: usize, out: &mut [f64])
    requires { (n ≡ 2 ^ dims) × (n ≤ length out.old) }
    ensures { out.new ≡ laid (nanified dims) out.old }
{
    out[1..n].fill(0.0);
    out[0] = 0.0 / 0.0;
}

// The inverse of a value that is neither scalar nor planar.
fn put_general(given: &[u16], value: Value, out: &mut [f64])
    requires in_order { InOrder given.now value.shape.dims }
    requires room { 2 ^ value.shape.dims ≤ length out.old }
    ensures { out.new ≡ laid (general_inverse value.entry.shape value.entry.numbers.now) out.old }
{
    let Value { shape, numbers: a } = value;
    match test_square(given, value) {
        ScalarTest::Scalar(q) => {
            lay(a, &mut out[..a.len()]);
            put_by_square(a.len(), q, out);
        }
        _ => put_nan(shape.dims, a.len(), out),
    }
}

// The value with 1 / f at place 0.
fn put_reciprocal(f: f64, value: Value, out: &mut [f64])
    requires { 2 ^ value.shape.dims ≤ length out.old }
    ensures { out.new ≡ laid (set value.entry.numbers.now 0 (reciprocal f)) out.old }
{
    lay(value.numbers, &mut out[..value.numbers.len()]);
    out[0] = 1.0 / f;
}

// The inverse, at the front of the output; a planar value has none, and nothing is written.
pub(crate) fn put_inverse(given: &[u16], value: Value, out: &mut [f64])
    requires in_order { InOrder given.now value.shape.dims }
    requires room { 2 ^ value.shape.dims ≤ length out.old }
    ensures { out.new ≡ laid (inverse_of value.entry.shape value.entry.numbers.now) out.old }
{
    match test_of(value) {
        ScalarTest::Scalar(f) => put_reciprocal(f, value, out),
        ScalarTest::Planar(_) => {}
        ScalarTest::Neither => put_general(given, value, out),
    }
}

// The inverse of a value.
pub fn inverted(shape: Shape, a: &[f64], out: &mut [f64]) -> Result<Shape, Refusal>
    ensures { Gives (inverse shape a.now (length out.old)) result out.old out.new }
{
    kept_refusal(shape, a, out.len())?;
    let value = Value { shape, numbers: a };
    if was_planar(test_of(value)) {
        return Err(Refusal::Planar);
    }
    put_inverse(&[], value, out);
    Ok(shape)
}
