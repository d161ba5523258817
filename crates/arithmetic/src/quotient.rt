// Division by a value.
ghost use Rattle.std.specs.Prelude.{◌≡◌, true, [], ◌∷◌, ◌++◌, ◌^◌, ◌≤◌, length};
ghost use Rattle.masks.specs.Outcome.{number_of, Gives, refusal};
ghost use Rattle.arithmetic.specs.Operators.{operator_tests, multiplication};
ghost use Rattle.arithmetic.specs.Inverse.{inverse_of};
ghost use Rattle.arithmetic.specs.Quotient.{quotient};

use super::inverse::put_inverse;
use super::operators::{mul_by, operator_refusal};
use super::scalar::{ScalarTest, test_of};
use super::scale::div_f64;
use super::value::Value;
use masks::order::put_order;
use masks::outcome::{Refusal, pair_refusal, value_refusal};
use masks::shape::Shape;

// Why a division by a planar value is refused, which has no inverse here: 5, where no lower one applies.
fn planar_refusal(left: Shape, right: Shape, a: &[f64], b: &[f64], room: usize) -> Refusal
    ensures { number_of result ≡ refusal (operator_tests left right a.now b.now room ++ record { fails = true; number = 5 } ∷ []) }
{
    match operator_refusal(left, right, a, b, room) {
        Err(lower) => lower,
        Ok(()) => Refusal::Planar,
    }
}

// The left side times the inverse of the right. The arrays for the inverse and for the order of its dimensions hold N numbers; that order is built here,
// once, and the product reads it too where the values meet in these dimensions.
fn mul_inverse_in<const N: usize>(
    left: Shape,
    a: &[f64],
    right: Value,
    out: &mut [f64],
) -> Result<Shape, Refusal>
    requires inverted { length (inverse_of right.shape right.numbers.now) ≡ 2 ^ right.shape.dims }
    requires room { (length right.numbers.now ≤ N) × (N ≤ 512) }
    ensures { Gives (multiplication left right.entry.shape a.now (inverse_of right.entry.shape right.entry.numbers.now) (length out.old)) result out.old out.new }
{
    let n = right.numbers.len();
    let mut order = [0; N];
    let mut inverse = [0.0; N];
    put_order(right.shape.dims, &mut order).unwrap();
    put_inverse(&order[..n], right, &mut inverse);
    mul_by(&order[..n], left, right.shape, a, &inverse[..n], out)
}

// The same, in arrays as long as the dimensions want.
fn mul_inverse(left: Shape, a: &[f64], right: Value, out: &mut [f64]) -> Result<Shape, Refusal>
    requires { length (inverse_of right.shape right.numbers.now) ≡ 2 ^ right.shape.dims }
    ensures { Gives (multiplication left right.entry.shape a.now (inverse_of right.entry.shape right.entry.numbers.now) (length out.old)) result out.old out.new }
{
    if right.numbers.len() <= 64 {
        return mul_inverse_in::<64>(left, a, right, out);
    }
    mul_inverse_in::<512>(left, a, right, out)
}

// `/` by a value: by a scalar one nothing is conformed; by others it multiplies by the inverse.
pub fn div(
    left: Shape,
    right: Shape,
    a: &[f64],
    b: &[f64],
    out: &mut [f64],
) -> Result<Shape, Refusal>
    ensures { Gives (quotient left right a.now b.now (length out.old)) result out.old out.new }
{
    if value_refusal(right.dims, b.len()).is_err() {
        pair_refusal(
            left.dims,
            right.dims,
            left.dims,
            a.len(),
            b.len(),
            out.len(),
        )?;
    }
    let value = Value {
        shape: right,
        numbers: b,
    };
    match test_of(value) {
        ScalarTest::Scalar(f) => div_f64(left, f, a, out),
        ScalarTest::Planar(_) => Err(planar_refusal(left, right, a, b, out.len())),
        ScalarTest::Neither => mul_inverse(left, a, value, out),
    }
}
