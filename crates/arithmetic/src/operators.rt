// `*`, `+` and `-` of two values.
ghost use Rattle.std.specs.Prelude.{◌≡◌, true, ◌≤◌, length, take};
ghost use Rattle.masks.specs.Outcome.{IsAnswer, Gives, laid, refusal, pair_tests};
ghost use Rattle.masks.specs.Shape.{conform_to, conform, meeting_dims};
ghost use Rattle.product.specs.Products.{general_product};
ghost use Rattle.arithmetic.specs.Scale.{scaled};
ghost use Rattle.arithmetic.specs.inner.Given.{InOrder};
ghost use Rattle.arithmetic.specs.inner.Sums.{Sums};
ghost use Rattle.arithmetic.specs.Operators.{is_other, joined_dims, operator_tests, with_coefs, multiplication, Sum, summed_at0, summed_each, summed_pair, addition};
ghost use Rattle.arithmetic.specs.Operators.Sum.{Plus, Minus};

use super::scalar::{ScalarTest, is_scalar, test_of};
use super::scale::scale;
use super::value::Value;
use masks::order::blades_or_none;
use masks::outcome::{Refusal, pair_refusal};
use masks::shape::{Shape, promotion};
use product::mode::Mode;
use product::products::multiply;

// Whether a value has the numbers of its dimensions and is not scalar.
fn is_other(shape: Shape, b: &[f64]) -> bool
    ensures { shape.dims ≤ 9 → result ≡ is_other shape b.now }
{
    b.len() == blades_or_none(shape.dims) && !is_scalar(b)
}

// The dimensions that two values meet in, the right one promoted only where `other` says so.
pub(crate) fn joined_dims(left: Shape, right: Shape, other: bool) -> u8
    ensures { left.dims ≤ 9 → right.dims ≤ 9 → result ≡ joined_dims left right other }
{
    let own = left.flavor;
    let theirs = right.flavor;
    let up = left.dims.saturating_add(promotion(own, theirs));
    let up_right = if other {
        right.dims.saturating_add(promotion(theirs, own))
    } else {
        right.dims
    };
    up.max(up_right)
}

// Whether a call on two values that meet so is refused.
pub(crate) fn joined_refusal(
    left: Shape,
    right: Shape,
    other: bool,
    a: &[f64],
    b: &[f64],
    room: usize,
) -> Result<(), Refusal>
    ensures { IsAnswer (refusal (pair_tests left.dims right.dims (joined_dims left right other) (length a.now) (length b.now) room)) tt result }
{
    let n = joined_dims(left, right, other);
    pair_refusal(left.dims, right.dims, n, a.len(), b.len(), room)
}

// Whether an operator is refused.
pub(crate) fn operator_refusal(
    left: Shape,
    right: Shape,
    a: &[f64],
    b: &[f64],
    room: usize,
) -> Result<(), Refusal>
    ensures { IsAnswer (refusal (operator_tests left right a.now b.now room)) tt result }
{
    joined_refusal(left, right, is_other(right, b), a, b, room)
}

// The left side conformed, and each coefficient multiplied by f.
fn mul_scalar(
    left: Shape,
    right: Shape,
    f: f64,
    a: &[f64],
    out: &mut [f64],
) -> Result<Shape, Refusal>
    ensures { Gives (with_coefs (scaled f) (conform_to left right a.now (length out.old))) result out.old out.new }
{
    let shape = left.conform_to(right, a, out)?;
    scale(f, &mut out[..blades_or_none(shape.dims)]);
    Ok(shape)
}

// The general product, without its count of pairs.
fn mul_other(
    given: &[u16],
    left: Shape,
    right: Shape,
    a: &[f64],
    b: &[f64],
    out: &mut [f64],
) -> Result<Shape, Refusal>
    requires { InOrder given.now (meeting_dims left right) }
    ensures { Gives (general_product left right a.now b.now (length out.old)).outcome result out.old out.new }
{
    let p = multiply(given, Mode::All, left, right, a, b, out)?;
    Ok(p.shape)
}

// `*`: by a scalar on the right each coefficient is multiplied, with no snap; else the general product, by the masks that are given or, where these are
// too few, by an order that is built there.
pub(crate) fn mul_by(
    given: &[u16],
    left: Shape,
    right: Shape,
    a: &[f64],
    b: &[f64],
    out: &mut [f64],
) -> Result<Shape, Refusal>
    requires { InOrder given.now (meeting_dims left right) }
    ensures { Gives (multiplication left right a.now b.now (length out.old)) result out.old out.new }
{
    operator_refusal(left, right, a, b, out.len())?;
    match test_of(Value {
        shape: right,
        numbers: b,
    }) {
        ScalarTest::Scalar(f) => mul_scalar(left, right, f, a, out),
        _ => mul_other(given, left, right, a, b, out),
    }
}

// `*` of two values.
pub fn mul(
    left: Shape,
    right: Shape,
    a: &[f64],
    b: &[f64],
    out: &mut [f64],
) -> Result<Shape, Refusal>
    ensures { Gives (multiplication left right a.now b.now (length out.old)) result out.old out.new }
{
    mul_by(&[], left, right, a, b, out)
}

// The sums of the numbers at the front with those of b.
fn sum_each<F: Fn(f64, f64) -> f64>(sum: F, b: &[f64], out: &mut [f64])
    requires callable { F.IsAlwaysCallable sum }
    requires room { length b.now ≤ length out.old }
    ensures { (op : Sum) → Sums (F.post sum) op → out.new ≡ laid (summed_each op (take (length b.now) out.old) b.now) out.old }
{
    for (k, y) in b.iter().enumerate() {
        out[k] = sum(out[k], *y);
    }
}

// The left side conformed, and f added at place 0.
fn add_scalar<F: Fn(f64, f64) -> f64>(
    sum: F,
    left: Shape,
    right: Shape,
    f: f64,
    a: &[f64],
    out: &mut [f64],
) -> Result<Shape, Refusal>
    requires { F.IsAlwaysCallable sum }
    ensures { (op : Sum) → Sums (F.post sum) op → Gives (with_coefs (summed_at0 op f) (conform_to left right a.now (length out.old))) result out.old out.new }
{
    let shape = left.conform_to(right, a, out)?;
    out[0] = sum(out[0], f);
    Ok(shape)
}

// Both sides conformed, the left one in the output, and added everywhere.
fn add_other<F: Fn(f64, f64) -> f64>(
    sum: F,
    left: Shape,
    right: Shape,
    a: &[f64],
    b: &[f64],
    out: &mut [f64],
) -> Result<Shape, Refusal>
    requires { F.IsAlwaysCallable sum }
    ensures { (op : Sum) → Sums (F.post sum) op → Gives (summed_pair op (conform left right a.now b.now (length out.old) 512)) result out.old out.new }
{
    let mut y = [0.0; 512];
    let (shape, _) = left.conform(right, a, b, out, &mut y)?;
    sum_each(sum, &y[..blades_or_none(shape.dims)], out);
    Ok(shape)
}

// The sums of two values of one count, from where they lie. `sum_each` would want a copy of the left one in the output first.
fn put_sums<F: Fn(f64, f64) -> f64>(sum: F, a: &[f64], b: &[f64], out: &mut [f64])
    requires callable { F.IsAlwaysCallable sum }
    requires room { (length a.now ≡ length b.now) × (length a.now ≤ length out.old) }
    ensures { (op : Sum) → Sums (F.post sum) op → out.new ≡ laid (summed_each op a.now b.now) out.old }
{
    for (i, x) in a.iter().enumerate() {
        out[i] = sum(*x, b[i]);
    }
}

// Two values that are not refused: from where they lie if they agree, else conformed.
fn add_each<F: Fn(f64, f64) -> f64>(
    sum: F,
    left: Shape,
    right: Shape,
    a: &[f64],
    b: &[f64],
    out: &mut [f64],
) -> Result<Shape, Refusal>
    requires callable { F.IsAlwaysCallable sum }
    requires accepted { refusal (pair_tests left.dims right.dims (joined_dims left right true) (length a.now) (length b.now) (length out.old)) ≡ 0 }
    ensures { (op : Sum) → Sums (F.post sum) op → Gives (summed_pair op (conform left right a.now b.now (length out.old) 512)) result out.old out.new }
{
    if !left.agrees(right) {
        return add_other(sum, left, right, a, b, out);
    }
    put_sums(sum, a, b, out);
    Ok(left)
}

// `+` or `-`: by a scalar on the right at place 0; else everywhere.
fn add_values<F: Fn(f64, f64) -> f64>(
    sum: F,
    left: Shape,
    right: Shape,
    a: &[f64],
    b: &[f64],
    out: &mut [f64],
) -> Result<Shape, Refusal>
    requires { F.IsAlwaysCallable sum }
    ensures { (op : Sum) → Sums (F.post sum) op → Gives (addition op left right a.now b.now (length out.old)) result out.old out.new }
{
    let other = is_other(right, b);
    joined_refusal(left, right, other, a, b, out.len())?;
    if other {
        return add_each(sum, left, right, a, b, out);
    }
    add_scalar(sum, left, right, b[0], a, out)
}

// `+` of two values.
pub fn add(
    left: Shape,
    right: Shape,
    a: &[f64],
    b: &[f64],
    out: &mut [f64],
) -> Result<Shape, Refusal>
    ensures { Gives (addition Plus left right a.now b.now (length out.old)) result out.old out.new }
{
    add_values(|x, y| x + y, left, right, a, b, out)
}

// `-` of two values.
pub fn sub(
    left: Shape,
    right: Shape,
    a: &[f64],
    b: &[f64],
    out: &mut [f64],
) -> Result<Shape, Refusal>
    ensures { Gives (addition Minus left right a.now b.now (length out.old)) result out.old out.new }
{
    add_values(|x, y| x - y, left, right, a, b, out)
}
