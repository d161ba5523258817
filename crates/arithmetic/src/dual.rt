// Duals and the regressive product.
ghost use Rattle.std.specs.Prelude.{◌≡◌, ◌^◌, ◌≤◌, length};
ghost use Rattle.masks.specs.Outcome.{Gives, laid};
ghost use Rattle.masks.specs.Shape.{meeting_dims};
ghost use Rattle.arithmetic.specs.inner.Given.{InOrder};
ghost use Rattle.arithmetic.specs.Dual.{dual_of, dual, antidual_of, antidual, regressive_product};

use super::kept::kept_refusal;
use super::operators::{joined_dims, joined_refusal, mul_by};
use super::value::Value;
use masks::build::pseudoscalar;
use masks::flavor::Flavor;
use masks::order::{blades_or_none, put_order};
use masks::outcome::Refusal;
use masks::shape::Shape;
use product::mode::Mode;
use product::products::multiply;

// The dual, at the front of the output. The array for the unit holds N numbers. Values go by reference, here and below: by value they would be copied at
// each call that hands them on.
fn put_dual_in<const N: usize>(given: &[u16], value: &Value, out: &mut [f64])
    requires in_order { InOrder given.now value.now.shape.dims }
    requires room { (length value.now.numbers.now ≤ N) × (2 ^ value.now.shape.dims ≤ length out.old) × (N ≤ 512) }
    ensures { out.new ≡ laid (dual_of value.now.shape.dims value.now.numbers.now) out.old }
{
    let Value { shape, numbers: a } = *value;
    let vanilla = shape.with_flavor(Flavor::Vanilla);
    let mut unit = [0.0; N];
    let _ = pseudoscalar(shape.dims, 1.0, Flavor::Vanilla, &mut unit);
    let _ = multiply(given, Mode::All, vanilla, vanilla, a, &unit[..a.len()], out);
}

// The same, in an array as long as the dimensions want.
fn put_dual(given: &[u16], value: &Value, out: &mut [f64])
    requires in_order { InOrder given.now value.now.shape.dims }
    requires room { 2 ^ value.now.shape.dims ≤ length out.old }
    ensures { out.new ≡ laid (dual_of value.now.shape.dims value.now.numbers.now) out.old }
{
    if value.numbers.len() <= 16 {
        put_dual_in::<16>(given, value, out);
    } else if value.numbers.len() <= 64 {
        put_dual_in::<64>(given, value, out);
    } else {
        put_dual_in::<512>(given, value, out);
    }
}

// The antidual, at the front of the output. The array for the unit holds N numbers.
fn put_antidual_in<const N: usize>(given: &[u16], value: &Value, out: &mut [f64])
    requires in_order { InOrder given.now value.now.shape.dims }
    requires room { (length value.now.numbers.now ≤ N) × (2 ^ value.now.shape.dims ≤ length out.old) × (N ≤ 512) }
    ensures { out.new ≡ laid (antidual_of value.now.shape.dims value.now.numbers.now) out.old }
{
    let Value { shape, numbers: a } = *value;
    let vanilla = shape.with_flavor(Flavor::Vanilla);
    let mut unit = [0.0; N];
    let _ = pseudoscalar(shape.dims, 1.0, Flavor::Vanilla, &mut unit);
    let _ = mul_by(given, vanilla, vanilla, &unit[..a.len()], a, out);
}

// The same, in an array as long as the dimensions want.
fn put_antidual(given: &[u16], value: &Value, out: &mut [f64])
    requires in_order { InOrder given.now value.now.shape.dims }
    requires room { 2 ^ value.now.shape.dims ≤ length out.old }
    ensures { out.new ≡ laid (antidual_of value.now.shape.dims value.now.numbers.now) out.old }
{
    if value.numbers.len() <= 16 {
        put_antidual_in::<16>(given, value, out);
    } else if value.numbers.len() <= 64 {
        put_antidual_in::<64>(given, value, out);
    } else {
        put_antidual_in::<512>(given, value, out);
    }
}

// The product with the Vanilla pseudo unit on the right, metric Vanilla, own flavor kept.
pub fn dual(shape: Shape, a: &[f64], out: &mut [f64]) -> Result<Shape, Refusal>
    ensures { Gives (dual shape a.now (length out.old)) result out.old out.new }
{
    kept_refusal(shape, a, out.len())?;
    put_dual(&[], &Value { shape, numbers: a }, out);
    Ok(shape)
}

// The Vanilla pseudo unit `*` the value read as Vanilla, own flavor put back after.
pub fn antidual(shape: Shape, a: &[f64], out: &mut [f64]) -> Result<Shape, Refusal>
    ensures { Gives (antidual shape a.now (length out.old)) result out.old out.new }
{
    kept_refusal(shape, a, out.len())?;
    put_antidual(&[], &Value { shape, numbers: a }, out);
    Ok(shape)
}

// The antidual of the outer product of the duals, each at its own dimensions, by the orders of the left dimensions, of the right ones and of those that
// the values meet in. The arrays for the duals hold N numbers, that for their product M.
fn regressive_in<const N: usize, const M: usize>(
    own: &[u16],
    theirs: &[u16],
    joined: &[u16],
    left: &Value,
    right: &Value,
    out: &mut [f64],
) -> Result<Shape, Refusal>
    requires in_order { InOrder own.now left.now.shape.dims × InOrder theirs.now right.now.shape.dims × InOrder joined.now (meeting_dims left.now.shape right.now.shape) }
    requires meeting { (meeting_dims left.now.shape right.now.shape ≤ 9) × (2 ^ meeting_dims left.now.shape right.now.shape ≤ length out.old) }
    requires room { (length left.now.numbers.now ≤ N) × (length right.now.numbers.now ≤ N) × (2 ^ meeting_dims left.now.shape right.now.shape ≤ M) × (N ≤ 512) × (M ≤ 512) }
    ensures { Gives (regressive_product left.now.shape right.now.shape left.now.numbers.now right.now.numbers.now (length out.old)) result out.old out.new }
{
    let mut x = [0.0; N];
    let mut y = [0.0; N];
    let mut z = [0.0; M];
    put_dual(own, left, &mut x);
    put_dual(theirs, right, &mut y);
    let p = multiply(
        joined,
        Mode::Outer,
        left.shape,
        right.shape,
        &x[..left.numbers.len()],
        &y[..right.numbers.len()],
        &mut z,
    )?;
    let shape = p.shape;
    let numbers = &z[..blades_or_none(shape.dims)];
    put_antidual(joined, &Value { shape, numbers }, out);
    Ok(shape)
}

// The same, in arrays as long as the dimensions want.
fn regressive_by(
    own: &[u16],
    theirs: &[u16],
    joined: &[u16],
    left: &Value,
    right: &Value,
    out: &mut [f64],
) -> Result<Shape, Refusal>
    requires in_order { InOrder own.now left.now.shape.dims × InOrder theirs.now right.now.shape.dims × InOrder joined.now (meeting_dims left.now.shape right.now.shape) }
    requires meeting { (meeting_dims left.now.shape right.now.shape ≤ 9) × (2 ^ meeting_dims left.now.shape right.now.shape ≤ length out.old) }
    ensures { Gives (regressive_product left.now.shape right.now.shape left.now.numbers.now right.now.numbers.now (length out.old)) result out.old out.new }
{
    if left.shape.dims < 4 && right.shape.dims < 4 {
        return regressive_in::<8, 16>(own, theirs, joined, left, right, out);
    }
    if left.shape.dims < 6 && right.shape.dims < 6 {
        return regressive_in::<32, 64>(own, theirs, joined, left, right, out);
    }
    regressive_in::<512, 512>(own, theirs, joined, left, right, out)
}

// The same, with the order of the dimensions that the values meet in: the left one's or the right one's where it is that, else one that is built here.
fn regressive_joined(
    own: &[u16],
    theirs: &[u16],
    left: &Value,
    right: &Value,
    out: &mut [f64],
) -> Result<Shape, Refusal>
    requires in_order { InOrder own.now left.now.shape.dims × InOrder theirs.now right.now.shape.dims }
    requires meeting { (meeting_dims left.now.shape right.now.shape ≤ 9) × (2 ^ meeting_dims left.now.shape right.now.shape ≤ length out.old) }
    ensures { Gives (regressive_product left.now.shape right.now.shape left.now.numbers.now right.now.numbers.now (length out.old)) result out.old out.new }
{
    let n = joined_dims(left.shape, right.shape, true);
    if n == left.shape.dims {
        return regressive_by(own, theirs, own, left, right, out);
    }
    if n == right.shape.dims {
        return regressive_by(own, theirs, theirs, left, right, out);
    }
    let mut order = [0; 512];
    put_order(n, &mut order).unwrap();
    regressive_by(own, theirs, &order, left, right, out)
}

// The same, with the orders of both values' dimensions, one where they are the same. Each is built here, once, in an array of N masks.
fn regressive_ordered<const N: usize>(
    left: &Value,
    right: &Value,
    out: &mut [f64],
) -> Result<Shape, Refusal>
    requires meeting { (meeting_dims left.now.shape right.now.shape ≤ 9) × (2 ^ meeting_dims left.now.shape right.now.shape ≤ length out.old) }
    requires room { (length left.now.numbers.now ≤ N) × (length right.now.numbers.now ≤ N) × (N ≤ 512) }
    ensures { Gives (regressive_product left.now.shape right.now.shape left.now.numbers.now right.now.numbers.now (length out.old)) result out.old out.new }
{
    let mut own = [0; N];
    put_order(left.shape.dims, &mut own).unwrap();
    if left.shape.dims == right.shape.dims {
        return regressive_joined(&own, &own, left, right, out);
    }
    let mut theirs = [0; N];
    put_order(right.shape.dims, &mut theirs).unwrap();
    regressive_joined(&own, &theirs, left, right, out)
}

// The same, in arrays as long as the dimensions want.
fn put_regressive(left: &Value, right: &Value, out: &mut [f64]) -> Result<Shape, Refusal>
    requires meeting { (meeting_dims left.now.shape right.now.shape ≤ 9) × (2 ^ meeting_dims left.now.shape right.now.shape ≤ length out.old) }
    ensures { Gives (regressive_product left.now.shape right.now.shape left.now.numbers.now right.now.numbers.now (length out.old)) result out.old out.new }
{
    if left.numbers.len() <= 16 && right.numbers.len() <= 16 {
        return regressive_ordered::<16>(left, right, out);
    }
    regressive_ordered::<512>(left, right, out)
}

// The regressive product.
pub fn regressive_product(
    left: Shape,
    right: Shape,
    a: &[f64],
    b: &[f64],
    out: &mut [f64],
) -> Result<Shape, Refusal>
    ensures { Gives (regressive_product left right a.now b.now (length out.old)) result out.old out.new }
{
    joined_refusal(left, right, true, a, b, out.len())?;
    let value = Value {
        shape: left,
        numbers: a,
    };
    let value_right = Value {
        shape: right,
        numbers: b,
    };
    put_regressive(&value, &value_right, out)
}
