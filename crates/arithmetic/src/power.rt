// Whole powers.
ghost use Rattle.std.specs.Prelude.{◌≡◌, false, ◌&&◌, ◌+◌, ◌^◌, ◌≤◌, ◌<◌, length, take};
ghost use Rattle.masks.specs.Flavor.{added_dims};
ghost use Rattle.masks.specs.Outcome.{IsAnswer, Gives, laid, refusal};
ghost use Rattle.masks.specs.Shape.{with_dims};
ghost use Rattle.arithmetic.specs.inner.Given.{InOrder};
ghost use Rattle.arithmetic.specs.Scalar.{test_of, was_planar};
ghost use Rattle.arithmetic.specs.Operators.{multiplication};
ghost use Rattle.arithmetic.specs.Inverse.{square_of, inverse_of};
ghost use Rattle.arithmetic.specs.Power.{is_negative, size_of, is_direct, power_dims, by_digits, raised_to, power_of, power_tests, power};

use super::inverse::{put_inverse, put_square, was_planar};
use super::operators::mul_by;
use super::scalar::test_of;
use super::value::Value;
use masks::build::scalar;
use masks::order::{blades_or_none, put_order};
use masks::outcome::{Refusal, lay, refusal_of};
use masks::shape::Shape;

// Whether the power is 1, 2, -1 or -2.
fn is_direct(power: i32) -> bool
    ensures { result ≡ is_direct (size_of power) }
{
    let size = power.unsigned_abs();
    size == 1 || size == 2
}

// The dimensions of a power.
fn power_dims(shape: Shape, power: i32) -> u8
    ensures { shape.dims ≤ 9 → result ≡ power_dims shape (size_of power) }
{
    if is_direct(power) {
        return shape.dims;
    }
    shape.dims.saturating_add(shape.flavor.added_dims())
}

// Whether a power is refused.
fn power_refusal(shape: Shape, power: i32, a: &[f64], room: usize) -> Result<(), Refusal>
    ensures { IsAnswer (refusal (power_tests shape power a.now room)) tt result }
{
    let n = power_dims(shape, power);
    refusal_of(shape.dims, n, a.len(), room, blades_or_none(n))?;
    if power < 0 && was_planar(test_of(Value { shape, numbers: a })) {
        return Err(Refusal::Planar);
    }
    if power == i32::MIN {
        return Err(Refusal::LeastPower);
    }
    Ok(())
}

// The value in the front of the output becomes itself `*` the base. An array for the product is lent.
fn mul_front(given: &[u16], grown: Shape, base: Value, next: &mut [f64], out: &mut [f64])
    requires in_order { InOrder given.now grown.dims }
    requires grown_value { (grown ≡ with_dims base.shape (base.shape.dims + added_dims base.shape.flavor)) × (grown.dims ≤ 9) }
    requires room { (2 ^ grown.dims ≤ length out.old) × (2 ^ grown.dims ≤ length next.old) }
    ensures { out.new ≡ laid (multiplication grown base.entry.shape (take (2 ^ grown.dims) out.old) base.entry.numbers.now 512).coefs out.old }
{
    let n = blades_or_none(grown.dims);
    let _ = mul_by(given, grown, base.shape, &out[..n], base.numbers, next);
    lay(&next[..n], &mut out[..n]);
}

// The value in the front of the base becomes its square. An array for the square is lent.
fn square_front(given: &[u16], shape: Shape, n: usize, next: &mut [f64], base: &mut [f64])
    requires in_order { InOrder given.now shape.dims }
    requires dims_bound { (shape.dims ≤ 9) × (n ≡ 2 ^ shape.dims) × (n ≤ length base.old) × (n ≤ length next.old) }
    ensures { base.new ≡ laid (square_of shape (take n base.old)) base.old }
{
    let numbers = &base[..n];
    put_square(given, Value { shape, numbers }, next);
    lay(&next[..n], &mut base[..n]);
}

// The power by the exponent's digits, low bit first: `*` by the base, then the base squared. Arrays for the base and for what comes next are lent, and
// the orders of the base's dimensions and of the power's.
fn raise_in(
    given: &[u16],
    wide: &[u16],
    value: Value,
    power: u32,
    base: &mut [f64],
    next: &mut [f64],
    out: &mut [f64],
)
    requires in_order { InOrder given.now value.shape.dims × InOrder wide.now (value.shape.dims + added_dims value.shape.flavor) }
    requires flavor_bound { (value.shape.dims + added_dims value.shape.flavor ≤ 9) × (power < 2 ^ 31) }
    requires in_bounds { (length value.numbers.now ≤ length base.old) × (2 ^ (value.shape.dims + added_dims value.shape.flavor) ≤ length next.old) }
    requires room { 2 ^ (value.shape.dims + added_dims value.shape.flavor) ≤ length out.old }
    ensures { out.new ≡ laid (by_digits value.entry.shape power value.entry.numbers.now) out.old }
{
    let Value { shape, numbers: x } = value;
    let grown = scalar(shape.dims, 1.0, shape.flavor, out).unwrap();
    lay(x, &mut base[..x.len()]);
    let mut p = power;
    // It goes from digit to digit, and counts no index.
    while 0 < p {
        if p % 2 == 1 {
            let numbers = &base[..x.len()];
            mul_front(wide, grown, Value { shape, numbers }, next, out);
        }
        p = p / 2;
        if 0 < p {
            square_front(given, shape, x.len(), next, base);
        }
    }
}

// The same, with the order of the power's dimensions: that of the base's where they are the same, else one that is built here. The array for the base
// holds BASE numbers, those for that order and for what comes next WIDE.
fn raise_wide<const BASE: usize, const WIDE: usize>(
    given: &[u16],
    value: Value,
    power: u32,
    out: &mut [f64],
)
    requires in_order { InOrder given.now value.shape.dims }
    requires flavor_bound { (value.shape.dims + added_dims value.shape.flavor ≤ 9) × (power < 2 ^ 31) × (2 ^ (value.shape.dims + added_dims value.shape.flavor) ≤ WIDE) }
    requires in_bounds { (length value.numbers.now ≤ BASE) × (BASE ≤ 512) × (WIDE ≤ 512) }
    requires room { 2 ^ (value.shape.dims + added_dims value.shape.flavor) ≤ length out.old }
    ensures { out.new ≡ laid (by_digits value.entry.shape power value.entry.numbers.now) out.old }
{
    let mut base = [0.0; BASE];
    let mut next = [0.0; WIDE];
    let added = value.shape.flavor.added_dims();
    if added == 0 {
        raise_in(given, given, value, power, &mut base, &mut next, out);
        return;
    }
    let mut order = [0; WIDE];
    put_order(value.shape.dims + added, &mut order).unwrap();
    raise_in(given, &order, value, power, &mut base, &mut next, out);
}

// The same, in arrays as long as the dimensions want.
fn raise_by_digits(given: &[u16], value: Value, power: u32, out: &mut [f64])
    requires in_order { InOrder given.now value.shape.dims }
    requires flavor_bound { (value.shape.dims + added_dims value.shape.flavor ≤ 9) × (power < 2 ^ 31) }
    requires room { 2 ^ (value.shape.dims + added_dims value.shape.flavor) ≤ length out.old }
    ensures { out.new ≡ laid (by_digits value.entry.shape power value.entry.numbers.now) out.old }
{
    if value.numbers.len() <= 32 {
        raise_wide::<32, 64>(given, value, power, out);
    } else {
        raise_wide::<512, 512>(given, value, power, out);
    }
}

// x to the power.
#[tactic(auto, using(crate::proofs::PowerLaws::first_fits, crate::proofs::PowerLaws::first_taken))]
fn raise(given: &[u16], value: Value, power: u32, out: &mut [f64])
    requires in_order { InOrder given.now value.shape.dims }
    requires power_bound { (power_dims value.shape power ≤ 9) × (power < 2 ^ 31) }
    requires room { 2 ^ power_dims value.shape power ≤ length out.old }
    ensures { out.new ≡ laid (raised_to value.entry.shape power value.entry.numbers.now) out.old }
{
    if power == 1 {
        let x = value.numbers;
        lay(x, &mut out[..x.len()]);
        return;
    }
    if power == 2 {
        put_square(given, value, out);
        return;
    }
    raise_by_digits(given, value, power, out);
}

// x's inverse to the power. The array for the inverse holds N numbers.
fn raise_inverse<const N: usize>(given: &[u16], value: Value, power: u32, out: &mut [f64])
    requires in_order { InOrder given.now value.shape.dims }
    requires power_bound { (power_dims value.shape power ≤ 9) × (power < 2 ^ 31) }
    requires invertible { was_planar (test_of value.shape value.numbers.now) ≡ false }
    requires room { (length value.numbers.now ≤ N) × (2 ^ power_dims value.shape power ≤ length out.old) × (N ≤ 512) }
    ensures { out.new ≡ laid (raised_to value.entry.shape power (inverse_of value.entry.shape value.entry.numbers.now)) out.old }
{
    let mut base = [0.0; N];
    put_inverse(given, value, &mut base);
    let shape = value.shape;
    let numbers = &base[..value.numbers.len()];
    raise(given, Value { shape, numbers }, power, out);
}

// A power of a value that is not refused, with the order of its dimensions.
fn put_power_by(given: &[u16], value: Value, power: i32, out: &mut [f64])
    requires in_order { InOrder given.now value.shape.dims }
    requires power_bound { (power_dims value.shape (size_of power) ≤ 9) × (size_of power < 2 ^ 31) }
    requires invertible { (is_negative power && was_planar (test_of value.shape value.numbers.now)) ≡ false }
    requires room { 2 ^ power_dims value.shape (size_of power) ≤ length out.old }
    ensures { out.new ≡ laid (power_of value.entry.shape power value.entry.numbers.now) out.old }
{
    let n = power.unsigned_abs();
    if 0 <= power {
        raise(given, value, n, out);
    } else if value.numbers.len() <= 64 {
        raise_inverse::<64>(given, value, n, out);
    } else {
        raise_inverse::<512>(given, value, n, out);
    }
}

// The same, with the order of its dimensions, which is built here, once, where more than one product reads it, in an array of N masks.
fn put_power_in<const N: usize>(value: Value, power: i32, out: &mut [f64])
    requires power_bound { (power_dims value.shape (size_of power) ≤ 9) × (size_of power < 2 ^ 31) }
    requires invertible { (is_negative power && was_planar (test_of value.shape value.numbers.now)) ≡ false }
    requires room { (2 ^ power_dims value.shape (size_of power) ≤ length out.old) × (length value.numbers.now ≤ N) × (N ≤ 512) }
    ensures { out.new ≡ laid (power_of value.entry.shape power value.entry.numbers.now) out.old }
{
    let mut order = [0; N];
    put_order(value.shape.dims, &mut order).unwrap();
    put_power_by(&order, value, power, out);
}

// A power of a value that is not refused, in arrays as long as the dimensions want.
fn put_power(value: Value, power: i32, out: &mut [f64])
    requires power_bound { (power_dims value.shape (size_of power) ≤ 9) × (size_of power < 2 ^ 31) }
    requires invertible { (is_negative power && was_planar (test_of value.shape value.numbers.now)) ≡ false }
    requires room { 2 ^ power_dims value.shape (size_of power) ≤ length out.old }
    ensures { out.new ≡ laid (power_of value.entry.shape power value.entry.numbers.now) out.old }
{
    if -2 < power && power < 3 {
        put_power_by(&[], value, power, out);
    } else if value.numbers.len() <= 64 {
        put_power_in::<64>(value, power, out);
    } else {
        put_power_in::<512>(value, power, out);
    }
}

// A whole power of a value.
pub fn powi(shape: Shape, exponent: i32, a: &[f64], out: &mut [f64]) -> Result<Shape, Refusal>
    ensures { Gives (power shape exponent a.now (length out.old)) result out.old out.new }
{
    power_refusal(shape, exponent, a, out.len())?;
    put_power(Value { shape, numbers: a }, exponent, out);
    Ok(shape.with_dims(power_dims(shape, exponent)))
}
