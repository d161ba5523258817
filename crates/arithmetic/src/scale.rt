// Multiplication and division by a number, and negation.
ghost use Rattle.std.specs.Prelude.{◌≡◌, map, length};
ghost use Rattle.std.specs.Float.Ieee.{neg};
ghost use Rattle.masks.specs.Outcome.{Gives};
ghost use Rattle.arithmetic.specs.Scale.{scaled, mul_f64, div_f64, negation};

use masks::outcome::Refusal;
use masks::shape::Shape;

// Every number is multiplied, unless by 1.0.
pub(crate) fn scale(f: f64, xs: &mut [f64])
    ensures { xs.new ≡ scaled f xs.old }
{
    if f == 1.0 {
        return;
    }
    for x in xs.iter_mut() {
        *x = *x * f;
    }
}

// Every number is negated.
pub(crate) fn negate(xs: &mut [f64])
    ensures { xs.new ≡ map neg xs.old }
{
    for x in xs.iter_mut() {
        *x = -*x;
    }
}

// The value times a number: by 1.0 nothing is multiplied.
pub fn mul_f64(shape: Shape, f: f64, a: &[f64], out: &mut [f64]) -> Result<Shape, Refusal>
    ensures { Gives (mul_f64 shape f a.now (length out.old)) result out.old out.new }
{
    let kept = shape.set_dims(shape.dims, a, out)?;
    scale(f, &mut out[..a.len()]);
    Ok(kept)
}

// The value over a number: it is multiplied by 1 / f.
pub fn div_f64(shape: Shape, f: f64, a: &[f64], out: &mut [f64]) -> Result<Shape, Refusal>
    ensures { Gives (div_f64 shape f a.now (length out.old)) result out.old out.new }
{
    mul_f64(shape, 1.0 / f, a, out)
}

// Every number negated, zeros too.
pub fn neg(shape: Shape, a: &[f64], out: &mut [f64]) -> Result<Shape, Refusal>
    ensures { Gives (negation shape a.now (length out.old)) result out.old out.new }
{
    let kept = shape.set_dims(shape.dims, a, out)?;
    negate(&mut out[..a.len()]);
    Ok(kept)
}
