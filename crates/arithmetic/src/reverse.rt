// The reverse and the inverse reverse, by grades.
ghost use Rattle.std.specs.Prelude.{◌≡◌, cond, ◌++◌, map, ◌+◌, ◌^◌, ◌≤◌, length, take, drop};
ghost use Rattle.std.specs.Float.Ieee.{neg};
ghost use Rattle.masks.specs.Outcome.{Gives, laid};
ghost use Rattle.product.specs.Reverse.{reversed};
ghost use Rattle.arithmetic.specs.Kept.{kept};
ghost use Rattle.arithmetic.specs.Reverse.{reverse, inv_reversed, inv_reverse};

use super::scale::negate;
use masks::order::size_or_none;
use masks::outcome::Refusal;
use masks::shape::Shape;

// The `count` numbers from the place `first` on are negated.
fn negate_part(first: usize, count: usize, out: &mut [f64])
    requires { first + count ≤ length out.old }
    ensures { out.new ≡ take first out.old ++ map neg (take count (drop first out.old)) ++ drop (first + count) out.old }
{
    negate(&mut out[first..first + count]);
}

// Grades 2, 3 mod 4 are negated in the value at the front, or where `rest` says so the others.
fn turn_grades(rest: bool, dims: u8, out: &mut [f64])
    requires { (dims ≤ 9) × (2 ^ dims ≤ length out.old) }
    ensures { out.new ≡ laid (cond rest (inv_reversed dims (take (2 ^ dims) out.old)) (reversed dims (take (2 ^ dims) out.old))) out.old }
{
    let mut first: usize = 0;
    for g in 0..dims + 1 {
        let size = size_or_none(dims, g);
        if (g % 4 < 2) == rest {
            negate_part(first, size, out);
        }
        first += size;
    }
}

// The inverse reverse where `rest` says so, else the reverse.
fn turn(rest: bool, shape: Shape, a: &[f64], out: &mut [f64]) -> Result<Shape, Refusal>
    ensures { Gives (kept (λ xs. cond rest (inv_reversed shape.dims xs) (reversed shape.dims xs)) shape a.now (length out.old)) result out.old out.new }
{
    let kept = shape.set_dims(shape.dims, a, out)?;
    turn_grades(rest, shape.dims, out);
    Ok(kept)
}

// The reverse: grades 2, 3 mod 4 negated.
pub fn reverse(shape: Shape, a: &[f64], out: &mut [f64]) -> Result<Shape, Refusal>
    ensures { Gives (reverse shape a.now (length out.old)) result out.old out.new }
{
    turn(false, shape, a, out)
}

// The inverse reverse: the other grades negated.
pub fn inv_reverse(shape: Shape, a: &[f64], out: &mut [f64]) -> Result<Shape, Refusal>
    ensures { Gives (inv_reverse shape a.now (length out.old)) result out.old out.new }
{
    turn(true, shape, a, out)
}
