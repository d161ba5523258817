// Calls on one value that keep its shape.
ghost use Rattle.std.specs.Prelude.{◌≡◌, ◌<◌, length};
ghost use Rattle.masks.specs.Outcome.{IsAnswer, Gives, refusal};
ghost use Rattle.arithmetic.specs.Kept.{kept_tests, GivesTaken, take_scalar, scalar_only, make_scalar_only};

use super::outcome::Taken;
use masks::order::blades_or_none;
use masks::outcome::{Refusal, refusal_of};
use masks::shape::Shape;

// Whether a call on one value whose shape is kept is refused.
pub(crate) fn kept_refusal(shape: Shape, a: &[f64], room: usize) -> Result<(), Refusal>
    ensures { IsAnswer (refusal (kept_tests shape a.now room)) tt result }
{
    let dims = shape.dims;
    let needed = blades_or_none(dims);
    refusal_of(dims, dims, a.len(), room, needed)
}

// Place 0 is handed out, and set to +0 in the output.
pub fn take_scalar(shape: Shape, a: &[f64], out: &mut [f64]) -> Result<Taken, Refusal>
    ensures { GivesTaken (take_scalar shape a.now (length out.old)) result out.old out.new }
{
    let shape = shape.set_dims(shape.dims, a, out)?;
    let value = out[0];
    out[0] = 0.0;
    Ok(Taken { shape, value })
}

// +0 from place 1 on.
fn clear_rest(xs: &mut [f64])
    requires { 0 < length xs.old }
    ensures { xs.new ≡ scalar_only xs.old }
{
    xs[1..].fill(0.0);
}

// Every place but 0 is set to +0.
pub fn make_scalar_only(shape: Shape, a: &[f64], out: &mut [f64]) -> Result<Shape, Refusal>
    ensures { Gives (make_scalar_only shape a.now (length out.old)) result out.old out.new }
{
    let kept = shape.set_dims(shape.dims, a, out)?;
    clear_rest(&mut out[..a.len()]);
    Ok(kept)
}
