// One step: what the named operation does to a pose.
ghost use Rattle.std.specs.Prelude.{◌≡◌, false, ℕ, ◌^◌, ◌≤◌, length, Ok, Err, MatchResult};
ghost use Rattle.masks.specs.Outcome.{value};
ghost use Rattle.replay.specs.declared.log.Step.TheVariants.{Halt};
ghost use Rattle.replay.specs.inner.Turns.{held_value, Tries};

use super::log::Step;
use arithmetic::compare::eq;
use arithmetic::operators::mul;
use arithmetic::reverse::reverse;
use masks::order::blades_or_none;
use masks::outcome::{Refusal, lay};
use masks::shape::Shape;

// A step that was tried: the shape of the pose after it, which a halting step has too, and whether it is one that fires.
#[derive(Clone, Copy)]
pub struct Tried {
    pub shape: Shape,
    pub halts: bool,
}

// What a step answers that does not halt.
fn goes_on(answer: Result<Shape, Refusal>) -> Result<Tried, Refusal>
    ensures { MatchResult answer (λ s. result ≡ Ok (record { shape = s; halts = false })) (λ refused. result ≡ Err refused) }
{
    answer.map(|shape| Tried {
        shape,
        halts: false,
    })
}

// The pose as it is, and whether it is equal to a value.
fn halt_if_equal(
    shape: Shape,
    other: Shape,
    a: &[f64],
    b: &[f64],
    out: &mut [f64],
) -> Result<Tried, Refusal>
    requires { length a.now ≤ length out.old }
    ensures { (k : ℕ) → Tries (Halt k) (value shape a.now) (value other b.now) result out.old out.new }
{
    let halts = eq(shape, other, a, b)?;
    lay(a, &mut out[..a.len()]);
    Ok(Tried { shape, halts })
}

// A step, from a pose and the value that it names to the front of the output.
fn try_step(
    step: Step,
    shape: Shape,
    other: Shape,
    a: &[f64],
    b: &[f64],
    out: &mut [f64],
) -> Result<Tried, Refusal>
    requires { (shape.dims ≤ 9) × (length a.now ≡ 2 ^ shape.dims) × (length out.old ≡ 512) }
    ensures { Tries step (value shape a.now) (value other b.now) result out.old out.new }
{
    match step {
        Step::Right(_) => goes_on(mul(shape, other, a, b, out)),
        Step::Left(_) => goes_on(mul(other, shape, b, a, out)),
        Step::Reverse => goes_on(reverse(shape, a, out)),
        Step::Dims(m) => goes_on(shape.set_dims(m, a, out)),
        Step::Halt(_) => halt_if_equal(shape, other, a, b, out),
    }
}

// A step, from the pose at the front of one array to the front of the other.
pub(crate) fn take_turn(
    step: Step,
    shape: Shape,
    other: Shape,
    pose: &[f64],
    named: &[f64],
    next: &mut [f64],
) -> Result<Tried, Refusal>
    requires { (shape.dims ≤ 9) × (other.dims ≤ 9) × (length pose.now ≡ 512) × (length named.now ≡ 512) × (length next.old ≡ 512) }
    ensures { Tries step (held_value shape pose.now) (held_value other named.now) result next.old next.new }
{
    let n = blades_or_none(shape.dims);
    let m = blades_or_none(other.dims);
    try_step(step, shape, other, &pose[0..n], &named[0..m], next)
}
