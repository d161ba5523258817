// Replay of a log over a sheet.
ghost use Rattle.std.specs.Prelude.{◌≡◌, true, ◌^◌, ◌≤◌, length, take};
ghost use Rattle.masks.specs.Outcome.{refusal, laid};
ghost use Rattle.sheets.specs.Read.{said, is_sheet_bytes};
ghost use Rattle.sheets.specs.Shapes.{shapes_of};
ghost use Rattle.replay.specs.Log.{steps_of, log_tests};
ghost use Rattle.replay.specs.Step.{sheet_value};
ghost use Rattle.replay.specs.Replay.{carried_out, replay, IsReplay, Replays};

use super::log::{log_refusal, step_of};
use super::outcome::Replay;
use super::step::take_turn;
use super::value::{put_named, put_starts, put_value};
use masks::order::blades_or_none;
use masks::outcome::{Refusal, lay};
use masks::shape::Shape;
use sheets::read::check;
use sheets::shapes::Shapes;
use std::mem::swap;

// The form of the rig sheet that there is.
pub const FIRST_FORM: u8 = 1;

// The first n numbers of a list, from the front of the output.
fn put_first(n: usize, a: &[f64], out: &mut [f64])
    requires { (n ≤ length a.now) × (n ≤ length out.old) }
    ensures { out.new ≡ laid (take n a.now) out.old }
{
    lay(&a[..n], &mut out[..n]);
}

// The end of a replay: the pose, from the front of its array.
fn finish(
    shape: Shape,
    steps: usize,
    stopped: Option<Refusal>,
    pose: &[f64],
    out: &mut [f64],
) -> Replay
    requires { (shape.dims ≤ 9) × (length pose.now ≡ 512) × (512 ≤ length out.old) }
    ensures { (result ≡ record { shape = shape; steps = steps; stopped = stopped }) × (out.new ≡ laid (take (2 ^ shape.dims) pose.now) out.old) }
{
    put_first(blades_or_none(shape.dims), pose, out);
    Replay {
        shape,
        steps,
        stopped,
    }
}

// The steps of a log, from value 0 on; the pose goes from one of two arrays to the other.
fn run(sheet: &[u8], shapes: &Shapes, log: &[u8], out: &mut [f64]) -> Replay
    requires { (is_sheet_bytes sheet.now ≡ true) × (shapes.now ≡ shapes_of (said sheet.now).shapes) × (refusal (log_tests (length (said sheet.now).shapes) (steps_of log.now)) ≡ 0) × (512 ≤ length out.old) }
    ensures { IsReplay (carried_out (said sheet.now) (steps_of log.now) (sheet_value (said sheet.now) 0) 0) result × (out.new ≡ laid (carried_out (said sheet.now) (steps_of log.now) (sheet_value (said sheet.now) 0) 0).pose.coefs out.old) }
{
    let mut x = [0.0; 512];
    let mut y = [0.0; 512];
    let mut held = [0.0; 512];
    // Beside the shapes, so that no step adds up those before its value; there is no heap.
    let mut starts = [0; 64];
    let listed = shapes.listed();
    let count = listed.len();
    put_starts(listed, &mut starts);
    let mut shape = listed[0];
    put_value(sheet, count, 0, blades_or_none(shape.dims), &mut x);
    let mut pose = &mut x;
    let mut next = &mut y;
    let (pairs, _) = log.as_chunks::<2>();
    for (steps, pair) in pairs.iter().enumerate() {
        let step = step_of(pair[0], pair[1]).unwrap();
        let k = usize::from(step.names().unwrap_or(0));
        let other = listed[k];
        put_named(step, other, sheet, count, starts[k], &mut held);
        let tried = match take_turn(step, shape, other, &*pose, &held, &mut *next) {
            Ok(tried) => tried,
            Err(refusal) => return finish(shape, steps, Some(refusal), &*pose, out),
        };
        shape = tried.shape;
        swap(&mut pose, &mut next);
        if tried.halts {
            return finish(shape, steps + 1, None, &*pose, out);
        }
    }
    finish(shape, pairs.len(), None, &*pose, out)
}

// The pose that a log leads to over the values of a sheet, from the front of the output.
pub fn replay(form: u8, sheet: &[u8], log: &[u8], out: &mut [f64]) -> Result<Replay, Refusal>
    ensures { Replays (replay form sheet.now log.now (length out.old)) result out.old out.new }
{
    if form != FIRST_FORM {
        return Err(Refusal::Malformed);
    }
    let shapes = check(sheet)?.shapes;
    log_refusal(log, shapes.count)?;
    if out.len() < 512 {
        return Err(Refusal::NoRoom);
    }
    Ok(run(sheet, &shapes, log, out))
}
