// A log: two bytes a step, kind and argument.
ghost use Rattle.std.specs.Prelude.{◌≡◌, length};
ghost use Rattle.masks.specs.Outcome.{refusal, IsAnswer};
ghost use Rattle.replay.specs.Log.{step_of, steps_of, names, fits, all_fit, log_tests};

use masks::outcome::Refusal;

// The most steps that a log has.
pub const MAX_STEPS: usize = 200;

// `*` on the right or on the left by the value at an index, reverse, change dimensions, or halt if equal to the value at an index.
#[derive(Clone, Copy)]
pub enum Step {
    Right(u8),
    Left(u8),
    Reverse,
    Dims(u8),
    Halt(u8),
}

impl Step {
    // The index of the value that a step names, where it names one.
    pub(crate) fn names(self) -> Option<u8>
        ensures { result ≡ names self }
    {
        match self {
            Step::Right(k) => Some(k),
            Step::Left(k) => Some(k),
            Step::Reverse => None,
            Step::Dims(_) => None,
            Step::Halt(k) => Some(k),
        }
    }
}

// The step of a kind and an argument, where the kind is known.
pub(crate) fn step_of(kind: u8, argument: u8) -> Option<Step>
    ensures { result ≡ step_of kind argument }
{
    match kind {
        0 => Some(Step::Right(argument)),
        1 => Some(Step::Left(argument)),
        2 => Some(Step::Reverse),
        3 => Some(Step::Dims(argument)),
        4 => Some(Step::Halt(argument)),
        _ => None,
    }
}

// Whether a step's kind is known, and the value that it names is one of `count`.
fn step_fits(step: Option<Step>, count: usize) -> bool
    ensures { result ≡ fits count step }
{
    match step {
        Some(step) => match step.names() {
            Some(k) => usize::from(k) < count,
            None => true,
        },
        None => false,
    }
}

// Whether all steps of a log do.
fn all_fit(log: &[u8], count: usize) -> bool
    ensures { result ≡ all_fit count (steps_of log.now) }
{
    let (pairs, rest) = log.as_chunks::<2>();
    if !rest.is_empty() {
        return false;
    }
    pairs
        .iter()
        .all(|pair| step_fits(step_of(pair[0], pair[1]), count))
}

// How many steps a log has: a byte that is left over is one.
fn step_count(log: &[u8]) -> usize
    ensures { result ≡ length (steps_of log.now) }
{
    log.len() / 2 + log.len() % 2
}

// Whether a log over a sheet of `count` values is refused.
pub(crate) fn log_refusal(log: &[u8], count: usize) -> Result<(), Refusal>
    ensures { IsAnswer (refusal (log_tests count (steps_of log.now))) tt result }
{
    if count == 0 {
        return Err(Refusal::BadLog);
    }
    if MAX_STEPS < step_count(log) {
        return Err(Refusal::BadLog);
    }
    if !all_fit(log, count) {
        return Err(Refusal::BadLog);
    }
    Ok(())
}
