// Answers, reported through the references of a call: 0 is returned, and what `face` makes of the answer stands where the references point.
// A refusal returns its number, and reports nothing. There is one function for each count of references, since C passes each by itself.
ghost use Rattle.masks.specs.Outcome.{number_of};
ghost use Rattle.exports.specs.inner.Answers.{IsReported};

use masks::outcome::Refusal;

// What a call returns that is not refused.
pub(crate) const DONE: u8 = 0;

// Where one is reported to.
pub(crate) fn report<A, B: Copy, F: FnOnce(A) -> B>(
    answer: Result<A, Refusal>,
    face: F,
    to: &mut B,
) -> u8
    requires { F.IsAlwaysCallable face }
    ensures { IsReported (λ x. F.post face x to.new) answer result to.old to.new }
{
    match answer {
        Ok(x) => {
            *to = face(x);
            DONE
        }
        Err(refusal) => refusal.number(),
    }
}

// Where two are.
pub(crate) fn report_two<A, B: Copy, C: Copy, F: FnOnce(A) -> (B, C)>(
    answer: Result<A, Refusal>,
    face: F,
    to: &mut B,
    to_other: &mut C,
) -> u8
    requires { F.IsAlwaysCallable face }
    ensures { IsReported {B = B × C} (λ x. F.post face x (to.new, to_other.new)) answer result (to.old, to_other.old) (to.new, to_other.new) }
{
    match answer {
        Ok(x) => {
            (*to, *to_other) = face(x);
            DONE
        }
        Err(refusal) => refusal.number(),
    }
}

// Where three are.
pub(crate) fn report_three<A, B: Copy, C: Copy, D: Copy, F: FnOnce(A) -> (B, C, D)>(
    answer: Result<A, Refusal>,
    face: F,
    to: &mut B,
    to_other: &mut C,
    to_third: &mut D,
) -> u8
    requires { F.IsAlwaysCallable face }
    ensures { IsReported {B = B × C × D} (λ x. F.post face x (to.new, to_other.new, to_third.new)) answer result (to.old, to_other.old, to_third.old) (to.new, to_other.new, to_third.new) }
{
    match answer {
        Ok(x) => {
            (*to, *to_other, *to_third) = face(x);
            DONE
        }
        Err(refusal) => refusal.number(),
    }
}
