// What a replay answers.
use masks::outcome::Refusal;
use masks::shape::Shape;

// The pose is in the caller's output; `steps` were carried out, and `stopped` is the refusal of the step after them, if it is refused.
#[derive(Clone, Copy)]
pub struct Replay {
    pub shape: Shape,
    pub steps: usize,
    pub stopped: Option<Refusal>,
}
