// The values of a sheet, from where they lie.
ghost use Rattle.std.specs.Prelude.{◌≡◌, false, cond, length, get_or, is_some};
ghost use Prim.Native.Nat.{ℕ, ◌+◌, ◌*◌, ◌^◌, ◌≤◌, ◌<◌};
ghost use Rattle.masks.specs.Outcome.{laid};
ghost use Rattle.sheets.specs.Format.{any_above_nine};
ghost use Rattle.sheets.specs.Values.{start_of};
ghost use Rattle.replay.specs.Log.{names};
ghost use Rattle.replay.specs.inner.Turns.{numbers_at};

use super::log::Step;
use masks::order::blades_or_none;
use masks::shape::Shape;
use sheets::patterns::numbers_in;

// Where the patterns of each of some shapes start.
pub(crate) fn put_starts(shapes: &[Shape], starts: &mut [usize])
    requires { (length shapes.now ≤ 64) × (any_above_nine shapes.now ≡ false) × (length shapes.now ≤ length starts.old) }
    ensures { (i : ℕ) → i < length shapes.now → get_or starts.new i 0 ≡ start_of shapes.now i }
{
    let mut sum = 0;
    for (i, shape) in shapes.iter().enumerate() {
        starts[i] = sum;
        sum += blades_or_none(shape.dims);
    }
}

// The numbers of a value of n blades, from the place `start` on among the patterns of a sheet of `count` shapes.
pub(crate) fn put_value(sheet: &[u8], count: usize, start: usize, n: usize, out: &mut [f64])
    requires { (count ≤ 64) × (start + n ≤ 4096) × (6 + 5 * count + 8 * (start + n) ≤ length sheet.now) × (n ≤ length out.old) }
    ensures { out.new ≡ laid (numbers_at sheet.now count start n) out.old }
{
    let at = 6 + 5 * count + 8 * start;
    let _ = numbers_in(&sheet[at..at + 8 * n], out);
}

// The same of a shape's value, where a step names it.
pub(crate) fn put_named(
    step: Step,
    shape: Shape,
    sheet: &[u8],
    count: usize,
    start: usize,
    out: &mut [f64],
)
    requires { (shape.dims ≤ 9) × (count ≤ 64) × (start + 2 ^ shape.dims ≤ 4096) × (6 + 5 * count + 8 * (start + 2 ^ shape.dims) ≤ length sheet.now) × (2 ^ shape.dims ≤ length out.old) }
    ensures { out.new ≡ cond (is_some (names step)) (laid (numbers_at sheet.now count start (2 ^ shape.dims)) out.old) out.old }
{
    if step.names().is_some() {
        put_value(sheet, count, start, blades_or_none(shape.dims), out);
    }
}
