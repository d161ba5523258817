// Writing a sheet.
ghost use Rattle.std.specs.Prelude.{◌≡◌, [], ◌∷◌, ◌++◌, ◌+◌, ◌*◌, ◌≤◌, length};
ghost use Rattle.masks.specs.Outcome.{refusal, no_room, IsAnswer, Writes};
ghost use Rattle.sheets.specs.Format.{limits};
ghost use Rattle.sheets.specs.Shapes.{listed_shapes};
ghost use Rattle.sheets.specs.Write.{write_sheet};

use super::bytes::{pattern_bytes, put_bytes, put_number};
use super::shapes::{
    MAX_COEFFICIENTS, MAX_SHAPES, Shapes, any_above_nine, blade_total, padded_bytes,
};
use masks::outcome::Refusal;

// How many bytes a sheet has.
fn sheet_size(shapes: usize, patterns: usize) -> usize
    requires { (shapes ≤ 64) × (patterns ≤ 4096) }
    ensures { result ≡ 6 + 5 * shapes + 8 * patterns }
{
    6 + 5 * shapes + 8 * patterns
}

// Whether a sheet is refused.
fn write_refusal(shapes: &Shapes, patterns: usize, room: usize) -> Result<(), Refusal>
    ensures { IsAnswer (refusal (limits shapes.now.count (listed_shapes shapes.now) patterns ++ (no_room room (6 + 5 * shapes.now.count + 8 * patterns) ∷ []))) tt result }
{
    let listed = shapes.listed();
    if any_above_nine(listed) {
        return Err(Refusal::TooManyDims);
    }
    if MAX_SHAPES < shapes.count {
        return Err(Refusal::WrongCount);
    }
    if MAX_COEFFICIENTS < patterns {
        return Err(Refusal::WrongCount);
    }
    if patterns != blade_total(listed) {
        return Err(Refusal::WrongCount);
    }
    if room < sheet_size(shapes.count, patterns) {
        return Err(Refusal::NoRoom);
    }
    Ok(())
}

// The bytes of a sheet, from the front of the output, and how many there are.
pub fn write(shapes: Shapes, patterns: &[u64], out: &mut [u8]) -> Result<usize, Refusal>
    ensures { Writes (write_sheet shapes patterns.now (length out.old)) result out.old out.new }
{
    write_refusal(&shapes, patterns.len(), out.len())?;
    let n = shapes.count;
    let count = patterns.len();
    put_number(n as u64, 2, 0, out);
    put_bytes(shapes.listed(), 5, padded_bytes, 2, out);
    put_number(count as u64, 4, 2 + 5 * n, out);
    put_bytes(patterns, 8, pattern_bytes, 6 + 5 * n, out);
    Ok(sheet_size(n, count))
}
