// The rig sheet. A list of shapes is a slice of bytes, six to a shape.
ghost use Rattle.std.specs.Prelude.{◌≡◌, true, [], ◌∷◌, length};
ghost use Rattle.masks.specs.Outcome.{number_of, refusal, IsAnswer};
ghost use Rattle.sheets.specs.Format.{any_above_nine, above_nine};
ghost use Rattle.sheets.specs.Read.{malformed};
ghost use Rattle.sheets.specs.Shapes.{said_shapes};
ghost use Rattle.sheets.specs.Patterns.{numbers_of, patterns_of};
ghost use Rattle.exports.specs.Reports.{ReportsPlace, ReportsList};
ghost use Rattle.exports.specs.Sheet.{not_sixes, read_from, write_from, value_from, ReportsSheet};

use super::faces::{place_face, sheet_face};
use super::reports::{DONE, report, report_two};
use masks::outcome::{MAX_DIMS, Refusal};
use sheets::patterns::{numbers_of, patterns_of};
use sheets::read::{read, shape_count};
use sheets::shapes::{shapes_from, shapes_to};
use sheets::values::value_at;
use sheets::write::write;
use std::convert::identity;

// Whether one of the shapes that bytes say has more than nine dimensions: every sixth byte, and none of a shape that is cut off.
fn any_above_nine(bytes: &[u8]) -> bool
    ensures { result ≡ any_above_nine (said_shapes 6 bytes.now) }
{
    let count = bytes.len() / 6;
    for i in 0..count {
        if MAX_DIMS < bytes[6 * i] {
            return true;
        }
    }
    false
}

// Whether a list of shapes is refused by its bytes alone.
fn list_refusal(bytes: &[u8]) -> Result<(), Refusal>
    ensures { IsAnswer (refusal (above_nine (said_shapes 6 bytes.now) ∷ not_sixes bytes.now ∷ [])) tt result }
{
    if any_above_nine(bytes) {
        return Err(Refusal::TooManyDims);
    }
    if bytes.len() % 6 != 0 {
        return Err(Refusal::WrongCount);
    }
    Ok(())
}

// Why a sheet is refused where its list of shapes has no room: malformed, or else no room.
fn short_refusal(bytes: &[u8]) -> Refusal
    ensures { number_of result ≡ refusal (malformed bytes.now ∷ record { fails = true; number = 3 } ∷ []) }
{
    let mut one: [u64; 1] = [0];
    match read(bytes, &mut one) {
        Ok(_) => Refusal::NoRoom,
        Err(refusal) => refusal,
    }
}

// The sheet that bytes are: its shapes, six bytes each, and its patterns, each from the front of an output, and how many shapes and patterns
// there are.
#[unsafe(no_mangle)]
pub extern "C" fn thresholm_read(
    bytes: &[u8],
    shapes: &mut [u8],
    out: &mut [u64],
    to_shapes: &mut usize,
    to_count: &mut usize,
) -> u8
    ensures { ReportsSheet (read_from bytes.now (length shapes.old) (length out.old)) result shapes.old shapes.new out.old out.new (to_shapes.old ∷ to_count.old ∷ []) (to_shapes.new ∷ to_count.new ∷ []) }
{
    if shapes.len() / 6 < shape_count(bytes) {
        return short_refusal(bytes).number();
    }
    let sheet = match read(bytes, out) {
        Ok(sheet) => sheet,
        Err(refusal) => return refusal.number(),
    };
    let _ = shapes_to(sheet.shapes, shapes);
    (*to_shapes, *to_count) = sheet_face(sheet);
    DONE
}

// The bytes of a sheet, from the front of the output, and how many there are.
#[unsafe(no_mangle)]
pub extern "C" fn thresholm_write(
    shapes: &[u8],
    patterns: &[u64],
    out: &mut [u8],
    to_count: &mut usize,
) -> u8
    ensures { ReportsList (write_from shapes.now patterns.now (length out.old)) result out.old out.new to_count.old to_count.new }
{
    if let Err(refusal) = list_refusal(shapes) {
        return refusal.number();
    }
    let written = write(shapes_from(shapes), patterns, out);
    report(written, identity, to_count)
}

// The shape of the value at an index, and where its patterns start.
#[unsafe(no_mangle)]
pub extern "C" fn thresholm_value_at(
    shapes: &[u8],
    index: usize,
    to_shape: &mut [u8; 6],
    to_start: &mut usize,
) -> u8
    ensures { ReportsPlace (value_from shapes.now index) result (to_shape.old, to_start.old) (to_shape.new, to_start.new) }
{
    if let Err(refusal) = list_refusal(shapes) {
        return refusal.number();
    }
    let placed = value_at(shapes_from(shapes), index);
    report_two(placed, place_face, to_shape, to_start)
}

// The numbers of bit patterns, and how many there are.
#[unsafe(no_mangle)]
pub extern "C" fn thresholm_numbers_of(
    patterns: &[u64],
    out: &mut [f64],
    to_count: &mut usize,
) -> u8
    ensures { ReportsList (numbers_of patterns.now (length out.old)) result out.old out.new to_count.old to_count.new }
{
    report(numbers_of(patterns, out), identity, to_count)
}

// The bit patterns of numbers, and how many there are.
#[unsafe(no_mangle)]
pub extern "C" fn thresholm_patterns_of(
    numbers: &[f64],
    out: &mut [u64],
    to_count: &mut usize,
) -> u8
    ensures { ReportsList (patterns_of numbers.now (length out.old)) result out.old out.new to_count.old to_count.new }
{
    report(patterns_of(numbers, out), identity, to_count)
}
