// Reading a sheet.
ghost use Rattle.std.specs.Prelude.{◌≡◌, map, ◌/◌, ◌≤◌, length};
ghost use Rattle.masks.specs.Outcome.{laid, IsAnswer};
ghost use Rattle.sheets.specs.Bytes.{from_little_endian, parts};
ghost use Rattle.sheets.specs.Read.{said, read_of, Reads, read_sheet, checked};
ghost use Rattle.sheets.specs.inner.Checks.{is_shape, are_shapes};

use super::bytes::{number_at, pattern_from, put_made};
use super::shapes::{MAX_COEFFICIENTS, MAX_SHAPES, Shapes, blade_total, shape_at, shapes_by};
use masks::outcome::{MAX_DIMS, Refusal};

// A sheet: its patterns are in the caller's output.
#[derive(Clone, Copy)]
pub struct SheetRead {
    pub shapes: Shapes,
    pub count: usize,
}

// How many shapes bytes say that they have.
pub fn shape_count(bytes: &[u8]) -> usize
    ensures { result ≡ length (said bytes.now).shapes }
{
    if bytes.len() < 2 {
        return number_at(bytes, 0, bytes.len()) as usize;
    }
    number_at(bytes, 0, 2) as usize
}

// Whether five bytes are those of a shape of at most nine dimensions.
fn is_shape(five: &[u8; 5]) -> bool
    ensures { result ≡ is_shape five.now }
{
    let [dims, kind, p, n, z] = *five;
    if MAX_DIMS < dims {
        return false;
    }
    if kind == 2 {
        return true;
    }
    if 2 < kind {
        return false;
    }
    let none = p == 0 && n == 0;
    none && z == 0
}

// Whether the shapes that bytes say, five each, are well formed.
fn are_shapes(bytes: &[u8]) -> bool
    ensures { result ≡ are_shapes (parts 5 (length bytes.now / 5) bytes.now) }
{
    let (fives, _) = bytes.as_chunks::<5>();
    fives.iter().all(is_shape)
}

// The shapes of the sheet that bytes are, and how many patterns it has.
pub fn check(bytes: &[u8]) -> Result<SheetRead, Refusal>
    ensures { IsAnswer (checked bytes.now).number (read_of (checked bytes.now).sheet) result }
{
    if bytes.len() < 2 {
        return Err(Refusal::Malformed);
    }
    let n = number_at(bytes, 0, 2) as usize;
    if MAX_SHAPES < n {
        return Err(Refusal::Malformed);
    }
    let at = 2 + 5 * n;
    if bytes.len() < at + 4 {
        return Err(Refusal::Malformed);
    }
    if !are_shapes(&bytes[2..at]) {
        return Err(Refusal::Malformed);
    }
    let (fives, _) = bytes[2..at].as_chunks::<5>();
    let shapes = shapes_by(fives, shape_at);
    let count = blade_total(shapes.listed());
    if number_at(bytes, at, 4) != count as u64 {
        return Err(Refusal::Malformed);
    }
    if MAX_COEFFICIENTS < count {
        return Err(Refusal::Malformed);
    }
    if bytes.len() != at + 4 + 8 * count {
        return Err(Refusal::Malformed);
    }
    Ok(SheetRead { shapes, count })
}

// The patterns that bytes are, eight each.
fn put_patterns(bytes: &[u8], out: &mut [u64])
    requires { length bytes.now / 8 ≤ length out.old }
    ensures { out.new ≡ laid (map from_little_endian (parts 8 (length bytes.now / 8) bytes.now)) out.old }
{
    let (patterns, _) = bytes.as_chunks::<8>();
    put_made(patterns, pattern_from, out);
}

// The sheet that bytes are: its shapes, and its patterns from the front of the output.
pub fn read(bytes: &[u8], out: &mut [u64]) -> Result<SheetRead, Refusal>
    ensures { Reads (read_sheet bytes.now (length out.old)) result out.old out.new }
{
    let sheet = check(bytes)?;
    if out.len() < sheet.count {
        return Err(Refusal::NoRoom);
    }
    let at = bytes.len() - 8 * sheet.count;
    put_patterns(&bytes[at..], out);
    Ok(sheet)
}
