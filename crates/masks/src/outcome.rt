// Why calls are refused, and the tests that lead to it.
ghost use Rattle.std.specs.Prelude.{◌≡◌, length, take};
ghost use Rattle.masks.specs.Outcome.{number_of, IsAnswer, laid, shape_of, refusal, value_tests, result_tests, pair_tests};

use super::flavor::Flavor;
use super::order::blades;
use super::shape::Shape;

// The largest number of dimensions, and of blades.
pub const MAX_DIMS: u8 = 9;

pub const MAX_BLADES: u16 = 512;

// Why a call is refused. The lowest number that applies is given.
#[derive(Clone, Copy, PartialEq, Eq, Debug)]
pub enum Refusal {
    TooManyDims = 1,
    WrongCount = 2,
    NoRoom = 3,
    NoSuchGrade = 4,
    Planar = 5,
    LeastPower = 6,
    NoFlavor = 7,
    NoSpec = 8,
    Malformed = 9,
    BadLog = 10,
}

impl Refusal {
    // The number of document 01 and 02.
    pub fn number(self) -> u8
        ensures { result ≡ number_of self }
    {
        self as u8
    }
}

// Items from the front of an output, as far as it has room. One by one: `copy_from_slice` can come out as memmove, from outside the archive.
pub fn lay<T: Copy>(items: &[T], out: &mut [T])
    ensures { out.new ≡ laid (take (length out.old) items.now) out.old }
{
    let count = items.len().min(out.len());
    for (i, item) in items[..count].iter().enumerate() {
        out[i] = *item;
    }
}

// A shape made anew.
pub fn shape_of(dims: u8, flavor: Flavor) -> Shape
    ensures { result ≡ shape_of dims flavor }
{
    Shape { dims, flavor }
}

// Whether a call is refused: its value has `dims` dimensions and `count` numbers, its result stands in `res` dimensions, has
// `needed` numbers and goes to `room`.
pub fn refusal_of(
    dims: u8,
    res: u8,
    count: usize,
    room: usize,
    needed: usize,
) -> Result<(), Refusal>
    ensures { IsAnswer (refusal (result_tests dims res count room needed)) tt result }
{
    if MAX_DIMS < dims {
        return Err(Refusal::TooManyDims);
    }
    if MAX_DIMS < res {
        return Err(Refusal::TooManyDims);
    }
    if count != blades(dims) {
        return Err(Refusal::WrongCount);
    }
    if room < needed {
        return Err(Refusal::NoRoom);
    }
    Ok(())
}

// The same where there is a value and no output.
pub fn value_refusal(dims: u8, count: usize) -> Result<(), Refusal>
    ensures { IsAnswer (refusal (value_tests dims count)) tt result }
{
    if dims > MAX_DIMS {
        return Err(Refusal::TooManyDims);
    }
    if blades(dims) != count {
        return Err(Refusal::WrongCount);
    }
    Ok(())
}

// The same for two values: the result stands in `res` dimensions and goes to `room`.
pub fn pair_refusal(
    dims: u8,
    other: u8,
    res: u8,
    count: usize,
    count_right: usize,
    room: usize,
) -> Result<(), Refusal>
    ensures { IsAnswer (refusal (pair_tests dims other res count count_right room)) tt result }
{
    if MAX_DIMS < dims {
        return Err(Refusal::TooManyDims);
    }
    if MAX_DIMS < other {
        return Err(Refusal::TooManyDims);
    }
    if MAX_DIMS < res {
        return Err(Refusal::TooManyDims);
    }
    if count != blades(dims) {
        return Err(Refusal::WrongCount);
    }
    if count_right != blades(other) {
        return Err(Refusal::WrongCount);
    }
    if room < blades(res) {
        return Err(Refusal::NoRoom);
    }
    Ok(())
}
