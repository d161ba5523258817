// Building values from few numbers.
ghost use Rattle.std.specs.Prelude.{◌≡◌, ℕ, ◌+◌, ◌-◌, ◌*◌, ◌≤◌, ◌<◌, ◌^◌, eqb, ◌%◌, length};
ghost use Rattle.masks.specs.Order.{start, order, built_tests};
ghost use Rattle.masks.specs.Outcome.{IsAnswer, Gives, refusal, laid};
ghost use Rattle.masks.specs.Flavor.{added_dims};
ghost use Rattle.masks.specs.Build.{odd_of, padded, at_grade, one_grade, vector, n_1_blades, scalar, pseudoscalar, first_grade, packing, spread, blades_of_side};

use super::flavor::Flavor;
use super::gather::{clear_part, copy_all, copy_part};
use super::order::{blades, size_of, start_of};
use super::outcome::{MAX_DIMS, Refusal, shape_of};
use super::shape::Shape;

// How some numbers fill a value.
#[derive(Clone, Copy, PartialEq, Eq, Debug)]
pub enum Packing {
    Full,
    Half,
    Grade(u8),
}

// The grades of a half set of blades.
#[derive(Clone, Copy, PartialEq, Eq, Debug)]
pub(crate) enum Parity {
    Even = 0,
    Odd = 1,
}

impl Parity {
    // Whether a grade is one of them.
    pub(crate) fn has(self, grade: u8) -> bool
        ensures { result ≡ eqb (grade % 2) (odd_of self) }
    {
        grade % 2 == self as u8
    }
}

// The numbers of v from the place `first` on, and +0 in the other of n places.
fn pad(first: usize, v: &[f64], n: usize, out: &mut [f64])
    requires { (first + length v.now ≤ n) × (n ≤ length out.old) }
    ensures { out.new ≡ laid (padded first v.now n) out.old }
{
    clear_part(n, out, 0);
    copy_part(v, 0, v.len(), out, first);
}

// The numbers of one grade, and +0 in the others.
fn fill_grade(dims: u8, grade: u8, v: &[f64], out: &mut [f64])
    requires { (dims ≤ 9) × (grade ≤ dims + 1) × (start dims grade + length v.now ≤ 2 ^ dims) × (2 ^ dims ≤ length out.old) }
    ensures { out.new ≡ laid (at_grade dims grade v.now) out.old }
{
    pad(start_of(dims, grade), v, blades(dims), out);
}

// Whether building a value of some dimensions is refused.
fn built_refusal(dims: usize, room: usize) -> Result<(), Refusal>
    ensures { IsAnswer (refusal (built_tests dims room)) tt result }
{
    if (MAX_DIMS as usize) < dims {
        return Err(Refusal::TooManyDims);
    }
    if room < blades(dims as u8) {
        return Err(Refusal::NoRoom);
    }
    Ok(())
}

// A value of some dimensions: one grade is v, and the others are +0.
fn one_grade(
    dims: usize,
    grade: usize,
    v: &[f64],
    flavor: Flavor,
    out: &mut [f64],
) -> Result<Shape, Refusal>
    requires { (grade ≤ dims + 1) × (start dims grade + length v.now ≤ 2 ^ dims) }
    ensures { Gives (one_grade dims grade v.now flavor (length out.old)) result out.old out.new }
{
    built_refusal(dims, out.len())?;
    let n = dims as u8;
    fill_grade(n, grade as u8, v, out);
    Ok(shape_of(n, flavor))
}

// A value whose vector is v.
pub fn vector(v: &[f64], flavor: Flavor, out: &mut [f64]) -> Result<Shape, Refusal>
    ensures { Gives (vector v.now flavor (length out.old)) result out.old out.new }
{
    one_grade(v.len(), 1, v, flavor, out)
}

// A value whose grade below the last is v.
pub fn n_1_blades(v: &[f64], flavor: Flavor, out: &mut [f64]) -> Result<Shape, Refusal>
    ensures { Gives (n_1_blades v.now flavor (length out.old)) result out.old out.new }
{
    let n = v.len();
    if n < 2 {
        return Err(Refusal::WrongCount);
    }
    one_grade(n, n - 1, v, flavor, out)
}

// The dimensions of a scalar or a pseudoscalar of a flavor at `dims`.
fn built_dims(dims: u8, flavor: Flavor) -> usize
    ensures { result ≡ dims + added_dims flavor }
{
    dims as usize + flavor.added_dims() as usize
}

// A scalar, with a dimension more under Projective.
pub fn scalar(dims: u8, x: f64, flavor: Flavor, out: &mut [f64]) -> Result<Shape, Refusal>
    ensures { Gives (scalar dims x flavor (length out.old)) result out.old out.new }
{
    let n = built_dims(dims, flavor);
    one_grade(n, 0, &[x], flavor, out)
}

// A pseudoscalar, with a dimension more under Projective.
pub fn pseudoscalar(dims: u8, x: f64, flavor: Flavor, out: &mut [f64]) -> Result<Shape, Refusal>
    ensures { Gives (pseudoscalar dims x flavor (length out.old)) result out.old out.new }
{
    let n = built_dims(dims, flavor);
    one_grade(n, n, &[x], flavor, out)
}

// The first grade of n numbers from `from` on and below `end`.
fn first_grade(dims: u8, n: usize, from: u8, end: u8) -> Option<Packing>
    requires { dims ≤ 9 }
    ensures { result ≡ first_grade dims n (end - from) from }
{
    let grade = (from..end).find(|g| size_of(dims, *g) == n);
    grade.map(Packing::Grade)
}

// How n numbers fill a value on the left, the side of the even grades, or on the right.
fn packing_of(parity: Parity, dims: u8, n: usize) -> Option<Packing>
    requires { dims ≤ 9 }
    ensures { result ≡ packing (odd_of parity) dims n }
{
    let total = blades(dims);
    if n == total {
        return Some(Packing::Full);
    }
    if n < total && 2 * n == total {
        return Some(Packing::Half);
    }
    match parity {
        Parity::Even => first_grade(dims, n, 0, (dims + 2) / 2),
        Parity::Odd => first_grade(dims, n, (dims + 1) / 2, dims + 1),
    }
}

// A half set of blades: the grades of one parity take the numbers in turn, and the others are +0.
fn fill_half(parity: Parity, dims: u8, v: &[f64], out: &mut [f64])
    requires { (dims ≤ 9) × (2 * length v.now ≡ 2 ^ dims) × (2 ^ dims ≤ length out.old) }
    ensures { out.new ≡ laid (spread (odd_of parity) (order dims) v.now) out.old }
{
    let mut i = 0;
    let mut k = 0;
    for g in 0..dims + 1 {
        let count = size_of(dims, g);
        if parity.has(g) {
            copy_part(v, i, count, out, k);
            i += count;
        } else {
            clear_part(count, out, k);
        }
        k += count;
    }
}

// Blades packed on one side.
fn pack(
    parity: Parity,
    dims: u8,
    v: &[f64],
    flavor: Flavor,
    out: &mut [f64],
) -> Result<Shape, Refusal>
    ensures { Gives (blades_of_side (odd_of parity) dims v.now flavor (length out.old)) result out.old out.new }
{
    if MAX_DIMS < dims {
        return Err(Refusal::TooManyDims);
    }
    let packing = packing_of(parity, dims, v.len()).ok_or(Refusal::WrongCount)?;
    if out.len() < blades(dims) {
        return Err(Refusal::NoRoom);
    }
    match packing {
        Packing::Full => {
            copy_all(v, out);
            Ok(shape_of(dims, Flavor::Vanilla))
        }
        Packing::Half => {
            fill_half(parity, dims, v, out);
            Ok(shape_of(dims, flavor))
        }
        Packing::Grade(g) => {
            fill_grade(dims, g, v, out);
            Ok(shape_of(dims, flavor))
        }
    }
}

// A value from all of its blades, the even ones, or a low grade.
pub fn blades_left(dims: u8, v: &[f64], flavor: Flavor, out: &mut [f64]) -> Result<Shape, Refusal>
    ensures { Gives (blades_of_side 0 dims v.now flavor (length out.old)) result out.old out.new }
{
    pack(Parity::Even, dims, v, flavor, out)
}

// A value from all of its blades, the odd ones, or a high grade.
pub fn blades_right(dims: u8, v: &[f64], flavor: Flavor, out: &mut [f64]) -> Result<Shape, Refusal>
    ensures { Gives (blades_of_side 1 dims v.now flavor (length out.old)) result out.old out.new }
{
    pack(Parity::Odd, dims, v, flavor, out)
}
