// Single blades, and one grade of a value.
ghost use Rattle.std.specs.Prelude.{◌≡◌, ◌-◌, ◌≤◌, ◌<◌, ◌^◌, length, set};
ghost use Rattle.masks.specs.Order.{place};
ghost use Rattle.masks.specs.Outcome.{IsAnswer, Gives, refusal, laid};
ghost use Rattle.masks.specs.Blade.{get_blade, set_blade_tests, set_blade, blade_dims, grade_refusal, grade_part};

use super::coefs::Coefs;
use super::gather::{coefficient, copy_all, resize};
use super::order::{blades, place_of, size_of, start_of};
use super::outcome::{MAX_DIMS, Refusal, value_refusal};
use super::shape::Shape;

// The dimensions that a mask needs, from `dims` on.
fn dims_for(dims: u8, mask: usize) -> u8
    requires { dims ≤ 9 }
    ensures { result ≡ blade_dims (9 - dims) dims mask }
{
    let fits = (dims..MAX_DIMS).find(
        |&n|
            requires { n ≤ 9 }
        { mask < blades(n) },
    );
    fits.unwrap_or(MAX_DIMS)
}

// Whether setting a blade is refused.
fn set_blade_refusal(dims: u8, mask: usize, count: usize, room: usize) -> Result<(), Refusal>
    ensures { IsAnswer (refusal (set_blade_tests dims mask count room)) tt result }
{
    if MAX_DIMS < dims {
        return Err(Refusal::TooManyDims);
    }
    if 512 <= mask {
        return Err(Refusal::TooManyDims);
    }
    if count != blades(dims) {
        return Err(Refusal::WrongCount);
    }
    if room < blades(dims_for(dims, mask)) {
        return Err(Refusal::NoRoom);
    }
    Ok(())
}

// A value with x at a mask that it has.
fn put_blade(value: Coefs, mask: usize, x: f64, out: &mut [f64])
    requires { (mask < 2 ^ value.dims) × (2 ^ value.dims ≤ length out.old) }
    ensures { out.new ≡ laid (set value.entry.numbers.now (place value.entry.dims mask) x) out.old }
{
    copy_all(value.numbers, out);
    let p = place_of(value.dims, mask as u32);
    out[p] = x;
}

impl Shape {
    // The coefficient of a mask: 0 for a mask outside.
    pub fn get_blade(self, mask: usize, a: &[f64]) -> Result<f64, Refusal>
        ensures { IsAnswer (get_blade self mask a.now).number (get_blade self mask a.now).value result }
    {
        value_refusal(self.dims, a.len())?;
        let dims = self.dims;
        Ok(coefficient(Coefs { dims, numbers: a }, mask))
    }

    // The value with x at a mask: outside, it grows by one dimension and calls itself.
    pub fn set_blade(
        self,
        mask: usize,
        x: f64,
        a: &[f64],
        out: &mut [f64],
    ) -> Result<Shape, Refusal>
        ensures { Gives (set_blade self mask x a.now (length out.old)) result out.old out.new }
    {
        let dims = self.dims;
        set_blade_refusal(dims, mask, a.len(), out.len())?;
        let value = Coefs { dims, numbers: a };
        if mask < blades(dims) {
            put_blade(value, mask, x, out);
            return Ok(self);
        }
        let mut held = [0.0; 512];
        resize(value, dims + 1, &mut held);
        let count = blades(dims + 1);
        self.with_dims(dims + 1)
            .set_blade(mask, x, &held[..count], out)
    }

    // Whether the part at a grade is refused.
    pub fn grade_refusal(self, grade: u8, a: &[f64]) -> Result<(), Refusal>
        ensures { IsAnswer (grade_refusal self grade a.now) tt result }
    {
        let dims = self.dims;
        value_refusal(dims, a.len())?;
        if dims < grade {
            return Err(Refusal::NoSuchGrade);
        }
        Ok(())
    }

    // One grade of a value, as a part of the caller's own numbers: empty where it is refused.
    pub fn grade(self, grade: u8, a: &[f64]) -> &[f64]
        ensures { result.now ≡ grade_part self grade a.now }
    {
        if self.grade_refusal(grade, a).is_err() {
            return &a[..0];
        }
        let start = start_of(self.dims, grade);
        let end = start + size_of(self.dims, grade);
        &a[start..end]
    }
}
