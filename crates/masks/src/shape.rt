// Shapes and their changes.
ghost use Rattle.std.specs.Prelude.{◌≡◌, cond, ◌+◌, ◌^◌, ◌≤◌, max, ltb, length};
ghost use Rattle.masks.specs.Outcome.{IsAnswer, Gives, GivesBoth, refusal, laid};
ghost use Rattle.masks.specs.Shape.{with_dims, with_flavor, promotes, conformed, conformed_shape, set_dims, set_flavor, conform_to, both_tests, conform, agree};

use super::coefs::Coefs;
use super::flavor::Flavor;
use super::gather::conform_one;
use super::order::{blades, blades_or_none};
use super::outcome::{MAX_DIMS, Refusal, pair_refusal, refusal_of};

#[derive(Clone, Copy, PartialEq, Eq, Debug)]
pub struct Shape {
    pub dims: u8,
    pub flavor: Flavor,
}

// The dimensions that a change from one flavor to another adds: 1 from Vanilla to Projective, else 0.
pub fn promotion(f: Flavor, g: Flavor) -> u8
    ensures { result ≡ promotes f g }
{
    match f {
        Flavor::Vanilla => g.added_dims(),
        Flavor::Projective => 0,
        Flavor::Cl(_, _, _) => 0,
    }
}

// Whether conforming two values to `res` dimensions is refused.
fn conform_refusal(
    dims: u8,
    other: u8,
    res: u8,
    count: usize,
    count_right: usize,
    room: usize,
    room_right: usize,
) -> Result<(), Refusal>
    ensures { IsAnswer (refusal (both_tests dims other res count count_right room room_right)) tt result }
{
    pair_refusal(dims, other, res, count, count_right, room)?;
    if room_right < blades(res) {
        return Err(Refusal::NoRoom);
    }
    Ok(())
}

impl Shape {
    // The shape with other dimensions.
    pub fn with_dims(self, dims: u8) -> Shape
        ensures { result ≡ with_dims self dims }
    {
        let flavor = self.flavor;
        Shape { dims, flavor }
    }

    // The shape with another flavor, and nothing else: no promotion.
    pub fn with_flavor(self, flavor: Flavor) -> Shape
        ensures { result ≡ with_flavor self flavor }
    {
        Shape {
            dims: self.dims,
            flavor,
        }
    }

    // Whether two values conform as they stand.
    pub fn agrees(self, other: Shape) -> bool
        ensures { result ≡ agree self other }
    {
        let own = self.flavor;
        let theirs = other.flavor;
        self.dims == other.dims && promotion(own, theirs) + promotion(theirs, own) == 0
    }

    // The shape after conforming: promoted where `up` is 1, with other dimensions.
    fn conformed(self, up: u8, dims: u8) -> Shape
        ensures { result ≡ conformed_shape up self dims }
    {
        let grown = self.with_dims(dims);
        if up == 0 {
            return grown;
        }
        grown.with_flavor(Flavor::Projective)
    }

    // The value at `new_dims` dimensions.
    pub fn set_dims(self, new_dims: u8, a: &[f64], out: &mut [f64]) -> Result<Shape, Refusal>
        ensures { Gives (set_dims self new_dims a.now (length out.old)) result out.old out.new }
    {
        let dims = self.dims;
        refusal_of(dims, new_dims, a.len(), out.len(), blades_or_none(new_dims))?;
        conform_one(0, Coefs { dims, numbers: a }, new_dims, out);
        Ok(self.with_dims(new_dims))
    }

    // The value in another flavor: promoted from Vanilla to Projective, else renamed.
    pub fn set_flavor(self, flavor: Flavor, a: &[f64], out: &mut [f64]) -> Result<Shape, Refusal>
        ensures { Gives (set_flavor self flavor a.now (length out.old)) result out.old out.new }
    {
        let dims = self.dims;
        let own = self.flavor;
        let up = promotion(own, flavor);
        let n = dims.saturating_add(up);
        refusal_of(dims, n, a.len(), out.len(), blades_or_none(n))?;
        conform_one(up, Coefs { dims, numbers: a }, n, out);
        Ok(self.with_dims(n).with_flavor(flavor))
    }

    // The value at the flavor and the dimensions of another.
    pub fn conform_to(self, other: Shape, a: &[f64], out: &mut [f64]) -> Result<Shape, Refusal>
        ensures { Gives (conform_to self other a.now (length out.old)) result out.old out.new }
    {
        let dims = self.dims;
        let own = self.flavor;
        let theirs = other.flavor;
        let up = promotion(own, theirs);
        let n = dims.saturating_add(up).max(other.dims);
        refusal_of(dims, n, a.len(), out.len(), blades_or_none(n))?;
        conform_one(up, Coefs { dims, numbers: a }, n, out);
        Ok(self.conformed(up, n))
    }

    // Both values at the flavor and the dimensions that they meet in.
    pub fn conform(
        self,
        other: Shape,
        a: &[f64],
        b: &[f64],
        out: &mut [f64],
        out_right: &mut [f64],
    ) -> Result<(Shape, Shape), Refusal>
        ensures { GivesBoth (conform self other a.now b.now (length out.old) (length out_right.old)) result out.old out.new out_right.old out_right.new }
    {
        let dims = self.dims;
        let dims_right = other.dims;
        let own = self.flavor;
        let theirs = other.flavor;
        let up = promotion(own, theirs);
        let up_right = promotion(theirs, own);
        let n = dims
            .saturating_add(up)
            .max(dims_right.saturating_add(up_right));
        conform_refusal(
            dims,
            dims_right,
            n,
            a.len(),
            b.len(),
            out.len(),
            out_right.len(),
        )?;
        conform_one(up, Coefs { dims, numbers: a }, n, out);
        let value_right = Coefs {
            dims: dims_right,
            numbers: b,
        };
        conform_one(up_right, value_right, n, out_right);
        let left = self.conformed(up, n);
        let right = other.conformed(up_right, n);
        Ok((left, right))
    }
}
