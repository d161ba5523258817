// Unpacking a value by mask.
ghost use Rattle.std.specs.Prelude.{◌≡◌, cond, map, ◌-◌, ◌≤◌, ◌<◌, ◌^◌, ltb, length};
ghost use Rattle.masks.specs.Order.{order};
ghost use Rattle.masks.specs.Outcome.{Writes, laid};
ghost use Rattle.masks.specs.Shape.{coef};
ghost use Rattle.masks.specs.Build.{odd_of};
ghost use Rattle.masks.specs.Unpack.{choose, half_masks, half_of, unpack_all, unpack_half, unpack_own_half, unpack_vector};

use super::build::Parity;
use super::coefs::Coefs;
use super::gather::{coefficient, copy_part, read_all};
use super::order::{blades, blades_or_none, size_of};
use super::outcome::{MAX_DIMS, Refusal, refusal_of};
use super::shape::Shape;

// How many even or odd blades there are.
fn half_count(dims: u8) -> usize
    ensures { result ≡ cond (ltb 9 dims) 0 (2 ^ (dims - 1)) }
{
    if MAX_DIMS < dims {
        return 0;
    }
    blades(dims.saturating_sub(1))
}

// The grades of one parity, one after the other.
fn take_half(parity: Parity, value: Coefs, out: &mut [f64])
    requires { (0 < value.dims) × (2 ^ (value.dims - 1) ≤ length out.old) }
    ensures { out.new ≡ laid (map (coef value.entry.dims value.entry.numbers.now) (choose (odd_of parity) (order value.entry.dims))) out.old }
{
    let Coefs { dims, numbers } = value;
    let mut i = 0;
    let mut k = 0;
    for g in 0..dims + 1 {
        let count = size_of(dims, g);
        if parity.has(g) {
            copy_part(numbers, i, count, out, k);
            k += count;
        }
        i += count;
    }
}

// The blades of one parity at d dimensions; where d is 0, the coefficient of the mask `lone`.
fn half(parity: Parity, lone: usize, value: Coefs, d: u8, out: &mut [f64])
    requires { (d ≤ 9) × (2 ^ (d - 1) ≤ length out.old) }
    ensures { out.new ≡ laid (map (coef value.entry.dims value.entry.numbers.now) (half_masks (odd_of parity) lone d)) out.old }
{
    if d == 0 {
        out[0] = coefficient(value, lone);
        return;
    }
    if d == value.dims {
        take_half(parity, value, out);
        return;
    }
    let mut held = [0.0; 512];
    read_all(value, d, &mut held);
    let numbers = &held[..blades(d)];
    take_half(parity, Coefs { dims: d, numbers }, out);
}

// The even or odd blades of a value, with refusals.
fn unpack_half(
    parity: Parity,
    lone: usize,
    dims: u8,
    d: u8,
    a: &[f64],
    out: &mut [f64],
) -> Result<usize, Refusal>
    ensures { Writes (half_of (odd_of parity) lone dims d a.now (length out.old)) result out.old out.new }
{
    let needed = half_count(d);
    refusal_of(dims, d, a.len(), out.len(), needed)?;
    half(parity, lone, Coefs { dims, numbers: a }, d, out);
    Ok(needed)
}

impl Shape {
    // All blades at d dimensions.
    pub fn unpack_all(self, d: u8, a: &[f64], out: &mut [f64]) -> Result<usize, Refusal>
        ensures { Writes (unpack_all self d a.now (length out.old)) result out.old out.new }
    {
        let dims = self.dims;
        let needed = blades_or_none(d);
        refusal_of(dims, d, a.len(), out.len(), needed)?;
        read_all(Coefs { dims, numbers: a }, d, out);
        Ok(needed)
    }

    // The even blades at d dimensions.
    pub fn unpack_even(self, d: u8, a: &[f64], out: &mut [f64]) -> Result<usize, Refusal>
        ensures { Writes (unpack_half 0 self d a.now (length out.old)) result out.old out.new }
    {
        unpack_half(Parity::Even, 0, self.dims, d, a, out)
    }

    // The odd blades at d dimensions.
    pub fn unpack_odd(self, d: u8, a: &[f64], out: &mut [f64]) -> Result<usize, Refusal>
        ensures { Writes (unpack_half 1 self d a.now (length out.old)) result out.old out.new }
    {
        unpack_half(Parity::Odd, 0, self.dims, d, a, out)
    }

    // The even blades at its own dimensions.
    pub fn unpack_own_even(self, a: &[f64], out: &mut [f64]) -> Result<usize, Refusal>
        ensures { Writes (unpack_own_half 0 self a.now (length out.old)) result out.old out.new }
    {
        unpack_half(Parity::Even, 0, self.dims, self.dims, a, out)
    }

    // The odd blades at its own dimensions.
    pub fn unpack_own_odd(self, a: &[f64], out: &mut [f64]) -> Result<usize, Refusal>
        ensures { Writes (unpack_own_half 1 self a.now (length out.old)) result out.old out.new }
    {
        unpack_half(Parity::Odd, 1, self.dims, self.dims, a, out)
    }

    // The vector at its own dimensions.
    pub fn unpack_vector(self, a: &[f64], out: &mut [f64]) -> Result<usize, Refusal>
        ensures { Writes (unpack_vector self a.now (length out.old)) result out.old out.new }
    {
        let dims = self.dims;
        let needed = dims as usize;
        refusal_of(dims, dims, a.len(), out.len(), needed)?;
        copy_part(a, 1, needed, out, 0);
        Ok(needed)
    }
}
