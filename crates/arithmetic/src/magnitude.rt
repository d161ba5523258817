// The squared magnitude.
ghost use Rattle.std.specs.Prelude.{◌≡◌, cond, ℕ, ◌-◌, ◌^◌, ◌≤◌, ◌<◌, min, eqb, pos, negsuc, length, get_or};
ghost use Rattle.std.specs.Int.Bits.{bit_and};
ghost use Rattle.std.specs.Int.Count.{ones};
ghost use Rattle.std.specs.Float.{binary64};
ghost use Rattle.std.specs.Float.Ieee.{of_int};
ghost use Rattle.clifford.specs.Blade.{has};
ghost use Rattle.clifford.specs.Sign.{sign};
ghost use Rattle.masks.specs.Flavor.{metric_of};
ghost use Rattle.masks.specs.Outcome.{IsAnswer};
ghost use Rattle.product.specs.Pairwise.{mask_at};
ghost use Rattle.arithmetic.specs.Magnitude.{weighed_sum, squared_magnitude};

use masks::flavor::Flavor;
use masks::order::put_order;
use masks::outcome::{Refusal, value_refusal};
use masks::shape::Shape;

// The basis vectors that square to 0, and those that square to 0 or to -1, as masks. Those of product, which keep the two apart, are said by a
// definition that no public contract cites (specs/inner).
#[derive(Clone, Copy)]
struct Squares {
    null: u16,
    lower: u16,
}

// The lowest k of the nine bits.
fn low_bits(k: u16) -> u16
    ensures { result ≡ 2 ^ min k 9 - 1 }
{
    (1 << k.min(9)) - 1
}

// The squares of the nine basis vectors.
fn squares_of(flavor: Flavor) -> Squares
    ensures { (i : ℕ) → i < 9 → metric_of flavor i ≡ cond (has result.null i) (pos 0) (cond (has result.lower i) (negsuc 0) (pos 1)) }
{
    match flavor {
        Flavor::Vanilla => Squares { null: 0, lower: 0 },
        Flavor::Projective => Squares { null: 1, lower: 1 },
        Flavor::Cl(_, n, z) => Squares {
            null: low_bits(z as u16),
            lower: low_bits(z as u16 + n as u16),
        },
    }
}

// The product of the flavor metrics of a mask's bits: 0 where one squares to 0, else by the parity of those that square to -1.
fn weight_of(s: Squares, mask: u16) -> f64
    ensures { result ≡ of_int binary64 (cond (eqb (bit_and mask s.null) 0) (sign (ones (bit_and mask s.lower))) (pos 0)) }
{
    if mask & s.null != 0 {
        return 0.0;
    }
    if u16::count_ones(mask & s.lower) % 2 == 0 {
        1.0
    } else {
        -1.0
    }
}

// The sum from place 0 up: (w x c) x c, zeros multiplied too. The flavor and the dimensions go apart, as `weighed_sum` has them.
fn sum_squares(flavor: Flavor, dims: u8, masks: &[u16], a: &[f64]) -> f64
    requires { (dims ≤ 9) × (length a.now ≡ 2 ^ dims) × (2 ^ dims ≤ length masks.now) × ((i : ℕ) → i < 2 ^ dims → get_or masks.now i 0 ≡ mask_at dims i) }
    ensures { result ≡ weighed_sum flavor dims a.now (2 ^ dims) }
{
    let s = squares_of(flavor);
    let mut sum = 0.0;
    for (i, c) in a.iter().enumerate() {
        sum = sum + weight_of(s, masks[i]) * *c * *c;
    }
    sum
}

// The same, where the order is made in an array of N masks.
fn sum_in<const N: usize>(flavor: Flavor, dims: u8, a: &[f64]) -> f64
    requires { (dims ≤ 9) × (2 ^ dims ≤ N) × (N ≤ 512) × (length a.now ≡ 2 ^ dims) }
    ensures { result ≡ weighed_sum flavor dims a.now (2 ^ dims) }
{
    let mut masks = [0; N];
    let _ordered = put_order(dims, &mut masks);
    sum_squares(flavor, dims, &masks, a)
}

// The squared magnitude of a value.
pub fn squared_magnitude(shape: Shape, a: &[f64]) -> Result<f64, Refusal>
    ensures { IsAnswer (squared_magnitude shape a.now).number (squared_magnitude shape a.now).value result }
{
    value_refusal(shape.dims, a.len())?;
    let flavor = shape.flavor;
    if shape.dims <= 6 {
        return Ok(sum_in::<64>(flavor, shape.dims, a));
    }
    Ok(sum_in::<512>(flavor, shape.dims, a))
}
