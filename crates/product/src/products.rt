// The five products.
ghost use Rattle.std.specs.Prelude.{◌≡◌, ◌^◌, ◌≤◌, length};
ghost use Rattle.std.specs.Float.{binary64};
ghost use Rattle.masks.specs.Outcome.{laid};
ghost use Rattle.masks.specs.Shape.{meeting_dims};
ghost use Rattle.product.specs.Pairwise.{mask_at};
ghost use Rattle.product.specs.Given.{given_mask, product_by, multiplied_by_of, multiplied_by};
ghost use Rattle.product.specs.Products.{GivesProduct, general_product, left_contraction, right_contraction, inner_product, outer_product};

use super::mode::Mode;
use super::outcome::Product;
use super::pairs::pair_count;
use super::plan::Plan;
use super::sums::fill_given;
use masks::order::{blades_or_none, put_order};
use masks::outcome::{Refusal, pair_refusal};
use masks::shape::Shape;

// The coefficients of the product of two values of one shape, whose places have the masks of the order, which is built here, in an array that is long
// enough.
fn fill_ordered<const N: usize>(mode: Mode, shape: Shape, a: &[f64], b: &[f64], out: &mut [f64])
    requires a_len { (shape.dims ≤ 9) × (length a.now ≡ 2 ^ shape.dims) × (length b.now ≡ 2 ^ shape.dims) × (2 ^ shape.dims ≤ length out.old) }
    requires room { (2 ^ shape.dims ≤ N) × (N ≤ 512) }
    ensures { out.new ≡ laid (product_by (mask_at shape.dims) shape.dims mode shape.flavor binary64 a.now b.now) out.old }
{
    let mut order = [0; N];
    put_order(shape.dims, &mut order).unwrap();
    let given = &order;
    fill_given(Plan { shape, mode, given }, a, b, out);
}

// The coefficients of the product of two values of one shape, whose places have the given masks, or where these are too few those of the order. One
// clause says of both values that they have the shape's numbers: a type for each would hold the shape twice, and a clause that both are the same.
fn fill(given: &[u16], mode: Mode, shape: Shape, a: &[f64], b: &[f64], out: &mut [f64])
    requires { (shape.dims ≤ 9) × (length a.now ≡ 2 ^ shape.dims) × (length b.now ≡ 2 ^ shape.dims) × (2 ^ shape.dims ≤ length out.old) }
    ensures { out.new ≡ laid (product_by (given_mask given.now shape.dims) shape.dims mode shape.flavor binary64 a.now b.now) out.old }
{
    if a.len() <= given.len() {
        fill_given(Plan { shape, mode, given }, a, b, out);
    } else if shape.dims <= 6 {
        fill_ordered::<64>(mode, shape, a, b, out);
    } else {
        fill_ordered::<512>(mode, shape, a, b, out);
    }
}

// The product of two values of one shape's dimensions, which is not refused.
fn multiply_same(
    given: &[u16],
    mode: Mode,
    shape: Shape,
    a: &[f64],
    b: &[f64],
    out: &mut [f64],
) -> Product
    requires { (shape.dims ≤ 9) × (length a.now ≡ 2 ^ shape.dims) × (length b.now ≡ 2 ^ shape.dims) × (2 ^ shape.dims ≤ length out.old) }
    ensures { GivesProduct (multiplied_by_of given.now mode shape a.now b.now) (Ok result) out.old out.new }
{
    fill(given, mode, shape, a, b, out);
    Product {
        shape,
        pairs: pair_count(mode, shape.flavor, shape.dims),
    }
}

// The product of two values that are conformed first, to arrays that have room.
fn multiply_in<const N: usize>(
    given: &[u16],
    mode: Mode,
    left: Shape,
    right: Shape,
    a: &[f64],
    b: &[f64],
    out: &mut [f64],
) -> Result<Product, Refusal>
    requires { (meeting_dims left right ≤ 9 → 2 ^ meeting_dims left right ≤ N) × (N ≤ 512) }
    ensures { GivesProduct (multiplied_by given.now mode left right a.now b.now (length out.old)) result out.old out.new }
{
    let mut x = [0.0; N];
    let mut y = [0.0; N];
    let (shape, _) = left.conform(right, a, b, &mut x, &mut y)?;
    let n = blades_or_none(shape.dims);
    if out.len() < n {
        return Err(Refusal::NoRoom);
    }
    Ok(multiply_same(given, mode, shape, &x[..n], &y[..n], out))
}

// The product of two values that are conformed first, to arrays as long as their dimensions want.
fn multiply_conformed(
    given: &[u16],
    mode: Mode,
    left: Shape,
    right: Shape,
    a: &[f64],
    b: &[f64],
    out: &mut [f64],
) -> Result<Product, Refusal>
    ensures { GivesProduct (multiplied_by given.now mode left right a.now b.now (length out.old)) result out.old out.new }
{
    if left.dims < 6 && right.dims < 6 {
        multiply_in::<64>(given, mode, left, right, a, b, out)
    } else {
        multiply_in::<512>(given, mode, left, right, a, b, out)
    }
}

// A product of two values whose places have the given masks, or where these are fewer than the result's places those of the order: as they stand where
// they agree, so that nothing is copied, else conformed.
pub fn multiply(
    given: &[u16],
    mode: Mode,
    left: Shape,
    right: Shape,
    a: &[f64],
    b: &[f64],
    out: &mut [f64],
) -> Result<Product, Refusal>
    ensures { GivesProduct (multiplied_by given.now mode left right a.now b.now (length out.old)) result out.old out.new }
{
    if !left.agrees(right) {
        return multiply_conformed(given, mode, left, right, a, b, out);
    }
    pair_refusal(
        left.dims,
        right.dims,
        left.dims,
        a.len(),
        b.len(),
        out.len(),
    )?;
    Ok(multiply_same(given, mode, left, a, b, out))
}

// The general product.
pub fn general_product(
    left: Shape,
    right: Shape,
    a: &[f64],
    b: &[f64],
    out: &mut [f64],
) -> Result<Product, Refusal>
    ensures { GivesProduct (general_product left right a.now b.now (length out.old)) result out.old out.new }
{
    multiply(&[], Mode::All, left, right, a, b, out)
}

// The left contraction: a within b.
pub fn left_contraction(
    left: Shape,
    right: Shape,
    a: &[f64],
    b: &[f64],
    out: &mut [f64],
) -> Result<Product, Refusal>
    ensures { GivesProduct (left_contraction left right a.now b.now (length out.old)) result out.old out.new }
{
    multiply(&[], Mode::Left, left, right, a, b, out)
}

// The right contraction: b within a.
pub fn right_contraction(
    left: Shape,
    right: Shape,
    a: &[f64],
    b: &[f64],
    out: &mut [f64],
) -> Result<Product, Refusal>
    ensures { GivesProduct (right_contraction left right a.now b.now (length out.old)) result out.old out.new }
{
    multiply(&[], Mode::Right, left, right, a, b, out)
}

// The inner product: either within the other.
pub fn inner_product(
    left: Shape,
    right: Shape,
    a: &[f64],
    b: &[f64],
    out: &mut [f64],
) -> Result<Product, Refusal>
    ensures { GivesProduct (inner_product left right a.now b.now (length out.old)) result out.old out.new }
{
    multiply(&[], Mode::Inner, left, right, a, b, out)
}

// The outer product: all pairs, under `Flavor::NULL`; the left flavor is kept.
pub fn outer_product(
    left: Shape,
    right: Shape,
    a: &[f64],
    b: &[f64],
    out: &mut [f64],
) -> Result<Product, Refusal>
    ensures { GivesProduct (outer_product left right a.now b.now (length out.old)) result out.old out.new }
{
    multiply(&[], Mode::Outer, left, right, a, b, out)
}
