// Coefficients read by mask and by grade, and written from the front of an output: what changes of shape, building and unpacking share.
ghost use Rattle.std.specs.Prelude.{◌≡◌, map, ◌+◌, ◌^◌, ◌≤◌, ◌<◌, length, take, drop, replicate};
ghost use Rattle.std.proofs.lemmas.List.Edits.{sets};
ghost use Rattle.masks.specs.Order.{order};
ghost use Rattle.masks.specs.Outcome.{laid, nought};
ghost use Rattle.masks.specs.Shape.{coef, negates, resized, promoted, conformed};

use super::coefs::Coefs;
use super::order::{blades, place_of, size_of};
use super::outcome::lay;
use super::walk::{grow, shrink};
use std::cmp::Ordering;

// The coefficient of a mask: +0 for a mask outside.
pub(crate) fn coefficient(value: Coefs, mask: usize) -> f64
    ensures { result ≡ coef value.entry.dims value.entry.numbers.now mask }
{
    if mask < blades(value.dims) {
        let p = place_of(value.dims, mask as u32);
        value.numbers[p]
    } else {
        0.0
    }
}

#[inline]
pub(crate) fn copy_all(a: &[f64], out: &mut [f64])
    requires { length a.now ≤ length out.old }
    ensures { out.new ≡ laid a.now out.old }
{
    lay(a, &mut out[..a.len()]);
}

// `count` numbers from the place `first` on, written from the place `at` on.
#[inline]
pub(crate) fn copy_part(a: &[f64], first: usize, count: usize, out: &mut [f64], at: usize)
    requires { (first + count ≤ length a.now) × (at + count ≤ length out.old) }
    ensures { out.new ≡ sets out.old at (take count (drop first a.now)) }
{
    lay(&a[first..first + count], &mut out[at..at + count]);
}

// +0 at `count` places from `at` on.
#[inline]
pub(crate) fn clear_part(count: usize, out: &mut [f64], at: usize)
    requires { at + count ≤ length out.old }
    ensures { out.new ≡ sets out.old at (replicate count nought) }
{
    out[at..at + count].fill(0.0);
}

// All coefficients at d dimensions.
#[inline]
pub(crate) fn read_all(value: Coefs, d: u8, out: &mut [f64])
    requires { (d ≤ 9) × (2 ^ d ≤ length out.old) }
    ensures { out.new ≡ laid (map (coef value.entry.dims value.entry.numbers.now) (order d)) out.old }
{
    match value.dims.cmp(&d) {
        Ordering::Less => grow(value, d, out),
        Ordering::Equal => copy_all(value.numbers, out),
        Ordering::Greater => shrink(value, d, out),
    }
}

// Whether a change of dimensions negates mask 101.
fn turns(dims: u8, new_dims: u8) -> bool
    ensures { result ≡ negates dims new_dims 5 }
{
    if dims == 3 {
        return 3 < new_dims;
    }
    if new_dims == 3 {
        return 3 < dims;
    }
    false
}

// A value at other dimensions: its coefficients there, that of mask 101 negated where the change does.
#[inline]
pub(crate) fn resize(value: Coefs, new_dims: u8, out: &mut [f64])
    requires { (new_dims ≤ 9) × (2 ^ new_dims ≤ length out.old) }
    ensures { out.new ≡ laid (resized value.entry.dims new_dims value.entry.numbers.now) out.old }
{
    read_all(value, new_dims, out);
    if turns(value.dims, new_dims) {
        let p = place_of(new_dims, 5);
        out[p] = -out[p];
    }
}

// A value at one dimension more, its bit i become bit i + 1. In each grade the masks that have bit 0 come first, as many as the grade below has, and are +0;
// then come the value's own.
fn promote(value: Coefs, out: &mut [f64])
    requires { (value.dims < 9) × (2 ^ (value.dims + 1) ≤ length out.old) }
    ensures { out.new ≡ laid (promoted 1 value.entry.dims value.entry.numbers.now) out.old }
{
    let Coefs { dims, numbers } = value;
    out[0] = numbers[0];
    let mut below: usize = 1;
    let mut i: usize = 1;
    let mut k: usize = 1;
    for g in 0..dims + 1 {
        clear_part(below, out, k);
        k += below;
        below = size_of(dims, g + 1);
        copy_part(numbers, i, below, out, k);
        i += below;
        k += below;
    }
}

// A value promoted by `up` dimensions, 0 or 1, and then at others.
pub(crate) fn conform_by(up: u8, value: Coefs, new_dims: u8, out: &mut [f64])
    requires { (up ≤ 1) × (value.dims + up ≤ 9) × (new_dims ≤ 9) × (2 ^ new_dims ≤ length out.old) }
    ensures { out.new ≡ laid (conformed up value.entry.dims new_dims value.entry.numbers.now) out.old }
{
    if up == 0 {
        resize(value, new_dims, out);
        return;
    }
    let dims = value.dims + 1;
    if dims == new_dims {
        promote(value, out);
        return;
    }
    let mut held = [0.0; 512];
    promote(value, &mut held);
    let numbers = &held[..blades(dims)];
    resize(Coefs { dims, numbers }, new_dims, out);
}

// The same; where nothing is promoted and the dimensions stay it is copied, without the array that `conform_by` is entered with.
#[inline(always)]
pub(crate) fn conform_one(up: u8, value: Coefs, new_dims: u8, out: &mut [f64])
    requires { (up ≤ 1) × (value.dims + up ≤ 9) × (new_dims ≤ 9) × (2 ^ new_dims ≤ length out.old) }
    ensures { out.new ≡ laid (conformed up value.entry.dims new_dims value.entry.numbers.now) out.old }
{
    if up == 0 {
        if value.dims == new_dims {
            copy_all(value.numbers, out);
            return;
        }
    }
    conform_by(up, value, new_dims, out);
}
