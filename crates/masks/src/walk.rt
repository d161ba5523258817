// A value's numbers at other dimensions, by one walk through the larger order. The masks that the smaller dimensions have stay in their order among the
// others, so the numbers are taken, or left, one after the other, and no order is built.
//
// A mask is met backwards, the last basis vector lowest: so the masks of a grade fall as numbers, and each comes from the one before in a few operations.
// Its complement stands as far from the end, so the walk goes to the middle.
ghost use Rattle.std.specs.Prelude.{◌≡◌, map, ◌+◌, ◌^◌, ◌≤◌, ◌<◌, length};
ghost use Rattle.masks.specs.Order.{order};
ghost use Rattle.masks.specs.Outcome.{laid};
ghost use Rattle.masks.specs.Shape.{coef};
ghost use Rattle.masks.specs.inner.Walk.{next_backwards};

use super::coefs::Coefs;
use super::order::{bit, blades};

// What follows a mask, both backwards; it is not the last. Of its bits that are not the ones it ends with the lowest moves down by one, and those ones
// follow it; where there are no others, a grade begins.
fn next_backwards(dims: u8, x: u32) -> u32
    requires { (dims ≤ 9) × (x + 1 < 2 ^ dims) }
    ensures { result ≡ next_backwards dims x }
{
    let y = x + 1;
    let ending = y.trailing_zeros();
    let others = x & y;
    if others == 0 {
        let first = bit(dims as u32);
        return first - (first >> (ending + 1));
    }
    others - (bit(others.trailing_zeros()) >> (ending + 1))
}

// A value at the more dimensions n: its numbers in turn where a mask is its own, +0 elsewhere.
pub(crate) fn grow(value: Coefs, n: u8, out: &mut [f64])
    requires { (value.dims < n) × (n ≤ 9) × (2 ^ n ≤ length out.old) }
    ensures { out.new ≡ laid (map (coef value.entry.dims value.entry.numbers.now) (order n)) out.old }
{
    let Coefs { dims, numbers } = value;
    let last = blades(n) - 1;
    let low = bit((n - dims) as u32);
    let mut x: u32 = 0;
    let mut i: usize = 0;
    let mut end = blades(dims);
    for k in 0..blades(n) / 2 {
        if x % low == 0 {
            out[k] = numbers[i];
            i += 1;
        } else {
            out[k] = 0.0;
        }
        let back = last - k;
        if (last as u32 - x) % low == 0 {
            end -= 1;
            out[back] = numbers[end];
        } else {
            out[back] = 0.0;
        }
        x = next_backwards(n, x);
    }
}

// A value of the more dimensions n at fewer: its numbers in turn where a mask is theirs, and the others are left.
pub(crate) fn shrink(value: Coefs, dims: u8, out: &mut [f64])
    requires { (dims < value.dims) × (2 ^ dims ≤ length out.old) }
    ensures { out.new ≡ laid (map (coef value.entry.dims value.entry.numbers.now) (order dims)) out.old }
{
    let Coefs { dims: n, numbers } = value;
    let last = blades(n) - 1;
    let low = bit((n - dims) as u32);
    let mut x: u32 = 0;
    let mut at: usize = 0;
    let mut end = blades(dims);
    for k in 0..blades(n) / 2 {
        if x % low == 0 {
            out[at] = numbers[k];
            at += 1;
        }
        let back = last - k;
        if (last as u32 - x) % low == 0 {
            end -= 1;
            out[end] = numbers[back];
        }
        x = next_backwards(n, x);
    }
}
