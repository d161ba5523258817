// The sums of the pairs, by masks: a is laid out by mask, a sum stands at each mask, and b's blades come in their order.
ghost use Rattle.std.specs.Prelude.{◌≡◌, true, map, ℕ, ◌+◌, ◌%◌, ◌^◌, ◌<◌, ◌≤◌, T, length, get_or, set, replicate};
ghost use Rattle.std.specs.Int.Bits.{bit_and, bit_xor};
ghost use Rattle.std.specs.Int.Count.{ones};
ghost use Rattle.std.specs.Float.{nan, binary64};
ghost use Rattle.std.specs.Float.Ieee.{sub, neg, fits};
ghost use Rattle.masks.specs.Order.{up_from};
ghost use Rattle.masks.specs.Outcome.{laid, nought};
ghost use Rattle.product.specs.Given.{at_mask};
ghost use Rattle.product.specs.inner.Sums.{meets, with_pairs, subset_from, beyond, turned_mask, turned_number, turned_at, rows_below};
ghost use Rattle.product.specs.inner.Plan.{plan_mask, taken_by, planned, paired};

use super::metric::{Blade, Squares, blade_of, squares_of};
use super::mode::{Mode, flavor_for};
use super::plan::{Left, Plan};
use super::snap::snap_one;

// Whether the number of ones is odd. Those of a byte are counted in fewer operations, and only nine dimensions need more.
fn odd_ones(dims: u8, f: u32) -> usize
    requires { (dims ≤ 9) × (f < 2 ^ dims) }
    ensures { result ≡ ones f % 2 }
{
    if dims < 9 {
        return ((f as u8).count_ones() % 2) as usize;
    }
    ((f as u16).count_ones() % 2) as usize
}

// One pair: a's number at the mask m times b's number, or times its negative where an odd number of m's vectors flip the sign. `ys` has both.
fn add_pair(left: Left, acc: &mut [f64], m: u32, blade: Blade, ys: &[f64])
    requires { (m < 2 ^ left.dims) × (blade.mask < 2 ^ left.dims) × (length ys.now ≡ 2) × (length acc.old ≡ 2 ^ left.dims) }
    ensures { acc.new ≡ set acc.old (bit_xor m blade.mask) (paired m blade ys.now left.entry.am.now acc.old) }
{
    let c = (m ^ blade.mask) as usize;
    let sign = odd_ones(left.dims, m & blade.flips);
    acc[c] = acc[c] + left.am[m as usize] * ys[sign];
}

// A blade of b with every mask.
fn add_all(left: Left, acc: &mut [f64], blade: Blade, y: f64)
    requires { (blade.mask < 2 ^ left.dims) × (length acc.old ≡ 2 ^ left.dims) }
    ensures { acc.new ≡ with_pairs (λ m. true) blade y left.entry.am.now acc.old }
{
    let ys = [y, -y];
    for m in 0..acc.len() as u32 {
        add_pair(left, acc, m, blade, &ys);
    }
}

// A blade of b with the masks that have `base` and a subset of `free`, which share no bit: the subsets in rising order, from the given one on.
fn add_subsets(left: Left, acc: &mut [f64], base: u32, free: u32, from: u32, blade: Blade, y: f64)
    requires mask_bound { (blade.mask < 2 ^ left.dims) × (length acc.old ≡ 2 ^ left.dims) }
    requires free_bound { (base + free < 2 ^ left.dims) × (bit_and base free ≡ 0) × (bit_and from free ≡ from) }
    ensures { acc.new ≡ with_pairs (subset_from base free from) blade y left.entry.am.now acc.old }
{
    let ys = [y, -y];
    let step = acc.len() as u32 - free;
    let mut s = from;
    // It goes from subset to subset, and counts no index.
    loop {
        add_pair(left, acc, base + s, blade, &ys);
        s = (s + step) & free;
        if s == 0 {
            return;
        }
    }
}

// A blade of b with the masks that it is within, but its own.
fn add_beyond(left: Left, acc: &mut [f64], blade: Blade, y: f64)
    requires { (blade.mask < 2 ^ left.dims) × (length acc.old ≡ 2 ^ left.dims) }
    ensures { acc.new ≡ with_pairs (beyond blade.mask) blade y left.entry.am.now acc.old }
{
    let n = acc.len() as u32;
    let free = (n - 1) ^ blade.mask;
    if free != 0 {
        add_subsets(left, acc, blade.mask, free, (n - free) & free, blade, y);
    }
}

// All the pairs that a blade of b has.
fn add_blade(left: Left, acc: &mut [f64], mode: Mode, blade: Blade, y: f64)
    requires mask_bound { (blade.mask < 2 ^ left.dims) × (length acc.old ≡ 2 ^ left.dims) }
    requires null_value { bit_and blade.mask blade.null ≡ blade.null }
    ensures { acc.new ≡ with_pairs (meets mode blade) blade y left.entry.am.now acc.old }
{
    let full = acc.len() as u32 - 1;
    let b = blade.mask;
    let null = blade.null;
    match mode {
        Mode::All => {
            if null == 0 {
                add_all(left, acc, blade, y);
            } else {
                add_subsets(left, acc, 0, full ^ null, 0, blade, y);
            }
        }
        Mode::Left => add_subsets(left, acc, 0, b ^ null, 0, blade, y),
        Mode::Right => {
            if null == 0 {
                add_subsets(left, acc, b, full ^ b, 0, blade, y);
            }
        }
        Mode::Inner => {
            add_subsets(left, acc, 0, b ^ null, 0, blade, y);
            if null == 0 {
                add_beyond(left, acc, blade, y);
            }
        }
        Mode::Outer => add_subsets(left, acc, 0, full ^ null, 0, blade, y),
    }
}

// The mask that is turned: 101 in three dimensions, where it stands for e31; else one that no place has.
fn turned_mask(dims: u8) -> u32
    ensures { result ≡ turned_mask dims }
{
    if dims == 3 { 5 } else { 512 }
}

// b's number at a mask, negated where that is the turned one.
fn turned_number(turn: u32, mask: u32, y: f64) -> f64
    ensures { result ≡ turned_number turn mask y }
{
    if mask == turn { -y } else { y }
}

// a's number at the turned mask is negated.
fn turn_in(turn: u32, am: &mut [f64])
    ensures { am.new ≡ turned_at neg turn am.old }
{
    let t = turn as usize;
    if t < am.len() {
        am[t] = -am[t];
    }
}

// The sum at the turned mask is taken from 0: a sum is never -0.
fn turn_out(turn: u32, acc: &mut [f64])
    ensures { acc.new ≡ turned_at (sub binary64 nought) turn acc.old }
{
    let t = turn as usize;
    if t < acc.len() {
        acc[t] = 0.0 - acc[t];
    }
}

// The mask of a place, of those that are given: its bits below the dimensions.
fn mask_at(plan: Plan, i: usize) -> u32
    requires { i < 2 ^ plan.shape.dims }
    ensures { result ≡ plan_mask plan.entry i }
{
    plan.given[i] as u32 & ((1 << plan.shape.dims) - 1)
}

// a's numbers by mask, in an array that is all +0.
fn lay_out(plan: Plan, a: &[f64], am: &mut [f64])
    requires { (length a.now ≡ 2 ^ plan.shape.dims) × (am.old ≡ replicate (2 ^ plan.shape.dims) nought) }
    ensures am_after { let d = plan.entry.shape.dims in am.new ≡ map (at_mask (plan_mask plan.entry) d a.now (2 ^ d)) (up_from 0 (2 ^ d)) }
    ensures by_index { (i : ℕ) → T (fits binary64 (get_or a.now i nan)) }
{
    for (i, x) in a.iter().enumerate() {
        am[mask_at(plan, i) as usize] = *x;
    }
}

// The sums of all pairs, by mask, in an array that is all +0: b's places in order.
fn add_blades(plan: Plan, squares: Squares, turn: u32, b: &[f64], am: &[f64], acc: &mut [f64])
    requires { (length b.now ≡ 2 ^ plan.shape.dims) × (length am.now ≡ 2 ^ plan.shape.dims) × (acc.old ≡ replicate (2 ^ plan.shape.dims) nought) }
    ensures { let n = 2 ^ plan.entry.shape.dims in acc.new ≡ rows_below n (plan_mask plan.entry) turn plan.entry.mode squares am.now b.now n }
{
    let dims = plan.shape.dims;
    let left = Left { dims, am };
    for (j, x) in b.iter().enumerate() {
        let m = mask_at(plan, j);
        let y = turned_number(turn, m, *x);
        add_blade(left, acc, plan.mode, blade_of(squares, m), y);
    }
}

// The sums at the places' masks, snapped.
fn take_back(plan: Plan, acc: &[f64], out: &mut [f64])
    requires { (length acc.now ≡ 2 ^ plan.shape.dims) × (2 ^ plan.shape.dims ≤ length out.old) }
    ensures { out.new ≡ laid (taken_by plan.entry acc.now) out.old }
{
    for (k, x) in out[..acc.len()].iter_mut().enumerate() {
        *x = snap_one(acc[mask_at(plan, k) as usize]);
    }
}

// The product of values whose places have the masks of the plan. `am` and `acc` are lent, all +0.
fn fill_by(plan: Plan, a: &[f64], b: &[f64], am: &mut [f64], acc: &mut [f64], out: &mut [f64])
    requires a_len { (length a.now ≡ 2 ^ plan.shape.dims) × (length b.now ≡ 2 ^ plan.shape.dims) × (2 ^ plan.shape.dims ≤ length out.old) }
    requires am_value { (am.old ≡ replicate (2 ^ plan.shape.dims) nought) × (acc.old ≡ replicate (2 ^ plan.shape.dims) nought) }
    ensures { out.new ≡ laid (planned plan.entry a.now b.now) out.old }
{
    let squares = squares_of(flavor_for(plan.mode, plan.shape.flavor));
    let turn = turned_mask(plan.shape.dims);
    lay_out(plan, a, am);
    turn_in(turn, am);
    add_blades(plan, squares, turn, b, am, acc);
    turn_out(turn, acc);
    take_back(plan, acc, out);
}

// The same, by sums in arrays of N numbers. In line, as the next: else the plan is copied at each call.
#[inline(always)]
fn fill_in<const N: usize>(plan: Plan, a: &[f64], b: &[f64], out: &mut [f64])
    requires a_len { (length a.now ≡ 2 ^ plan.shape.dims) × (length b.now ≡ 2 ^ plan.shape.dims) × (2 ^ plan.shape.dims ≤ length out.old) }
    requires room { (2 ^ plan.shape.dims ≤ N) × (N ≤ 512) }
    ensures { out.new ≡ laid (planned plan.entry a.now b.now) out.old }
{
    let mut am = [0.0; N];
    let mut acc = [0.0; N];
    let n = a.len();
    fill_by(plan, a, b, &mut am[..n], &mut acc[..n], out);
}

// The same, in arrays as long as the dimensions want: what they are cleared for counts where there are few numbers.
#[inline(always)]
pub(crate) fn fill_given(plan: Plan, a: &[f64], b: &[f64], out: &mut [f64])
    requires { (length a.now ≡ 2 ^ plan.shape.dims) × (length b.now ≡ 2 ^ plan.shape.dims) × (2 ^ plan.shape.dims ≤ length out.old) }
    ensures { out.new ≡ laid (planned plan.entry a.now b.now) out.old }
{
    if plan.shape.dims <= 4 {
        fill_in::<16>(plan, a, b, out);
    } else if plan.shape.dims <= 6 {
        fill_in::<64>(plan, a, b, out);
    } else {
        fill_in::<512>(plan, a, b, out);
    }
}
