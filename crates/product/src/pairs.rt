// The number of contributing pairs, by its closed form.
ghost use Rattle.std.specs.Prelude.{◌≡◌, not, ◌-◌, ◌*◌, ◌^◌, ◌≤◌};
ghost use Rattle.clifford.specs.Pairs.{nonzero, nulls};
ghost use Rattle.masks.specs.Flavor.{metric_of, metric_value};
ghost use Rattle.product.specs.Pairwise.{pairs_of};

use super::mode::{Mode, flavor_for};
use masks::flavor::{Flavor, Metric};

// Whether a metric is 0.
fn is_null(m: Metric) -> bool
    ensures { result ≡ not (nonzero (metric_value m)) }
{
    matches!(m, Metric::Zero)
}

// How many basis vectors below `dims` square to 0.
fn null_count(flavor: Flavor, dims: u8) -> u8
    ensures { result ≡ nulls (metric_of flavor) dims }
{
    let mut n: u8 = 0;
    for i in 0..dims {
        if is_null(flavor.metric(i)) {
            n += 1;
        }
    }
    n
}

// A small base to a power.
fn power(base: u32, n: u8) -> u32
    requires { (base ≤ 4) × (n ≤ 9) }
    ensures { result ≡ base ^ n }
{
    base.pow(n as u32)
}

// As many choices for each of `dims` basis vectors as `full` says, and for the null ones among them as `null_ones` says.
fn choices(full: u32, null_ones: u32, dims: u8, null: u8) -> u32
    requires { (full ≤ 4) × (null_ones ≤ 4) × (null ≤ dims) × (dims ≤ 9) }
    ensures { (result ≡ full ^ (dims - null) * null_ones ^ null) × (result ≤ 262144) }
{
    power(full, dims - null) * power(null_ones, null)
}

// The number of pairs that the mode takes and whose metric is not 0.
pub(crate) fn pair_count(mode: Mode, flavor: Flavor, dims: u8) -> u32
    requires { dims ≤ 9 }
    ensures { result ≡ pairs_of mode flavor dims }
{
    let null = null_count(flavor_for(mode, flavor), dims);
    match mode {
        Mode::All | Mode::Outer => choices(4, 3, dims, null),
        Mode::Left | Mode::Right => choices(3, 2, dims, null),
        Mode::Inner => 2 * choices(3, 2, dims, null) - power(2, dims - null),
    }
}
