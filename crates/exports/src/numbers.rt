// A flavor from bytes, and numbers for what has none.
ghost use Rattle.std.specs.Prelude.{◌≡◌};
ghost use Rattle.masks.specs.Flavor.{metric_value};
ghost use Rattle.masks.specs.ShapeBytes.{shape_from};
ghost use Rattle.exports.specs.Numbers.{order_number};

use masks::flavor::{Flavor, Metric};
use masks::shape_bytes::shape_from;
use std::cmp::Ordering;

// The flavor of the shape that six bytes say: the dims are not looked at.
pub(crate) fn flavor_in(bytes: &[u8; 6]) -> Flavor
    ensures { result ≡ (shape_from bytes.now).flavor }
{
    let shape = shape_from(bytes);
    shape.flavor
}

#[tactic(auto, unfolding(masks::specs::Flavor::metric_value))]
pub(crate) fn metric_number(metric: Metric) -> i8
    ensures { result ≡ metric_value metric }
{
    metric as i8
}

pub(crate) fn order_number(order: Ordering) -> i8
    ensures { result ≡ order_number order }
{
    order as i8
}
